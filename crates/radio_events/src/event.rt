//! What happens to the server.

use crate::{Boxed, CommandRequest};
use bytes::Bytes;
use radio_addr::Peer;
use radio_blocks::Block;
use radio_creds::Pair;
use radio_values::{Shown, Title};

/// What a client sends that wants to feed a mount.
pub struct SourceRequest {
    /// The number of the client.
    pub id: u64,
    /// The path that it names, which need not be the name of a mount.
    pub mount: Bytes,
    /// The user and the password that it sends, if it does.
    pub pair: Option<Pair>,
    /// What its head says of the stream.
    pub shown: Shown,
}

impl Drop for SourceRequest {
    fn drop(self) {
        let SourceRequest {
            id: _,
            mount,
            pair,
            shown,
        } = self;
        drop(mount);
        drop(pair);
        drop(shown);
    }
}

/// What a client sends that wants to hear a mount.
#[derive(Drop)]
pub struct ListenRequest {
    /// The number of the client.
    pub id: u64,
    /// The path that it names, which need not be the name of a mount.
    pub mount: Bytes,
    /// The user and the password that it sends, if it does.
    pub pair: Option<Pair>,
    /// Whether it wants metadata between the data (ICY convention, `Icy-MetaData`).
    pub wants_metadata: bool,
    /// What a page of the web site may say to this client.
    pub visit: PageVisit,
}

/// What a page of the web site says of the server to one client.
#[derive(Drop)]
pub struct PageVisit {
    /// The host by which the client calls the server (RFC 9110, section 7.2), if the page has full addresses; empty for
    /// other pages, and if the client names no host.
    pub host: Bytes,
    /// When the server started; `None` if the program does not say.
    pub server_start: Option<MomentText>,
}

/// A second of UTC, as `2026-11-25T08:43:49+0000` (ISO 8601, as Icecast writes moments).
pub type MomentText = [u8; 24];

/// What happens to the server.
#[derive(Drop)]
pub enum Event {
    /// A connection comes from this address.
    Arrive {
        peer: Peer,
    },
    /// A client wants to feed a mount.
    Source(Boxed<SourceRequest>),
    /// The source has delivered a block.
    Push {
        id: u64,
        block: Block,
    },
    /// The source's data have ended.
    SourceEnd {
        id: u64,
    },
    /// The source sets the title of what it plays from now on.
    Title {
        id: u64,
        text: Title,
    },
    /// A client wants to hear a mount.
    Listen(Boxed<ListenRequest>),
    /// The listener has room for so many bytes of data.
    Draw {
        id: u64,
        room: u32,
    },
    /// A client gives a command.
    Command(Boxed<CommandRequest>),
    /// The client's connection is closed.
    Leave {
        id: u64,
    },
    /// A relay's master has answered, and the relay wants to feed a mount.
    RelayUp {
        /// The name of the mount, which need not be one.
        mount: Bytes,
        /// What the head of the master's answer says of the stream.
        shown: Boxed<Shown>,
    },
    /// The relay's connection to its master is closed.
    RelayDown {
        id: u64,
    },
    /// It is this moment, in milliseconds; one that has passed does not count.
    Clock {
        ms: u64,
    },
}
