//! Events as tests write them. Each that allocates is `OutOfMemory` if memory was refused.

use bytes::Bytes;
use radio_addr::Peer;
use radio_blocks::Block;
use radio_creds::basic;
use radio_events::{
    Asked, Boxed, Command, CommandRequest, Event, ListenRequest, OpenedBy, OutOfMemory, PageVisit,
    SourceRequest,
};
use radio_values::{MountName, Shown, Title};
use std::alloc::Global;

/// What sources send: the user `source` and that password.
const SOURCE_PAIR: &[u8] = b"Basic c291cmNlOmhhY2ttZQ==";

/// What the admin sends: the user `admin` and that password.
const ADMIN_PAIR: &[u8] = b"Basic YWRtaW46bGV0bWVpbg==";

/// Returns the arrival of a connection from 10.0.0.1.
pub fn arrival() -> Event {
    Event::Arrive {
        peer: Peer::of_v4(0x0a00_0001),
    }
}

/// Returns the draw of a listener that has room for 100 bytes.
pub fn draw(id: u64) -> Event {
    Event::Draw { id, room: 100 }
}

/// Returns the title that this client sets.
pub fn title_event(alloc: Global, id: u64, title: &[u8]) -> Result<Event, OutOfMemory> {
    Ok(Event::Title {
        id,
        text: Title::clean(alloc, title)?,
    })
}

/// Returns the request of this client to be a source. It describes its stream: `audio/aac`, the name `Night`.
pub fn source_event(alloc: Global, id: u64, path: &str) -> Result<Event, OutOfMemory> {
    let request = SourceRequest {
        id,
        mount: Bytes::copy_from_slice(alloc, path.as_bytes())?,
        pair: basic(alloc, SOURCE_PAIR)?,
        shown: Shown::clean(alloc, b"audio/aac", b"Night", b"")?,
    };
    Ok(Event::Source(Boxed::new(alloc, request)?))
}

/// Returns the answer of a relay's master, with a stream of this type.
pub fn relay_event(alloc: Global, path: &str, content_type: &str) -> Result<Event, OutOfMemory> {
    let shown = Shown::clean(alloc, content_type.as_bytes(), b"Night", b"")?;
    Ok(Event::RelayUp {
        mount: Bytes::copy_from_slice(alloc, path.as_bytes())?,
        shown: Boxed::new(alloc, shown)?,
    })
}

/// Returns the request of this client to be a listener.
pub fn listen_event(alloc: Global, id: u64, path: &str) -> Result<Event, OutOfMemory> {
    let request = ListenRequest {
        id,
        mount: Bytes::copy_from_slice(alloc, path.as_bytes())?,
        pair: None,
        wants_metadata: false,
        visit: PageVisit {
            host: Bytes::from_static(b""),
            server_start: None,
        },
    };
    Ok(Event::Listen(Boxed::new(alloc, request)?))
}

/// Returns the command that this client gives, as the admin.
pub fn command_event(alloc: Global, id: u64, asked: Asked) -> Result<Event, OutOfMemory> {
    let pair = basic(alloc, ADMIN_PAIR)?;
    let request = CommandRequest { id, asked, pair };
    Ok(Event::Command(Boxed::new(alloc, request)?))
}

/// Returns the data that this client delivers. Of no data there is no block: a stray event takes its place.
pub fn push_event(alloc: Global, id: u64, data: &[u8]) -> Result<Event, OutOfMemory> {
    match Block::new(Bytes::copy_from_slice(alloc, data)?) {
        Some(block) => Ok(Event::Push { id, block }),
        None => Ok(Event::Leave { id: 0 }),
    }
}

/// Returns the command that finishes the listener of that number at the mount of this path.
pub fn killing(path: &str, listener: u64) -> Asked {
    match MountName::read(path.as_bytes()) {
        Some(mount) => Asked::Command(Command::KillClient { mount, listener }),
        None => Asked::MissingArgument(OpenedBy::Admin),
    }
}

/// Returns the command that moves the listeners of a mount to another.
pub fn moving(from: &str, to: &str) -> Asked {
    match (
        MountName::read(from.as_bytes()),
        MountName::read(to.as_bytes()),
    ) {
        (Some(mount), Some(destination)) => {
            Asked::Command(Command::MoveClients { mount, destination })
        }
        (_, _) => Asked::NoCommand,
    }
}
