//! A connection's conversation: how its bytes are read, and how replies are written. Read [`Session`] first.

ghost use Rattle.std.specs.Prelude.{◌≡◌};
ghost use Rattle.radio_session.specs.Conversation.{Conversation, fresh};

use crate::WebAnswers;
use feeding::KeptBody;
use radio_addr::Peer;
use radio_icy::Weaver;
use radio_policy::Rule;
use std::alloc::Global;
use std::marker::Model;

mod asking;
mod browsers;
mod commands;
mod feeding;
mod framing;
mod hearing;
mod saying;
mod weaving;

/// How the next bytes of a connection are read.
#[derive(Drop)]
pub(crate) enum Hears {
    /// As the head of a request. A part of it may have arrived.
    Head,
    /// As a source's body.
    Body(KeptBody),
    /// Not at all: the connection ignores them.
    Nothing,
}

/// The first answer to an admitted source.
#[derive(Clone, Copy, PartialEq, Eq)]
pub(crate) enum Greeting {
    /// The answer that it is admitted.
    Welcome,
    /// `100 Continue` (RFC 9110, section 15.2.1). The answer that it is admitted follows once its body is whole.
    Continue,
}

/// Why a connection ends by its own rule. This decides what it writes last.
#[derive(Clone, Copy)]
pub(crate) enum LastWord {
    /// The denial by this rule: the connection refuses what arrived.
    Refusal(Rule),
    /// The end of a whole body.
    Complete,
    /// The end of a body with a fault.
    Faulty,
}

/// How a connection closes by its own rule.
#[derive(Clone, Copy)]
pub(crate) struct Closing {
    /// The number of replies before the one with which the connection writes its last word.
    pub(crate) awaits: usize,
    pub(crate) word: LastWord,
}

/// How the connection writes replies.
#[derive(Drop)]
pub(crate) struct Says {
    pub(crate) closing: Option<Closing>,
    /// Puts metadata blocks between a listener's data. `None` if the listener gets none.
    pub(crate) weaver: Option<Weaver>,
    /// Whether a source or a listener was admitted. A later denial only closes the connection.
    pub(crate) is_admitted: bool,
    pub(crate) greeting: Greeting,
    /// The settings for answers. They come last, since a listener's draw does not read them.
    pub(crate) web: WebAnswers,
}

/// One connection's conversation: its client's number, its peer, the bytes of an unfinished head, and how it reads
/// and writes next.
///
/// Its caller applies the events that [`Session::take`] returns, one after another, and gives each reply to
/// [`Session::give`], as [`exchange`](crate::exchange) does. Once `give` returns `Shut`, the caller applies `Leave`
/// in place of the remaining events, unless a `Leave` was the last event.
///
/// It keeps at most 8192 bytes of an unfinished head. Of a body it keeps no data, only an unfinished chunk line. A
/// call that is refused memory fails the session. Then each later call is refused too, and the caller shuts the
/// connection.
///
/// In contracts its value is a `Conversation`.
pub struct Session {
    // a listener's draw reads the fields that come first, so they lie together
    alloc: Global,
    id: u64,
    has_failed: bool,
    says: Says,
    peer: Peer,
    held: Vec<u8>,
    hears: Hears,
}

impl Drop for Session {
    fn drop(self) {
        let Session {
            alloc: _,
            id: _,
            has_failed: _,
            says,
            peer: _,
            held,
            hears,
        } = self;
        drop(says);
        drop(held);
        drop(hears);
    }
}

impl Model for Session {
    ghost use Rattle.radio_session.specs.Conversation.{Conversation};
    ghost use Rattle.radio_heads.specs.Search.{HasNoEnd};
    ghost use Rattle.radio_session.specs.Conversation.{IsOpen};

    ghost Value = { Conversation };

    ghost view = { λ s. record {
      id = s.id;
      peer = s.peer;
      held = s.held.items;
      hears = s.hears;
      says = s.says;
      has_failed = s.has_failed;
    } };

    ghost invariant = { λ s. HasNoEnd s.held.items × IsOpen s.hears };
}

impl Session {
    /// Returns the session of the client of this number, whose connection comes from this peer. `web` has the
    /// settings for its answers. It takes no memory now, and keeps `alloc` for later. If the server does not admit a
    /// connection, the caller gives the denial to a session of number 0.
    pub fn new(alloc: Global, web: WebAnswers, id: u64, peer: Peer) -> Session
        ensures { result ≡ fresh web id peer }
    {
        Session {
            alloc,
            id,
            has_failed: false,
            says: Says {
                is_admitted: false,
                greeting: Greeting::Welcome,
                closing: None,
                weaver: None,
                web,
            },
            peer,
            held: Vec::new(alloc),
            hears: Hears::Head,
        }
    }

    /// Returns the number of the session's client.
    pub fn id(&self) -> u64
        ensures { result ≡ self.now.id }
    {
        self.id
    }

    /// Returns the peer from which the session's connection comes.
    pub fn peer(&self) -> Peer
        ensures { result ≡ self.now.peer }
    {
        self.peer
    }
}
