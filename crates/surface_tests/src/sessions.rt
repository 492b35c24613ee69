//! Bytes that are taken as events, and replies that are given as bytes.

use radio_addr::Peer;
use radio_core::{Event, Reply};
use radio_policy::Rule;
use radio_session::{Ending, OutOfMemory, Server, Session, State, WebAnswers, exchange};
use radio_settings::MountName;
use std::alloc::{AllocGlobal, Global};

/// A request for a mount that nobody knows, in two pieces, and the answer to it.
const BEGUN: &[u8] = b"GET /none";

const REST: &[u8] = b" HTTP/1.0\r\n\r\n";

const DENIAL: &[u8] = b"HTTP/1.0 404 Not Found\r\n\
Content-Type: text/plain; charset=utf-8\r\n\
Content-Length: 17\r\n\
Connection: close\r\n\
\r\n\
denied: no-mount\n";

/// How a connection ends that is denied so.
const IS_DENIED: State = State::Shut(Ending::By(Rule::NoMount));

/// The session of client 1.
fn session(alloc: Global) -> Session {
    Session::new(alloc, WebAnswers::none(), 1, Peer::of_v4(0x0a00_0001))
}

/// Whether the one event is the request.
fn are_request(events: &[Event]) -> bool {
    let [Event::Listen(request)] = events else {
        return false;
    };
    request.id == 1 && request.mount.as_slice() == b"/none".as_slice() && !request.wants_metadata
}

/// Whether the first piece means nothing yet, and both are the request.
fn is_taken(alloc: Global) -> Result<bool, OutOfMemory> {
    let mut session = session(alloc);
    let is_open = session.take(BEGUN)?.is_empty();
    let events = session.take(REST)?;
    Ok(is_open && are_request(events.as_slice()))
}

/// Whether the denial is written as an answer, and shuts the connection.
fn is_given(alloc: Global) -> Result<bool, OutOfMemory> {
    let mut session = session(alloc);
    let mut out = Vec::new(alloc);
    let state = session.give(Reply::Deny(Rule::NoMount), &mut out)?;
    Ok(state == IS_DENIED && out.as_slice() == DENIAL)
}

#[test]
fn bytes_and_replies(rt: HostRuntime) {
    assert!(rt; is_taken(rt.alloc()) == Ok(true));
    assert!(rt; is_given(rt.alloc()) == Ok(true));
}

/// A server without mounts, which counts the clients that ask for one and those that leave.
#[derive(Drop)]
struct NoMounts {
    asked: u32,
    left: u32,
}

impl Server for NoMounts {
    ghost steps = { λ from event reply to. Unit {0} };

    ghost refuses = { λ from event. Unit {0} };

    fn apply(&mut self, event: Event) -> Result<Reply, OutOfMemory> {
        let reply = if matches!(event, Event::Listen(_)) {
            self.asked = self.asked.saturating_add(1);
            Reply::Deny(Rule::NoMount)
        } else {
            self.left = self.left.saturating_add(1);
            Reply::Noted
        };
        drop(event);
        Ok(reply)
    }

    fn last_mount(&self, _id: u64) -> Option<MountName> {
        None
    }
}

/// Exchanges what the request means with the server.
fn exchanged(
    server: &mut NoMounts,
    session: &mut Session,
    out: &mut Vec<u8>,
) -> Result<State, OutOfMemory> {
    drop(session.take(BEGUN)?);
    let events = session.take(REST)?;
    exchange(server, session, events, out)
}

/// Whether the client is denied once, and leaves by it.
fn is_exchanged(alloc: Global) -> Result<bool, OutOfMemory> {
    let mut server = NoMounts { asked: 0, left: 0 };
    let mut session = session(alloc);
    let mut out = Vec::new(alloc);
    let state = exchanged(&mut server, &mut session, &mut out)?;
    Ok(state == IS_DENIED && out.as_slice() == DENIAL && server.asked == 1 && server.left == 1)
}

#[test]
fn bytes_for_events(rt: HostRuntime) {
    assert!(rt; is_exchanged(rt.alloc()) == Ok(true));
}
