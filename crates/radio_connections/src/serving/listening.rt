//! Reads what arrives on a connection.

ghost use Rattle.std.specs.Prelude.{◌≡◌, [], List, if◌then◌else◌};
ghost use Rattle.radio_events.specs.declared.entry.Entry.{Entry as EntryOf};
ghost use Rattle.radio_events.specs.Servers.{Chain};
ghost use Rattle.radio_connections.specs.Leaving.{Listens};
ghost use Rattle.radio_connections.specs.Answering.{IsHeardOn};

use crate::serving::Now;
use crate::serving::answering::answer_all;
use crate::workspace::READ_ROOM;
use crate::{Conn, Fate, Line, Received, Server};
use radio_notes::Log;

/// Reads once from the connection's line, and applies what the bytes mean. Where the peer has
/// closed, or the line has failed, the connection is closed.
pub(crate) fn listen<S: Server, L: Line>(
    server: &mut S,
    conn: &mut Conn<L>,
    buffer: &mut [u8; READ_ROOM],
    now: Now,
    log: &Log,
)
    requires open { conn.old.status.fate ≡ Fate.Open }
    requires all { conn.old.outgoing ≡ [] }
    ensures { Listens S.steps now.ms server.old conn.old server.new conn.new }
{
    match conn.line.read(buffer) {
        Received::Bytes(count) => hear(server, conn, &buffer[..count], now, log),
        Received::Nothing => (),
        Received::Closed => conn.status.fate = Fate::Closed,
        Received::Fault => conn.status.fate = Fate::Closed,
    }
}

/// Reads these bytes, which its line gave. It is cut off if memory is refused.
fn hear<S: Server, L: Line>(server: &mut S, conn: &mut Conn<L>, bytes: &[u8], now: Now, log: &Log)
    requires { conn.old.status.fate ≡ Fate.Open }
    ensures { (entries : List EntryOf) × Chain S.steps server.old entries server.new × IsHeardOn now.ms bytes.now conn.old entries conn.new }
{
    match conn.session.take(bytes) {
        Ok(events) => {
            conn.account.receive(bytes, &events);
            conn.status.asked_ms = asked_ms(events.is_empty(), conn.status.asked_ms, now);
            answer_all(server, conn, events, log);
        }
        Err(_) => {
            conn.account.note_no_memory();
            conn.status.fate = Fate::Cut;
        }
    }
}

/// When something was last asked for a connection: now, unless nothing is.
fn asked_ms(is_nothing: bool, before_ms: u64, now: Now) -> u64
    ensures { result ≡ (if is_nothing then before_ms else now.ms) }
{
    if is_nothing { before_ms } else { now.ms }
}
