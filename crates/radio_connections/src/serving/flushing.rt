//! Writing what is pending on a connection.

ghost use Rattle.std.specs.Prelude.{◌≡◌, ◌<◌, ◌||◌, length};
ghost use Rattle.radio_connections.specs.Duties.{IsWritten};
ghost use Rattle.radio_connections.specs.Leaving.{IsFlushed, IsPatient};

use crate::serving::Now;
use crate::serving::answering::either;
use crate::{Conn, Fate, Gate, Line, Sent};

/// Writes once of what is pending, as far as the line takes it. The connection is cut off if the
/// line fails. In most turns nothing is pending, so the rest is a call of its own.
pub(crate) fn flush<L: Line, G: Gate>(conn: &mut Conn<L>, gate: &G, now: Now)
    ensures { IsFlushed now.ms conn.old conn.new }
{
    let fate = conn.status.fate;
    match fate {
        Fate::Open | Fate::Ended => {
            if !conn.outgoing.rest().is_empty() {
                write(conn, gate, now);
            }
        }
        Fate::Closed | Fate::Cut => (),
    }
}

#[inline(never)]
fn write<L: Line, G: Gate>(conn: &mut Conn<L>, gate: &G, now: Now)
    requires fate { IsWritten conn.old.status.fate }
    requires some { 0 < length conn.old.outgoing }
    ensures { IsFlushed now.ms conn.old conn.new }
{
    gate.hold(conn.id);
    let sent = conn.line.write(conn.outgoing.rest());
    gate.let_go(conn.id);
    match sent {
        Sent::Took(count) => {
            conn.account.note_handed(count);
            conn.outgoing.take_off(count);
            conn.status.moved_ms = now.ms;
            conn.status.has_taken = true;
        }
        Sent::Nothing => (),
        Sent::Fault => conn.status.fate = Fate::Cut,
    }
}

/// Cuts a connection off if none of what is pending has moved for too long. It does not draw what
/// there is news of, and is behind then.
#[cold]
pub(crate) fn give_up<L: Line>(conn: &mut Conn<L>, now: Now)
    ensures patient { IsPatient now.ms now.patience_ms conn.old conn.new }
    // it is behind if there is news, or it was before
    ensures behind { conn.new.status.is_behind ≡ (now.news || conn.old.status.is_behind) }
{
    conn.status.is_behind = either(now.news, conn.status.is_behind);
    if now.is_past(conn.status.moved_ms, now.patience_ms) {
        conn.account.note_stalled();
        conn.status.fate = Fate::Cut;
    }
}
