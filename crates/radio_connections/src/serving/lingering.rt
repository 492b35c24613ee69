//! A connection that has ended, and has nothing more to write.

ghost use Rattle.std.specs.Prelude.{◌≡◌, ◌-◌, [], true, nat_le};
ghost use Rattle.radio_connections.specs.Duties.{IsReadOnce};
ghost use Rattle.radio_connections.specs.Serving.{IsServed};
ghost use Rattle.radio_connections.specs.Leaving.{StaysEnded, NotesFinish, HasAnswered, is_over};

use crate::serving::{LINGER_MS, Now};
use crate::workspace::READ_ROOM;
use crate::{Conn, Fate, Line, Received};

/// Closes the line for writing, and ignores what still comes, so that the last answer is not lost.
/// The connection is closed once the peer has closed, or after a second; and at once if nothing was
/// written.
pub(crate) fn linger<L: Line>(conn: &mut Conn<L>, buffer: &mut [u8; READ_ROOM], now: Now)
    requires fate { conn.old.status.fate ≡ Fate.Ended }
    requires all { conn.old.outgoing ≡ [] }
    ensures { StaysEnded now.ms conn.old conn.new }
{
    if conn.status.has_taken {
        wait_for_close(conn, buffer, now);
    } else {
        conn.status.fate = Fate::Closed;
    }
}

/// The same for a connection on which something was written.
fn wait_for_close<L: Line>(conn: &mut Conn<L>, buffer: &mut [u8; READ_ROOM], now: Now)
    requires fate { conn.old.status.fate ≡ Fate.Ended }
    requires written { conn.old.status.has_taken ≡ true }
    requires all { conn.old.outgoing ≡ [] }
    ensures { StaysEnded now.ms conn.old conn.new }
{
    finish(conn, now);
    if is_over(pass_over(conn, buffer), conn.status.moved_ms, now) {
        conn.status.fate = Fate::Closed;
    }
}

/// Closes the line for writing, if that was not done.
fn finish<L: Line>(conn: &mut Conn<L>, now: Now)
    ensures served { IsServed conn.old [] conn.new }
    ensures fate { conn.new.status.fate ≡ conn.old.status.fate }
    ensures outgoing { conn.new.outgoing ≡ conn.old.outgoing }
    ensures calls { conn.new.calls ≡ conn.old.calls }
    ensures taken { conn.new.taken ≡ conn.old.taken }
    ensures has_taken { conn.new.status.has_taken ≡ conn.old.status.has_taken }
    ensures finished { conn.new.status.is_finished ≡ true }
    ensures noted { NotesFinish now.ms conn.old conn.new }
{
    if conn.status.is_finished {
        return;
    }
    conn.line.finish();
    conn.status.is_finished = true;
    conn.status.moved_ms = now.ms;
}

/// Reads once from its line, and passes over what came.
fn pass_over<L: Line>(conn: &mut Conn<L>, buffer: &mut [u8; READ_ROOM]) -> Received
    requires { conn.old.status.fate ≡ Fate.Ended }
    ensures served { IsServed conn.old [] conn.new }
    ensures status { conn.new.status ≡ conn.old.status }
    ensures outgoing { conn.new.outgoing ≡ conn.old.outgoing }
    ensures once { IsReadOnce conn.old conn.new }
    ensures taken { conn.new.taken ≡ conn.old.taken }
    ensures answer { HasAnswered result conn.old.calls conn.new.calls }
{
    conn.line.read(buffer)
}

/// Whether nothing more will come, or a second has passed.
fn is_over(received: Received, since_ms: u64, now: Now) -> bool
    ensures { result ≡ is_over received (nat_le 1000 (now.ms - since_ms)) }
{
    match received {
        Received::Bytes(_) | Received::Nothing => now.is_past(since_ms, LINGER_MS),
        Received::Closed | Received::Fault => true,
    }
}
