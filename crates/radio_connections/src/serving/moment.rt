//! A connection's turn.

ghost use Rattle.std.specs.Prelude.{◌≡◌, [], IsTrue};
ghost use Rattle.radio_connections.specs.declared.conn.Fate.TheVariants.{Open};
ghost use Rattle.radio_connections.specs.Serving.{ServesInTurn};
ghost use Rattle.radio_connections.specs.Leaving.{EndsTurn, Works};

use crate::serving::Now;
use crate::serving::drawing::draw;
use crate::serving::flushing::{flush, give_up};
use crate::serving::leaving::leave;
use crate::serving::lingering::linger;
use crate::serving::listening::listen;
use crate::workspace::{READ_ROOM, Workspace};
use crate::{Conn, Fate, Gate, Line, Server};
use radio_notes::Log;

/// Serves a connection: first what is pending is written. While something is pending, the
/// connection is neither read nor drawn for. The log gets a line of a connection that is at its
/// end.
pub fn serve<S: Server, L: Line, G: Gate>(
    server: &mut S,
    conn: &mut Conn<L>,
    workspace: &mut Workspace,
    gate: &G,
    now: Now,
    log: &Log,
)
    ensures { ServesInTurn S.steps now.ms now.patience_ms now.news server.old conn.old server.new conn.new }
{
    lend(conn, &mut workspace.spare, now);
    write_and_work(server, conn, &mut workspace.buffer, gate, now, log);
    take_back(conn, &mut workspace.spare);
    log_end(conn, now, log);
}

/// Lends the spare memory to a connection on which nothing is pending, for the reply to its draw.
fn lend<L: Line>(conn: &mut Conn<L>, spare: &mut Vec<u8>, now: Now)
    ensures { conn.new ≡ conn.old }
{
    if now.news {
        conn.outgoing.take_memory(spare);
    }
}

/// Takes the memory back from a connection on which nothing is pending.
fn take_back<L: Line>(conn: &mut Conn<L>, spare: &mut Vec<u8>)
    ensures { conn.new ≡ conn.old }
{
    conn.outgoing.give_memory_back(spare);
}

/// Writes what is pending on a connection, and does its work once nothing is pending any more.
fn write_and_work<S: Server, L: Line, G: Gate>(
    server: &mut S,
    conn: &mut Conn<L>,
    buffer: &mut [u8; READ_ROOM],
    gate: &G,
    now: Now,
    log: &Log,
)
    ensures { ServesInTurn S.steps now.ms now.patience_ms now.news server.old conn.old server.new conn.new }
{
    flush(conn, gate, now);
    if !conn.outgoing.rest().is_empty() {
        give_up(conn, now);
        leave(server, conn);
        return;
    }
    work(server, conn, buffer, now, log);
    end_turn(server, conn, gate, now);
}

/// Has the client leave if the connection is over, writes what is pending, and has the client leave if the connection is over then.
/// In most turns the connection goes on with nothing pending, so there is nothing to do.
fn end_turn<S: Server, L: Line, G: Gate>(server: &mut S, conn: &mut Conn<L>, gate: &G, now: Now)
    ensures { EndsTurn S.steps now.ms server.old conn.old server.new conn.new }
{
    if is_idle(conn) {
        return;
    }
    leave(server, conn);
    flush(conn, gate, now);
    leave(server, conn);
}

/// Returns whether the connection goes on with nothing pending.
fn is_idle<L: Line>(conn: &Conn<L>) -> bool
    ensures open { IsTrue result → conn.now.status.fate ≡ Open }
    ensures none { IsTrue result → conn.now.outgoing ≡ [] }
{
    conn.status.fate.is_open() && conn.outgoing.rest().is_empty()
}

/// Logs the end of a connection: of its source, and of its client once nothing more is written.
fn log_end<L: Line>(conn: &Conn<L>, now: Now, log: &Log) {
    if !conn.status.fate.is_open() {
        log_over(conn, now, log);
    }
}

/// Logs a connection that does not go on. It is no part of what is done for each at each turn.
#[cold]
fn log_over<L: Line>(conn: &Conn<L>, now: Now, log: &Log) {
    let peer = conn.session.peer();
    conn.account.log_source_gone(log, peer, now.ms);
    if conn.lingers() || !conn.stays() {
        conn.account.log_client_ended(log, peer, now.ms);
    }
}

/// Does the work of a connection on which nothing is pending.
fn work<S: Server, L: Line>(
    server: &mut S,
    conn: &mut Conn<L>,
    buffer: &mut [u8; READ_ROOM],
    now: Now,
    log: &Log,
)
    requires { conn.old.outgoing ≡ [] }
    ensures { Works S.steps now.ms now.news server.old conn.old server.new conn.new }
{
    let fate = conn.status.fate;
    match fate {
        Fate::Open => {
            conn.status.moved_ms = now.ms;
            listen(server, conn, buffer, now, log);
            draw(server, conn, now);
        }
        Fate::Ended => linger(conn, buffer, now),
        Fate::Closed => (),
        Fate::Cut => (),
    }
}
