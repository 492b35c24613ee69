//! The end of a client.

ghost use Rattle.std.specs.Prelude.{◌≡◌, false};
ghost use Rattle.radio_connections.specs.Connections.{is_open};
ghost use Rattle.radio_connections.specs.Leaving.{HasAskedToLeave, Leaves};

use crate::refusals::Refusals;
use crate::{Conn, Line, Server};
use radio_events::Event;

/// The client leaves whose connection is over, if it has not left. Where memory is refused for that,
/// it leaves with a later turn.
pub(crate) fn leave<S: Server, L: Line>(server: &mut S, conn: &mut Conn<L>)
    ensures { Leaves S.steps server.old conn.old server.new conn.new }
{
    if conn.status.fate.is_open() {
        return;
    }
    leave_over(server, conn);
}

/// The same of a connection that is over. It is no part of what is done for each at each turn.
#[cold]
fn leave_over<S: Server, L: Line>(server: &mut S, conn: &mut Conn<L>)
    requires { is_open conn.old.status.fate ≡ false }
    ensures { Leaves S.steps server.old conn.old server.new conn.new }
{
    if conn.status.has_left {
        return;
    }
    note_mount(server, conn);
    if asks_to_leave(server, &mut conn.refusals, conn.id) {
        conn.status.has_left = true;
    }
}

/// Notes the listener's last mount for the log, since the server forgets a listener that has left.
#[cold]
fn note_mount<S: Server, L: Line>(server: &S, conn: &Conn<L>) {
    if !conn.account.is_listener() {
        return;
    }
    if let Some(mount) = server.last_mount(conn.id) {
        conn.account.note_last_mount(&mount);
    }
}

/// The client of this number leaves. Whether memory was not refused.
#[cold]
fn asks_to_leave<S: Server>(server: &mut S, refusals: &mut Refusals, id: u64) -> bool
    ensures { HasAskedToLeave S.steps result id server.old refusals.old server.new refusals.new }
{
    match server.apply(Event::Leave { id }) {
        Ok(reply) => {
            drop(reply);
            true
        }
        Err(_) => {
            refusals.count(true);
            false
        }
    }
}
