//! The end of a worker's connections.

ghost use Rattle.radio_workers.specs.Leaving.{LeavesAll, LeavesIfHere, AsksToLeave};

use radio_events::Event;
use radio_serving::{Conn, Line, Server};

/// Whoever has not left leaves, in order.
pub(crate) fn leave_all<S: Server, L: Line>(server: &mut S, conns: &[Conn<L>])
    ensures { LeavesAll S.steps S.refuses server.old conns.now server.new }
{
    for conn in conns {
        leave_if_here(server, conn);
    }
}

/// The client of this connection leaves, if it has not left.
fn leave_if_here<S: Server, L: Line>(server: &mut S, conn: &Conn<L>)
    ensures { LeavesIfHere S.steps S.refuses server.old conn.now server.new }
{
    if conn.status().has_left {
        return;
    }
    leave(server, conn.id());
}

fn leave<S: Server>(server: &mut S, id: u64)
    ensures { AsksToLeave S.steps S.refuses server.old id server.new }
{
    // If memory is refused for that, nothing has changed.
    if let Ok(reply) = server.apply(Event::Leave { id }) {
        drop(reply);
    }
}
