//! Each connection in its turn.

ghost use Rattle.radio_serving.specs.Turns.{ServesEach};

use crate::{Conn, Gate, Line, Server};
use radio_connections::{Now, Workspace, serve};
use radio_notes::Log;

/// Serves each connection, in order, and logs each that is at its end.
pub(crate) fn serve_each<S: Server, L: Line, G: Gate>(
    server: &mut S,
    conns: &mut Vec<Conn<L>>,
    workspace: &mut Workspace,
    gate: &G,
    now: Now,
    log: &Log,
)
    ensures { ServesEach S.steps now.ms now.patience_ms now.news server.old conns.old.items server.new conns.new.items }
{
    for conn in conns.iter_mut() {
        serve(server, conn, workspace, gate, now, log);
    }
}
