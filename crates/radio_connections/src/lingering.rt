//! Connections on which nothing more is written, and whose peers have not closed yet.

ghost use Rattle.std.specs.Prelude.{◌≡◌, length, filter};
ghost use Rattle.std.specs.List.{position};
ghost use Rattle.radio_connections.specs.Connections.{lingers, without_first};

use crate::{Conn, Line};

/// How many linger.
// rule: Most that linger
pub fn count_lingering<L: Line>(conns: &[Conn<L>]) -> usize
    ensures { result ≡ length (filter lingers conns.now) }
{
    conns.iter().filter(|conn| conn.lingers()).count()
}

/// Closes the lingering connection that came first, if one lingers.
// rule: Most that linger
pub fn close_first_lingering<L: Line>(conns: &mut Vec<Conn<L>>)
    ensures { conns.new.items ≡ without_first conns.old.items }
{
    let Some(at) = first_lingering(conns.as_slice()) else {
        return;
    };
    drop(conns.remove(at));
}

/// Returns the place of the first lingering connection.
fn first_lingering<L: Line>(conns: &[Conn<L>]) -> Option<usize>
    ensures { result ≡ position lingers conns.now }
{
    conns.iter().position(|conn| conn.lingers())
}
