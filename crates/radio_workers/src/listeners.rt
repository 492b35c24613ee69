//! What a worker sees of its listeners after a turn.

ghost use Rattle.std.specs.Prelude.{◌≡◌};
ghost use Rattle.radio_workers.specs.Shifts.{has_listeners, has_more_to_draw, may_draw_more};

use radio_connections::ConnStatus;
use radio_serving::{Conn, Line};

/// Returns whether one of them has a seat.
pub(crate) fn has_listeners<L: Line>(conns: &[Conn<L>]) -> bool
    ensures { result ≡ has_listeners conns.now }
{
    conns.iter().any(|conn| conn.status().sits)
}

/// Returns whether a listener's draw at this moment, in milliseconds, has brought all that it had room for.
pub(crate) fn has_more_to_draw<L: Line>(conns: &[Conn<L>], ms: u64) -> bool
    ensures { result ≡ has_more_to_draw ms conns.now }
{
    conns.iter().any(|conn| may_draw_more(conn.status(), ms))
}

/// Returns whether the draw at this moment, in milliseconds, has brought all that its listener had room for, and the listener may
/// draw again.
fn may_draw_more(status: ConnStatus, ms: u64) -> bool
    ensures { result ≡ may_draw_more ms status }
{
    status.is_behind && status.fate.is_open() && status.asked_ms == ms
}
