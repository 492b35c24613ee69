//! What is made of what the desks of all workers say, as plain values.

ghost use Rattle.std.specs.Prelude.{◌≡◌, ◌<◌, ◌+◌, ◌-◌, ◌^◌, ◌&&◌, ◌||◌};
ghost use Rattle.radio_board.specs.Sums.{newcomers_left, drawn_after, first_come, least_of, left_to_draw, load_of, may_linger, most_of, place_on, taker_of};

use radio_connections::DRAW_ROOM;

/// Returns the smaller of `least` and a worker's number, if that worker counts.
pub(crate) fn least_of(least: u64, counts: bool, number: u64) -> u64
    ensures { result ≡ least_of least counts number }
{
    if counts { least.min(number) } else { least }
}

/// Returns the larger of `most` and a worker's number, if that worker counts.
pub(crate) fn most_of(most: u64, counts: bool, number: u64) -> u64
    ensures { result ≡ most_of most counts number }
{
    if counts { most.max(number) } else { most }
}

/// Returns how many connections a worker has, with those that were put for it.
pub(crate) fn load_of(connections: usize, newcomers: usize) -> usize
    ensures { result ≡ load_of connections newcomers }
{
    connections.saturating_add(newcomers)
}

/// Returns how many of the `count` connections of a worker that wish to linger may, if `all` do, of all workers together, and
/// `most` of these may.
// rule: Most that linger
pub(crate) fn may_linger(count: usize, all: usize, most: usize) -> usize
    ensures { result ≡ may_linger count all most }
{
    count.saturating_sub(all.saturating_sub(most))
}

/// Returns up to which of the bytes that came from sources the listeners of a worker have drawn, if they had drawn `before` of
/// them, and `received` had come when a round began. If one of them has more to draw, the round brought each only as much as a
/// draw brings.
pub(crate) fn drawn_after(before: u64, received: u64, has_more: bool) -> u64
    ensures { result ≡ drawn_after before received has_more }
{
    if has_more {
        received.min(before.saturating_add(DRAW_ROOM as u64))
    } else {
        received
    }
}

/// Returns how many of the `received` bytes that came from sources the listeners of a worker have still to draw, if there are
/// any.
pub(crate) fn left_to_draw(received: u64, drawn: u64, has_listeners: bool) -> u64
    ensures { result ≡ left_to_draw received drawn has_listeners }
{
    if has_listeners {
        received.saturating_sub(drawn)
    } else {
        0
    }
}

/// Returns the number so many steps behind `from`, of `count` numbers that follow one another in a ring.
// rule: Newcomers
pub(crate) fn place_on(from: usize, step: usize, count: usize) -> usize
    requires { (0 < count) × (step < count) }
    ensures place { result ≡ place_on from step count }
    ensures inside { result < count }
{
    let first = from % count;
    if step < count - first {
        first + step
    } else {
        step - (count - first)
    }
}

/// Returns whether a worker's first listeners have come, if it `had` listeners and `has` them now.
pub(crate) fn first_come(had: bool, has: bool) -> bool
    ensures { result ≡ first_come had has }
{
    has && !had
}

/// Returns how many newcomers are left of so many, if `most` of them at most are taken. `None` if none is taken.
pub(crate) fn newcomers_left(newcomers: usize, most: usize) -> Option<usize>
    ensures { result ≡ newcomers_left newcomers most }
{
    if newcomers.min(most) == 0 {
        None
    } else {
        Some(newcomers.saturating_sub(most))
    }
}

/// Returns which worker is woken for a newcomer that was put for the worker of the number `own`: the one that takes
/// newcomers next, or that worker again if none does.
// rule: Newcomers
pub(crate) fn taker_of(next: Option<usize>, own: usize) -> usize
    ensures { result ≡ taker_of next own }
{
    next.unwrap_or(own)
}
