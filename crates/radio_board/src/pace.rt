//! When listeners get news at once, and when sources are read slowly, so that listeners of other workers can follow.

ghost use Rattle.std.specs.Prelude.{◌≡◌};
ghost use Rattle.radio_board.specs.Paces.{slow_at, much_at, pace_at};

use radio_lines::Pace;

/// How many bytes a worker's listeners may have still to draw at most, before sources are read slowly.
const MOST_BEHIND: u64 = 131_072;

/// From where on sources are read slowly: a quarter of what is kept of a stream, if that is less.
// rule: Sources wait
pub(crate) fn slow_from(queue_size: u64) -> u64
    ensures { result ≡ slow_at queue_size }
{
    MOST_BEHIND.min(queue_size / 4)
}

/// Below which `queue-size` listeners get all news at once: a source's first bytes, which are not counted, are more
/// than much of it.
const LEAST_QUEUE: u64 = 65_536;

/// Returns from how many bytes on listeners get news at once: a quarter of that, so that they get it
/// long before.
// rule: News waits
pub(crate) fn much_from(queue_size: u64) -> u64
    ensures { result ≡ much_at queue_size }
{
    if queue_size < LEAST_QUEUE {
        0
    } else {
        slow_from(queue_size) / 4
    }
}

/// Returns the pace if the listeners of a worker are so many bytes behind, and sources are read slowly from so many on.
/// They are not read from twice as many on.
// rule: Sources wait
pub(crate) fn pace_of(behind: u64, slow_from: u64) -> Pace
    ensures { result ≡ pace_at behind slow_from }
{
    if behind <= slow_from {
        Pace::Free
    } else if behind <= slow_from.saturating_mul(2) {
        Pace::Slow
    } else {
        Pace::Stopped
    }
}
