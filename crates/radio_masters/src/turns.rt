//! The turns of relays that wait for a place.

ghost use Rattle.std.specs.Prelude.{IfOk};
ghost use Rattle.radio_masters.specs.Turns.{HaveTheirTurn};

use crate::OutOfMemory;

/// A relay that waits for a place: from which moment on it may be tried, in milliseconds, and its number in the queue.
#[derive(Clone, Copy, Debug, PartialEq, Eq, PartialOrd, Ord)]
pub struct WaitingRelay {
    /// From this moment on it may be tried, in milliseconds; 0 if it was never tried.
    pub due_ms: u64,
    /// Its number in the queue: of those that are due alike, the one with the lowest comes first.
    pub number: usize,
}

/// Those of the relays that wait which may be tried at this moment, in milliseconds, if so many places are free: those that
/// are due, the one that is due for the longest first.
///
/// `OutOfMemory` if memory was refused.
// rule: Relay places
pub fn in_turn(
    waiting: Vec<WaitingRelay>,
    places: usize,
    ms: u64,
) -> Result<Vec<WaitingRelay>, OutOfMemory>
    ensures { IfOk result (λ chosen. HaveTheirTurn ms places waiting.items chosen.items) }
{
    let mut queue = waiting;
    queue.retain(|relay| relay.due_ms <= ms);
    queue.sort()?;
    queue.truncate(places);
    Ok(queue)
}
