//! The time that was served.

ghost use Rattle.std.specs.Prelude.{◌≡◌, ◌≤◌, ◌+◌, max};
ghost use Rattle.radio_board.specs.Serving.{Served, is_served, most_step, served_by, common_moment};

use crate::idle_wait::MOST_REST_MS;
use std::marker::Model;

/// By how many milliseconds the served time grows from one turn to the next, at most.
const MOST_STEP_MS: u64 = 500;

/// For how many milliseconds a worker may stall at most, until others stop waiting for it.
const MOST_STILL_MS: u64 = 2000;

/// The time that a worker has served, in milliseconds. Time in which the process or one of its workers stalled does not
/// count. From one turn to the next the served time grows by half a second at most, whatever the system's clock says.
/// It is never ahead of the moment up to which all have read by more than half a second.
#[derive(Drop)]
pub struct ServedTime {
    clock_ms: u64,
    served_ms: u64,
}

impl Model for ServedTime {
    ghost use Rattle.radio_board.specs.Serving.{Served};

    ghost Value = { Served };

    ghost view = { λ t. record { clock = t.clock_ms; served = t.served_ms } };
}

impl ServedTime {
    /// Returns a clock that begins at this served time, when the system's clock is at `clock_ms`.
    pub fn new(clock_ms: u64, served_ms: u64) -> ServedTime
        ensures { result ≡ record { clock = clock_ms; served = served_ms } }
    {
        ServedTime {
            clock_ms,
            served_ms,
        }
    }

    /// Notes that the system's clock is at `clock_ms`, when the sockets were asked again, and that all workers have read up
    /// to `all_read_ms`. Returns the served time when they were asked before: all that had come by then has been read since.
    // rule: Server time
    pub fn advance(&mut self, clock_ms: u64, all_read_ms: u64) -> u64
        ensures read { result ≡ self.old.served }
        ensures served { self.new ≡ served_by clock_ms all_read_ms self.old }
        // it never goes back, and grows by a step at most
        ensures step { (self.old.served ≤ self.new.served) × (self.new.served ≤ self.old.served + most_step) }
        // it gets no further ahead of what all have read than a step
        ensures together { self.new.served ≤ max self.old.served (all_read_ms + most_step) }
    {
        let read_ms = self.served_ms;
        let passed_ms = clock_ms.saturating_sub(self.clock_ms);
        let grown_ms = read_ms.saturating_add(passed_ms.min(MOST_STEP_MS));
        let most_ms = all_read_ms.saturating_add(MOST_STEP_MS);
        self.clock_ms = clock_ms;
        self.served_ms = read_ms.max(grown_ms.min(most_ms));
        read_ms
    }

    /// Returns the served time.
    pub fn served_ms(&self) -> u64
        ensures { result ≡ self.now.served }
    {
        self.served_ms
    }

    /// Returns the latest moment that this worker lets all get. The others have read up to then, unless one stalls. So
    /// each moment is given as late as every other, however long workers wait.
    // rule: Server time
    pub fn settled_ms(&self) -> u64
        ensures { result ≡ common_moment self.now }
    {
        self.served_ms.saturating_sub(MOST_REST_MS)
    }
}

/// Returns whether a worker that began its last turn at `turn_ms` makes turns, when another has begun one at `latest_ms`, by
/// the system's clock in milliseconds.
// rule: Newcomers; Sources wait
pub fn is_served(turn_ms: u64, latest_ms: u64) -> bool
    ensures { result ≡ is_served turn_ms latest_ms }
{
    latest_ms.saturating_sub(turn_ms) <= MOST_STILL_MS
}
