//! The time in which the log cannot be written.

ghost use Rattle.std.specs.Prelude.{◌≡◌, ◌-◌, not};
ghost use Rattle.radio_outlet.specs.Outages.{Trouble, failed_at, works};

use std::marker::Model;

/// For how many milliseconds nothing is tried after a failure.
const PAUSE_MS: u64 = 1000;

/// Whether the last write failed, and when the next is tried. Moments are in milliseconds. In contracts it is a `Trouble`.
#[derive(Drop)]
pub struct Outage {
    is_failing: bool,
    not_before_ms: u64,
}

impl Model for Outage {
    ghost use Rattle.radio_outlet.specs.Outages.{Trouble};

    ghost Value = { Trouble };

    ghost view = { λ o. record { is_failing = o.is_failing; not_before = o.not_before_ms } };
}

impl Outage {
    /// Returns the state before the first write.
    pub fn new() -> Outage
        ensures { result ≡ works }
    {
        Outage {
            is_failing: false,
            not_before_ms: 0,
        }
    }

    /// Notes that a write has failed at this moment. Returns true if the one before it had not.
    // rule: Log failures
    pub fn note_failed(&mut self, ms: u64) -> bool
        ensures first { result ≡ not self.old.is_failing }
        ensures pause { self.new ≡ failed_at ms }
    {
        let is_first = !self.is_failing;
        self.is_failing = true;
        self.not_before_ms = ms.saturating_add(PAUSE_MS);
        is_first
    }

    /// Notes that a write has succeeded. Returns true if the one before it had failed.
    pub fn note_written(&mut self) -> bool
        ensures recovered { result ≡ self.old.is_failing }
        ensures works { self.new ≡ works }
    {
        let was_failing = self.is_failing;
        *self = Outage::new();
        was_failing
    }

    /// Returns for how many milliseconds from this moment on nothing is tried.
    pub fn left_ms(&self, ms: u64) -> u64
        ensures { result ≡ self.now.not_before - ms }
    {
        self.not_before_ms.saturating_sub(ms)
    }
}
