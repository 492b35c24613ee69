//! When connections are accepted, and how many in a row could not be.

ghost use Rattle.std.specs.Prelude.{◌≡◌, nat_le, nat_lt};
ghost use Rattle.radio_workers.specs.Accepting.{Accepting, most_failed, after_try, closed_in};

use std::marker::Model;

/// With how many failures in a row a server ends.
const MOST_FAILED: u32 = 100;

/// For how many milliseconds nothing is tried after a failure.
const PAUSE_MS: u64 = 100;

/// What came of a try to accept a connection.
#[derive(Clone, Copy)]
pub enum AcceptTry {
    /// It was accepted.
    Accepted,
    /// It could not be.
    Failed,
    /// No descriptor is left for it.
    NoDescriptor,
}

/// When connections are accepted, and how many in a row could not be. Moments are in milliseconds.
#[derive(Drop)]
pub struct Accepts {
    failed: u32,
    not_before_ms: u64,
    is_short: bool,
}

impl Model for Accepts {
    ghost use Rattle.std.specs.Prelude.{◌≤◌};
    ghost use Rattle.radio_workers.specs.Accepting.{Accepting, most_failed};

    ghost Value = { Accepting };

    ghost view = { λ a. record { failed = a.failed; not_before = a.not_before_ms; is_short = a.is_short } };

    ghost invariant = { λ a. a.failed ≤ most_failed };
}

impl Accepts {
    ghost use Rattle.std.specs.Prelude.{false};

    /// None has failed yet.
    pub fn new() -> Accepts
        ensures { result ≡ record { failed = 0; not_before = 0; is_short = false } }
    {
        Accepts {
            failed: 0,
            not_before_ms: 0,
            is_short: false,
        }
    }

    /// Whether one is tried at this moment.
    pub fn may_try(&self, ms: u64) -> bool
        ensures { result ≡ nat_le self.now.not_before ms }
    {
        ms >= self.not_before_ms
    }

    /// Whether no descriptor was left when one was tried last.
    pub fn is_short(&self) -> bool
        ensures { result ≡ self.now.is_short }
    {
        self.is_short
    }

    /// One was tried at this moment. Whether the server goes on: it does not from the hundredth
    /// failure in a row on. Where no descriptor is left, that is no failure.
    // rule: Failed accepts
    pub fn note(&mut self, tried: AcceptTry, ms: u64) -> bool
        ensures tried { self.new ≡ after_try ms tried self.old }
        ensures goes_on { result ≡ nat_lt self.new.failed most_failed }
    {
        match tried {
            AcceptTry::Accepted => *self = Accepts::new(),
            AcceptTry::Failed => {
                self.failed = MOST_FAILED.min(self.failed.saturating_add(1));
                self.not_before_ms = ms.saturating_add(PAUSE_MS);
                self.is_short = false;
            }
            AcceptTry::NoDescriptor => {
                self.not_before_ms = ms.saturating_add(PAUSE_MS);
                self.is_short = true;
            }
        }
        self.failed < MOST_FAILED
    }

    /// Notes that a connection has closed. If no descriptor was left, there is one now.
    // rule: Failed accepts
    pub fn note_closed(&mut self)
        ensures { self.new ≡ closed_in self.old }
    {
        if self.is_short {
            self.not_before_ms = 0;
            self.is_short = false;
        }
    }
}
