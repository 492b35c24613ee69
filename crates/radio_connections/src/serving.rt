//! One connection's part of a worker's turn.

pub(crate) mod answering;
pub(crate) mod drawing;
pub(crate) mod flushing;
pub(crate) mod leaving;
pub(crate) mod lingering;
pub(crate) mod listening;
pub(crate) mod moment;

ghost use Rattle.std.specs.Prelude.{◌≡◌, ◌-◌, nat_le};

/// The moment of a turn, how long a line may take nothing of what is pending, in milliseconds, and
/// whether there is news.
#[derive(Clone, Copy)]
pub struct Now {
    /// The moment.
    pub ms: u64,
    /// How long a line may take nothing.
    pub patience_ms: u64,
    /// Whether something may have come for listeners.
    pub news: bool,
}

/// After how long without an event a client is asked for, in milliseconds.
pub(crate) const ASKED_AFTER_MS: u64 = 500;

/// For how long the connection ignores what arrives after an end, in milliseconds.
pub(crate) const LINGER_MS: u64 = 1000;

impl Now {
    /// Whether this much time has passed since a moment.
    pub(crate) fn is_past(self, since_ms: u64, span_ms: u64) -> bool
        ensures { result ≡ nat_le span_ms (self.ms - since_ms) }
    {
        self.ms.saturating_sub(since_ms) >= span_ms
    }
}
