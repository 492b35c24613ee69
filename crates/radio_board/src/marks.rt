//! What threads mark for one another.

ghost use Rattle.std.specs.Prelude.{◌≡◌};
ghost use Rattle.radio_board.specs.Marking.{calls_acceptor};

/// What may be marked.
#[derive(Clone, Copy, Debug, PartialEq, Eq)]
pub enum Mark {
    /// All are to stop.
    Over,
    /// The acceptor has begun.
    AcceptorBegun,
    /// The acceptor waits, or is about to.
    AcceptorSleeps,
    /// A connection was closed since the acceptor looked last.
    Closed,
    /// The acceptor waits for a connection to be closed.
    ClosingWanted,
}

/// What is marked. Each mark is read for itself, so others may have changed in between.
#[derive(Clone, Copy, Debug, PartialEq, Eq)]
pub struct Marks {
    /// Whether all are to stop.
    pub is_over: bool,
    /// Whether the acceptor has begun.
    pub has_acceptor: bool,
    /// Whether the acceptor waits, or is about to.
    pub acceptor_sleeps: bool,
    /// Whether a connection was closed since the acceptor looked last.
    pub has_closed: bool,
    /// Whether the acceptor waits for a connection to be closed.
    pub wants_closing: bool,
}

impl Marks {
    /// Returns whether the acceptor has something to do: all are to stop, or it waits for a connection to be closed, and one was.
    // rule: Failed accepts
    pub(crate) fn calls_acceptor(self) -> bool
        ensures { result ≡ calls_acceptor self }
    {
        self.is_over || (self.wants_closing && self.has_closed)
    }
}
