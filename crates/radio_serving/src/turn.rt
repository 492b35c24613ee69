//! What a turn begins with.

/// What a turn begins with.
#[derive(Clone, Copy, Debug, PartialEq, Eq)]
pub struct Turn {
    /// The moment, in milliseconds: all that had come by then was read in the turns before.
    pub ms: u64,
    /// Whether something may have come for listeners since the last turn that had news. If so, each
    /// that has a seat, and has nothing pending, draws. Else only those draw that are behind, or for
    /// which nothing was asked in half a second.
    pub news: bool,
    /// The latest moment that another worker is known to have given the server, in milliseconds; 0 if none
    /// is.
    pub clock_ms: u64,
}
