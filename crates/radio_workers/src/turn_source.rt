//! The source of a worker's turns and lines.

ghost use Rattle.std.specs.Prelude.{◌≡◌, ◌≤◌, true, [], IfSome};

use radio_addr::Peer;
use radio_notes::Log;
use radio_serving::{Line, Turn};

/// What a worker gets before a turn.
#[derive(Clone, Copy)]
pub struct TurnStart {
    /// What the turn begins with.
    pub turn: Turn,
    /// How many of the connections that wait it takes before it, at most.
    pub newcomers: usize,
}

/// What a worker reports after a turn.
#[derive(Clone, Copy)]
pub struct Seen {
    /// Whether this turn may have brought news to listeners of any worker, in addition to what sources have
    /// brought.
    pub news: bool,
    /// Whether a listener has drawn all that it had room for, so that there may be more for it.
    pub more: bool,
    /// How many connections the worker has.
    pub connections: usize,
    /// How many of them feed a mount.
    pub sources: usize,
    /// Whether one of them is a listener's.
    pub has_listeners: bool,
    /// Whether fewer are left than there were before the turn.
    pub has_closed: bool,
    /// The moment that the worker gave the server last, in milliseconds; 0 if it never did.
    pub clock_ms: u64,
}

/// Decides when a worker's turns begin, and opens its lines: each connection waits as a `T`, and becomes an `L`.
pub trait TurnSource<T, L: Line>: Drop {
    /// Waits until there is something to do. Returns what the next turn begins with; `None` if the worker is to stop. It gives the log
    /// the moment.
    fn next(&mut self, log: &Log) -> Option<TurnStart>;

    /// Returns the line of a connection that was taken, and its peer. Nothing was read from the line yet, and it took nothing.
    /// `None` if the connection can't be served: it is closed then.
    fn open(&mut self, newcomer: T) -> Option<(L, Peer)>
        ensures fresh { IfSome result (λ opened. (L.given opened.0 ≡ []) × (L.taken opened.0 ≡ [])) };

    /// Returns how many connections may linger, if `lingering` wish to. Of more the worker closes the oldest.
    fn most_lingering(&mut self, lingering: usize) -> usize
        ensures { result ≤ lingering };

    /// Notes that the connections of sources were served in this turn. If it `brings` news, that is news to listeners, whichever
    /// worker serves them. Returns whether a round of draws begins, in which its own draw what there is: it does if the turn
    /// `has_news`.
    fn begins_round(&mut self, has_news: bool, brings: bool) -> bool
        ensures { has_news ≡ true → result ≡ true };

    /// Notes that a turn is over, and what was seen. It takes the lines of the log that wait.
    fn note(&mut self, seen: Seen, log: &Log);
}
