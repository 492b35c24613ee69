//! What a worker's turn source decides, as plain values. Moments are in milliseconds.

ghost use Rattle.std.specs.Prelude.{◌≡◌, ◌&&◌, ◌||◌};
ghost use Rattle.radio_sockets.specs.Steps.{acceptor_wait, called_of, has_to_do, header_wait, lacks_descriptors, is_alone, weight_of, is_log_due, is_turn_due, news_for, next_pending_number};

use radio_board::NewsFor;

/// How long after a turn newcomers wait for the next one, so that the server gets the moment first.
const LATE_MS: u64 = 50;

/// How many connections a worker takes before a turn at most.
const MOST_AT_ONCE: usize = 64;

/// After how long a turn is made, whether there is something to do or not: as often clients are asked for who have nothing to
/// do.
const TURN_AFTER_MS: u64 = 500;

/// After how long the log gets the moment again.
const LOG_AFTER_MS: u64 = 100;

/// How many extra connections a source counts for, when the worker that has the fewest is chosen. The others wait
/// for what it has pushed, so its worker is to have less to do.
const SOURCE_WEIGHT: usize = 4;

/// For how long a worker waits for the acceptor to begin.
const MOST_ALONE_MS: u64 = 10_000;

/// How long the acceptor waits at most.
const ACCEPTOR_MS: u64 = 1000;

/// How long it waits if a connection may wait that can't be accepted yet.
const PAUSE_MS: u64 = 50;

/// How long it waits if newcomers wait for a worker that may not be served.
const NEWCOMERS_MS: u64 = 250;

/// The highest number of a connection that waits for a header.
const MOST_NUMBER: usize = 0xffff_ffff;

/// How many of those who have come are taken in before a turn.
#[derive(Clone, Copy, Debug, PartialEq, Eq)]
pub(crate) struct Called {
    /// How many.
    pub(crate) count: usize,
    /// Whether some wait, and all are put off to the next turn.
    pub(crate) puts_off: bool,
}

/// Returns how many of the `waiting` connections are taken in before a turn that begins `passed_ms` after the last one.
/// They are put off if that is long, so that the server gets the moment first, but never twice in a row.
// rule: Newcomers
pub(crate) fn called_of(waiting: usize, passed_ms: u64, were_put_off: bool) -> Called
    ensures { result ≡ called_of waiting passed_ms were_put_off }
{
    let most = waiting.min(MOST_AT_ONCE);
    let puts_off = most > 0 && passed_ms > LATE_MS && !were_put_off;
    Called {
        count: if puts_off { 0 } else { most },
        puts_off,
    }
}

/// Returns what a worker has to do in a turn, in connections: each of its sources counts as five.
// rule: Newcomers
pub(crate) fn weight_of(connections: usize, sources: usize) -> usize
    ensures { result ≡ weight_of connections sources }
{
    connections.saturating_add(sources.saturating_mul(SOURCE_WEIGHT))
}

/// Returns whether the log gets the moment, when the clock is at `clock_ms`, and it last got it at `log_set_ms`; 0 is
/// never.
pub(crate) fn is_log_due(log_set_ms: u64, clock_ms: u64) -> bool
    ensures { result ≡ is_log_due log_set_ms clock_ms }
{
    log_set_ms == 0 || clock_ms.saturating_sub(log_set_ms) >= LOG_AFTER_MS
}

/// Returns whether a turn is due at this moment, whatever there is to do, if the last one was at `turn_ms`.
pub(crate) fn is_turn_due(ms: u64, turn_ms: u64) -> bool
    ensures { result ≡ is_turn_due ms turn_ms }
{
    ms.saturating_sub(turn_ms) >= TURN_AFTER_MS
}

/// Returns for whose listeners it is news that the sources of the worker of this number have brought something: its own
/// draw in the same turn, if they may get news in it.
pub(crate) fn news_for(number: usize, may_draw: bool) -> NewsFor
    ensures { result ≡ news_for number may_draw }
{
    if may_draw {
        NewsFor::AllBut(number)
    } else {
        NewsFor::All
    }
}

/// Returns for how many milliseconds the acceptor waits at most. It does not wait if it `is_called`. It waits shorter
/// if a connection may wait that can't be accepted yet, or one waits for a worker that may not be served.
pub(crate) fn acceptor_wait(is_called: bool, may_accept: bool, newcomers: usize) -> u64
    ensures { result ≡ acceptor_wait is_called may_accept newcomers }
{
    if is_called {
        0
    } else if may_accept {
        PAUSE_MS
    } else if newcomers > 0 {
        NEWCOMERS_MS
    } else {
        ACCEPTOR_MS
    }
}

/// Returns for how many milliseconds the acceptor waits that may wait for `wait_ms`, if the first header is overdue in `header_ms`:
/// no longer than until then. If one is overdue already, it makes a pause.
pub(crate) fn header_wait(wait_ms: u64, header_ms: u64) -> u64
    ensures { result ≡ header_wait wait_ms header_ms }
{
    wait_ms.min(header_ms.max(PAUSE_MS))
}

/// Returns the number by which the system names the next connection that waits for a header. It is none of the names of the bound
/// socket and the waker.
pub(crate) fn next_number(number: usize) -> usize
    ensures { result ≡ next_pending_number number }
{
    if number < MOST_NUMBER { number + 1 } else { 0 }
}

/// Returns whether a worker that has served for so long ends the server: the acceptor has not begun, and so can't.
pub(crate) fn is_alone(served_ms: u64, has_acceptor: bool) -> bool
    ensures { result ≡ is_alone served_ms has_acceptor }
{
    served_ms > MOST_ALONE_MS && !has_acceptor
}

/// What a worker knows that waits for its next turn.
#[derive(Clone, Copy, Debug, PartialEq, Eq)]
pub(crate) struct Waited {
    /// Whether there is something to do.
    pub(crate) is_ready: bool,
    /// Whether a turn is due.
    pub(crate) is_due: bool,
    /// Whether all are to stop.
    pub(crate) is_over: bool,
}

/// Returns whether a worker ends its wait for a turn: there is something to do, a turn is due, or all are to stop.
pub(crate) fn ends_wait(waited: Waited) -> bool
    ensures { result ≡ (waited.is_ready || waited.is_due || waited.is_over) }
{
    waited.is_ready || waited.is_due || waited.is_over
}

/// Returns whether a worker has something to do, apart from what its sockets report: news that waits no more,
/// newcomers, or the end of all.
pub(crate) fn has_to_do(has_news: bool, left_us: u64, newcomers: usize, is_over: bool) -> bool
    ensures { result ≡ has_to_do has_news left_us newcomers is_over }
{
    (has_news && left_us == 0) || newcomers > 0 || is_over
}

/// By what a round of draws may begin.
#[derive(Clone, Copy, Debug, PartialEq, Eq)]
pub(crate) struct RoundCause {
    /// Whether the turn got news.
    pub(crate) has_news: bool,
    /// Whether the worker's sources have brought something.
    pub(crate) brings: bool,
    /// Whether its listeners may get that in this turn.
    pub(crate) may_draw: bool,
}

/// Returns whether a round of draws begins: the turn got news, or its sources have brought something and its listeners
/// may get that.
pub(crate) fn begins_round(cause: RoundCause) -> bool
    ensures { result ≡ (cause.has_news || (cause.brings && cause.may_draw)) }
{
    cause.has_news || (cause.brings && cause.may_draw)
}

/// Returns whether the system's fault of this number says that there is no descriptor left, for the process (24, `EMFILE`) or
/// at all (23, `ENFILE`).
// rule: Failed accepts
pub(crate) fn lacks_descriptors(code: i32) -> bool
    ensures { result ≡ lacks_descriptors code }
{
    code == 24 || code == 23
}
