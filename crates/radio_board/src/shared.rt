//! What the workers and the acceptor report to each other.

ghost use Rattle.std.specs.Prelude.{◌≡◌, ◌≤◌, ◌<◌, ℕ, IfSome, OnSome, true, length, slice_get};
ghost use Rattle.std.specs.Option.{option_copied};
ghost use Rattle.radio_board.specs.SharedViews.{shared_of};
ghost use Rattle.radio_board.specs.declared.marks.Marks.{Marks as MarksOf};
ghost use Rattle.radio_board.specs.Marking.{calls_acceptor};
ghost use Rattle.radio_board.specs.Paces.{pace_at};
ghost use Rattle.radio_board.specs.Sums.{may_linger};

use crate::choice::{Chosen, least_loaded};
use crate::marks::{Mark, Marks};
use crate::news::NewsFor;
use crate::pace::{much_from, pace_of, slow_from};
use crate::sums::{may_linger, place_on, taker_of};
use crate::worker_desk::WorkerDesk;
use crate::worker_state::Step;
use mio::Waker;
use radio_lines::{NewsCount, Pace};
use radio_outlet::LogQueue;
use std::alloc::Global;
use std::marker::Model;
use std::sync::atomic::{AtomicBool, AtomicU64, Ordering};
use std::sync::{Arc, Wait};

/// What a station's service bounds.
#[derive(Clone, Copy)]
pub struct Limits {
    /// How many connections may linger, of all workers together.
    pub most_lingering: usize,
    /// How many bytes of a stream are kept at least.
    pub queue_size: u64,
}

/// How often something has come, of which all workers know.
#[derive(Clone, Copy, Debug, PartialEq, Eq)]
pub struct NewsCounts {
    /// How many bytes have come from sources.
    pub received: u64,
    /// How often workers got news.
    pub raised: u64,
}

/// What the workers and the acceptor report to each other. It is shared by reference.
///
/// In contracts it is a `SharedOf`: its workers' desks and its bounds. What threads report to each other is in atomics,
/// which no contract names.
#[derive(Drop)]
pub struct Shared {
    alloc: Global,
    desks: Vec<WorkerDesk>,
    acceptor: Waker,
    /// Whether the acceptor has begun.
    has_acceptor: AtomicBool,
    /// Whether the acceptor waits, or is about to.
    acceptor_sleeps: AtomicBool,
    /// Up to which moment every worker has read its sockets, in milliseconds.
    moment_ms: AtomicU64,
    /// The latest moment that a worker has given the server, in milliseconds.
    server_ms: AtomicU64,
    /// How many bytes have come from sources.
    received: AtomicU64,
    /// How often workers got news.
    raised: AtomicU64,
    /// Whether all are to stop.
    is_over: AtomicBool,
    /// Whether a connection was closed.
    has_closed: AtomicBool,
    /// Whether the acceptor waits for that.
    wants_closing: AtomicBool,
    /// How many connections may linger, of all workers together.
    most_lingering: usize,
    /// How many bytes a worker's listeners have still to draw where sources are read slowly.
    slow_from: u64,
    /// How many bytes these may have still to draw, while they get no news.
    much_from: u64,
    /// Where the lines of the log go.
    log: Arc<LogQueue>,
}

impl Model for Shared {
    ghost use Rattle.radio_board.specs.SharedViews.{SharedOf};

    ghost Value = { SharedOf };

    ghost view = { λ b. record { alloc = b.alloc; desks = b.desks.items; most_lingering = b.most_lingering; slow = b.slow_from; much = b.much_from } };
}

impl Shared {
    /// Returns that of these workers, the acceptor with this waker, and the queue of the log. It takes no memory.
    pub fn new(
        alloc: Global,
        desks: Vec<WorkerDesk>,
        acceptor: Waker,
        limits: Limits,
        log: Arc<LogQueue>,
    ) -> Shared
        ensures { result ≡ shared_of alloc desks.items limits }
    {
        Shared {
            alloc,
            desks,
            acceptor,
            has_acceptor: AtomicBool::new(false),
            acceptor_sleeps: AtomicBool::new(false),
            moment_ms: AtomicU64::new(0),
            server_ms: AtomicU64::new(0),
            received: AtomicU64::new(0),
            raised: AtomicU64::new(0),
            is_over: AtomicBool::new(false),
            has_closed: AtomicBool::new(false),
            wants_closing: AtomicBool::new(false),
            most_lingering: limits.most_lingering,
            slow_from: slow_from(limits.queue_size),
            much_from: much_from(limits.queue_size),
            log,
        }
    }

    /// Returns the allocator from which all memory of the station comes.
    pub fn alloc(&self) -> Global
        ensures { result ≡ self.now.alloc }
    {
        self.alloc
    }

    /// Returns the desk of this worker. `None` if there is none of the number.
    pub fn desk(&self, number: usize) -> Option<&WorkerDesk>
        ensures { option_copied result ≡ slice_get self.now.desks number }
    {
        self.desks.get(number)
    }

    /// Returns how many workers there are.
    pub fn worker_count(&self) -> usize
        ensures { result ≡ length self.now.desks }
    {
        self.desks.len()
    }

    /// Returns up to which moment each worker that has begun has read its sockets, and no later one than `settled_ms`;
    /// or the result before, if that is later. It never goes back. With 0 it is the result before.
    pub fn moment(&self, settled_ms: u64) -> u64 {
        let mut least = settled_ms;
        for desk in &self.desks {
            least = desk.report().least_read(least);
        }
        raise(&self.moment_ms, least)
    }

    /// Returns the latest moment that a worker has given the server and noted here, in milliseconds; 0 if none has. By
    /// then the server had it.
    pub fn server_time(&self) -> u64 {
        self.server_ms.load(Ordering::SeqCst)
    }

    /// Notes that a worker has given the server this moment, in milliseconds.
    pub fn note_server_time(&self, ms: u64) {
        let _ = raise(&self.server_ms, ms);
    }

    /// Notes at `now_us`, in microseconds, that so many bytes have come from sources, and that these listeners may have news.
    /// What has come was pushed before.
    pub fn note_received(&self, count: u64, news: NewsFor, now_us: u64) {
        if count > 0 {
            self.received.fetch_add(count, Ordering::SeqCst);
        }
        if news.is_for_some() {
            self.raise_news(news, now_us);
        }
    }

    /// Gives news to the workers whose listeners may have some.
    fn raise_news(&self, news: NewsFor, now_us: u64) {
        for (number, desk) in self.desks.iter().enumerate() {
            if desk.report().gets_news(news, number) {
                desk.note_news(self.is_much(desk), now_us);
            }
        }
        // A thread that sees this count sees the news at each desk.
        self.raised.fetch_add(1, Ordering::SeqCst);
    }

    /// Returns how many bytes have come from sources, and how often workers got news.
    pub fn counts(&self) -> NewsCounts {
        NewsCounts {
            received: self.received.load(Ordering::SeqCst),
            raised: self.raised.load(Ordering::SeqCst),
        }
    }

    /// Returns how often workers got news, and up to which of these times the listeners of each have drawn. A worker
    /// that is not served holds up nobody.
    pub fn news_count(&self) -> NewsCount
        ensures { result.drawn ≤ result.raised }
    {
        let raised = self.counts().raised;
        let latest_ms = self.latest_ms();
        let mut drawn = raised;
        'desks: for desk in &self.desks {
            drawn = desk.report().drawn_with(drawn, latest_ms);
        }
        NewsCount { raised, drawn }
    }

    /// Returns whether so much has come from sources which this worker's listeners have still to draw that they get
    /// news of it at once.
    pub fn is_much(&self, desk: &WorkerDesk) -> bool
        ensures { self.now.much ≡ 0 → result ≡ true }
    {
        desk.report()
            .is_much(self.much_from, self.counts().received)
    }

    /// Returns how fast sources are read, by what the listeners of each worker have still to draw. A worker that is not served
    /// holds up nobody.
    pub fn pace(&self) -> Pace
        // by how many bytes the listeners are behind that are behind the most
        ensures { (behind : ℕ) × (result ≡ pace_at behind self.now.slow) }
    {
        let received = self.counts().received;
        let latest_ms = self.latest_ms();
        let mut most = 0u64;
        for desk in &self.desks {
            most = desk.report().most_behind(most, received, latest_ms);
        }
        pace_of(most, self.slow_from)
    }

    /// Returns when a worker began its turn last, by the system's clock in milliseconds.
    fn latest_ms(&self) -> u64 {
        let mut latest_ms = 0u64;
        for desk in &self.desks {
            latest_ms = latest_ms.max(desk.report().turn_ms);
        }
        latest_ms
    }

    /// Returns how many of this worker's connections may linger, if `count` wish to, and notes them at its desk.
    // rule: Most that linger
    pub fn most_lingering(&self, desk: &WorkerDesk, count: usize) -> usize
        ensures few { result ≤ count }
        // those of all workers that are too many are its own
        ensures all { (all : ℕ) × (result ≡ may_linger count all self.now.most_lingering) }
    {
        let _ = desk.linger(count);
        let mut all = 0usize;
        'desks: for each in &self.desks {
            all = all.saturating_add(each.report().lingering);
        }
        desk.linger(may_linger(count, all, self.most_lingering))
    }

    /// Returns the worker that takes the next connection: of those that have begun and are served the one with the fewest
    /// connections, the first of these from the number `from` on. `None` if there is none.
    // rule: Newcomers
    pub fn next_desk(&self, from: usize) -> Option<usize>
        ensures { IfSome result (λ number. number < length self.now.desks) }
    {
        let count = self.desks.len();
        let latest_ms = self.latest_ms();
        let mut best = None;
        'steps: for step in 0..count {
            let number = place_on(from, step, count);
            if let Some(load) = self.load_of(number, latest_ms) {
                best = Some(least_loaded(best, Chosen { number, load }));
            }
        }
        Some(best?.number)
    }

    /// Returns how many connections this worker has, if it takes newcomers. `None` too if there is none of the number.
    fn load_of(&self, number: usize, latest_ms: u64) -> Option<usize>
        ensures { OnSome result (number < length self.now.desks) }
    {
        self.desks.get(number)?.report().load_taken(latest_ms)
    }

    /// Moves the newcomers of each worker that is not served to others, if there are any that are.
    pub fn move_newcomers(&self) {
        let latest_ms = self.latest_ms();
        for (number, desk) in self.desks.iter().enumerate() {
            if desk.report().loses_newcomers(latest_ms) {
                self.move_from(number, desk);
            }
        }
    }

    /// Moves the newcomers of this worker, which is not served, to others.
    fn move_from(&self, number: usize, desk: &WorkerDesk) {
        for _ in 0..desk.take_newcomers(usize::MAX) {
            let taker = taker_of(self.next_desk(number), number);
            if let Some(desk) = self.desk(taker) {
                desk.send();
            }
        }
    }

    /// Returns how many connections were accepted that no worker has taken yet.
    pub fn newcomers(&self) -> usize {
        let mut all = 0usize;
        for desk in &self.desks {
            all = all.saturating_add(desk.report().newcomers);
        }
        all
    }

    /// Marks all as to stop, and ends their waits.
    pub fn stop(&self) {
        let _ = self.mark(Mark::Over, true);
        for desk in &self.desks {
            desk.take_and_wake(Step::Wake);
        }
        self.wake_acceptor();
    }

    /// Returns whether all are to stop.
    pub fn is_over(&self) -> bool {
        self.is_over.load(Ordering::SeqCst)
    }

    /// Returns what is marked.
    pub fn marks(&self) -> Marks {
        Marks {
            is_over: self.is_over(),
            has_acceptor: self.has_acceptor.load(Ordering::SeqCst),
            acceptor_sleeps: self.acceptor_sleeps.load(Ordering::SeqCst),
            has_closed: self.has_closed.load(Ordering::SeqCst),
            wants_closing: self.wants_closing.load(Ordering::SeqCst),
        }
    }

    /// Sets this mark, or takes it away. Returns whether it was set.
    pub fn mark(&self, mark: Mark, is_set: bool) -> bool {
        match mark {
            Mark::Over => self.is_over.swap(is_set, Ordering::SeqCst),
            Mark::AcceptorBegun => self.has_acceptor.swap(is_set, Ordering::SeqCst),
            Mark::AcceptorSleeps => self.acceptor_sleeps.swap(is_set, Ordering::SeqCst),
            Mark::Closed => self.has_closed.swap(is_set, Ordering::SeqCst),
            Mark::ClosingWanted => self.wants_closing.swap(is_set, Ordering::SeqCst),
        }
    }

    /// Notes that a connection was closed, and ends the acceptor's wait if it waits for that.
    pub fn note_closed(&self) {
        let _ = self.mark(Mark::Closed, true);
        if self.marks().calls_acceptor() {
            self.wake_acceptor();
        }
    }

    /// Marks the acceptor as waiting, then looks once more. Returns whether there is something to do.
    pub fn acceptor_lies_down(&self) -> bool
        ensures { (marks : MarksOf) × (result ≡ calls_acceptor marks) }
    {
        let _ = self.mark(Mark::AcceptorSleeps, true);
        self.marks().calls_acceptor()
    }

    /// Ends the acceptor's wait, if it waits.
    pub fn wake_acceptor(&self) {
        if self.mark(Mark::AcceptorSleeps, false) {
            let _ = self.acceptor.wake();
        }
    }

    /// Adds lines of the moment so many seconds after the beginning of 1970 to the log.
    pub fn add_lines<W: Wait>(&self, waits: &W, lines: &[u8], seconds: u64) {
        self.log.add(waits, lines, seconds);
    }
}

/// Raises it to this moment, unless it is later. Returns what it is then.
// rule: Server time
fn raise(latest_ms: &AtomicU64, ms: u64) -> u64
    ensures { ms ≤ result }
{
    let before_ms = latest_ms.load(Ordering::SeqCst);
    if ms <= before_ms {
        return before_ms;
    }
    latest_ms.fetch_max(ms, Ordering::SeqCst).max(ms)
}
