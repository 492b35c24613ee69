//! What one worker reports to the others, and what they report to it.

ghost use Rattle.std.specs.Prelude.{◌≡◌, ◌≤◌, ℕ};
ghost use Rattle.radio_board.specs.Reports.{has_work_after_step, step_to_wait};
ghost use Rattle.radio_board.specs.declared.worker_state.WorkerState.{WorkerState as StateOf};

use crate::report::{Report, TurnDone};
use crate::sums::newcomers_left;
use crate::worker_state::{Step, WorkerState};
use mio::Waker;
use std::sync::atomic::{AtomicBool, AtomicU64, AtomicUsize, Ordering};

/// A moment that a worker notes.
#[derive(Clone, Copy, Debug, PartialEq, Eq)]
pub enum NotedMoment {
    /// Up to which it has read all that had come on its sockets.
    Read,
    /// When it asked its sockets last, by the system's clock.
    Turn,
}

/// What one worker reports to the others, and what they report to it. Each is an atomic, so no contract names what it
/// holds: a [`Report`] is a copy of it, from which contracts say what follows.
#[derive(Drop)]
pub struct WorkerDesk {
    waker: Waker,
    /// Whether it has begun.
    works: AtomicBool,
    /// The number of its state.
    state: AtomicU64,
    /// When the news came that waits for it, or waited last, in microseconds.
    came_us: AtomicU64,
    /// Whether it has listeners.
    has_listeners: AtomicBool,
    /// How many connections were put for it that it has not taken.
    newcomers: AtomicUsize,
    /// How many it has, a source counted as several.
    connections: AtomicUsize,
    /// How many of these linger.
    lingering: AtomicUsize,
    /// Up to which moment it has read all that had come on its sockets, in milliseconds.
    read_ms: AtomicU64,
    /// When it asked its sockets last, by the system's clock, in milliseconds.
    turn_ms: AtomicU64,
    /// Of all bytes that have come from sources, up to which its listeners have drawn.
    drawn: AtomicU64,
    /// Of all times that workers got news, up to which its listeners have drawn.
    drawn_news: AtomicU64,
}

impl WorkerDesk {
    /// Returns that of a worker which has not begun, and is woken by this.
    pub fn new(waker: Waker) -> WorkerDesk
        ensures { result.waker ≡ waker }
    {
        WorkerDesk {
            waker,
            works: AtomicBool::new(false),
            state: AtomicU64::new(WorkerState::Awake { has_news: false }.number()),
            came_us: AtomicU64::new(0),
            has_listeners: AtomicBool::new(false),
            newcomers: AtomicUsize::new(0),
            connections: AtomicUsize::new(0),
            lingering: AtomicUsize::new(0),
            read_ms: AtomicU64::new(0),
            turn_ms: AtomicU64::new(0),
            drawn: AtomicU64::new(0),
            drawn_news: AtomicU64::new(0),
        }
    }

    /// Notes that the worker begins at `clock_ms` of the system's clock, and has read all up to `ms`, in milliseconds.
    pub fn begin(&self, clock_ms: u64, ms: u64) {
        self.stamp(NotedMoment::Turn, clock_ms);
        self.stamp(NotedMoment::Read, ms);
        self.works.store(true, Ordering::SeqCst);
    }

    /// Returns what the desk reports. The state is read before what was drawn: a round that ends in between has set that first.
    pub fn report(&self) -> Report {
        let state = WorkerState::of(self.state.load(Ordering::SeqCst));
        Report {
            works: self.works.load(Ordering::SeqCst),
            came_us: self.came_us.load(Ordering::SeqCst),
            turn_ms: self.turn_ms.load(Ordering::SeqCst),
            read_ms: self.read_ms.load(Ordering::SeqCst),
            drawn_news: self.drawn_news.load(Ordering::SeqCst),
            ..self.counted(state)
        }
    }

    /// Returns a report of a worker in this state, with what the worker counts. All else in it is 0 or false.
    fn counted(&self, state: WorkerState) -> Report
        ensures { result.state ≡ state }
    {
        Report {
            works: false,
            state,
            came_us: 0,
            turn_ms: 0,
            read_ms: 0,
            drawn_news: 0,
            drawn: self.drawn.load(Ordering::SeqCst),
            has_listeners: self.has_listeners.load(Ordering::SeqCst),
            connections: self.connections.load(Ordering::SeqCst),
            newcomers: self.newcomers.load(Ordering::SeqCst),
            lingering: self.lingering.load(Ordering::SeqCst),
        }
    }

    /// Notes that what this names was at `ms`, in milliseconds.
    pub fn stamp(&self, stamp: NotedMoment, ms: u64) {
        match stamp {
            NotedMoment::Read => self.read_ms.store(ms, Ordering::SeqCst),
            NotedMoment::Turn => self.turn_ms.store(ms, Ordering::SeqCst),
        }
    }

    /// Takes a step. Returns the state before.
    pub fn take(&self, step: Step) -> WorkerState {
        let taken = self
            .state
            .fetch_update(Ordering::SeqCst, Ordering::SeqCst, |number| {
                WorkerState::changed_number(number, step)
            });
        match taken {
            Ok(number) | Err(number) => WorkerState::of(number),
        }
    }

    /// Takes a step, and ends the worker's wait if it waits no more after it.
    pub(crate) fn take_and_wake(&self, step: Step) {
        if self.take(step).is_woken_by(step) {
            // If it can't be woken, its wait ends by itself.
            let _ = self.waker.wake();
        }
    }

    /// Marks the worker as waiting, with news or only without it. Returns whether there is something to do all the same. The
    /// order matters: who puts a connection for it looks at the mark afterwards.
    pub fn lies_down(&self, is_paused: bool) -> bool
        // by the state that it had, and the newcomers that wait then
        ensures { (state : StateOf) × (newcomers : ℕ) × (result ≡ has_work_after_step (step_to_wait is_paused) state newcomers) }
    {
        let step = Step::to_wait(is_paused);
        let before = self.take(step);
        before.has_to_do(step, self.newcomers.load(Ordering::SeqCst))
    }

    /// Notes that the worker's listeners may have news since `now_us`, in microseconds, and whether much has come for them. Ends
    /// its wait if it waits for that.
    pub(crate) fn note_news(&self, is_much: bool, now_us: u64) {
        if !self.report().state.has_news() {
            self.came_us.store(now_us, Ordering::SeqCst);
        }
        self.take_and_wake(Step::of_news(is_much));
    }

    /// Notes that the round is over, if there is one. When it began workers had got news `raised` times.
    pub fn end_round(&self, raised: u64) {
        self.drawn_news.store(raised, Ordering::SeqCst);
        let _ = self.take(Step::EndRound);
    }

    /// Notes that a connection was put for the worker, and ends its wait.
    pub fn send(&self) {
        self.newcomers.fetch_add(1, Ordering::SeqCst);
        self.take_and_wake(Step::Wake);
    }

    /// Takes from the count of those that were put for the worker, `most` of them at most: it has taken them itself, or others have.
    /// Returns how many.
    // rule: Newcomers
    pub fn take_newcomers(&self, most: usize) -> usize
        ensures { result ≤ most }
    {
        let taken = self
            .newcomers
            .fetch_update(Ordering::SeqCst, Ordering::SeqCst, |newcomers| {
                newcomers_left(newcomers, most)
            });
        match taken {
            Ok(newcomers) => newcomers.min(most),
            Err(_) => 0,
        }
    }

    /// Notes how many of the worker's connections linger. Returns that.
    pub(crate) fn linger(&self, count: usize) -> usize
        ensures { result ≡ count }
    {
        if count != self.lingering.load(Ordering::SeqCst) {
            self.lingering.store(count, Ordering::SeqCst);
        }
        count
    }

    /// Notes the result of a turn of the worker. Its first listeners get news: nobody got that of what has come since
    /// the first of them drew.
    pub fn note_turn(&self, done: TurnDone) {
        let before = self.report();
        let after = before.after_turn(done);
        self.drawn.store(after.drawn, Ordering::SeqCst);
        self.connections.store(after.connections, Ordering::SeqCst);
        self.has_listeners
            .store(after.has_listeners, Ordering::SeqCst);
        if let Some(step) = before.step_to(after) {
            let _ = self.take(step);
        }
    }
}
