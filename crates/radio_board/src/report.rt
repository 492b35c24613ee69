//! What the desk of a worker reports, and what follows from it.

ghost use Rattle.std.specs.Prelude.{◌≡◌};
ghost use Rattle.radio_board.specs.Reports.{report_after_turn, drawn_with, holds_up, is_much, gets_news, least_read, load_taken, loses_newcomers, most_behind, news_came, step_between};

use crate::news::NewsFor;
use crate::served::is_served;
use crate::sums::{drawn_after, first_come, least_of, left_to_draw, load_of, most_of};
use crate::worker_state::{Step, WorkerState};

/// What the desk of a worker reports. Each number is read for itself, so others may have changed in between.
#[derive(Clone, Copy)]
pub struct Report {
    /// Whether it has begun.
    pub works: bool,
    /// Its state.
    pub state: WorkerState,
    /// When the news came that waits for it, or waited last, in microseconds.
    pub came_us: u64,
    /// When it asked its sockets last, by the system's clock in milliseconds.
    pub turn_ms: u64,
    /// Up to which moment it has read all that had come on its sockets, in milliseconds.
    pub read_ms: u64,
    /// Of all times that workers got news, up to which its listeners have drawn.
    pub drawn_news: u64,
    /// Of all bytes that have come from sources, up to which its listeners have drawn.
    pub drawn: u64,
    /// Whether it has listeners.
    pub has_listeners: bool,
    /// How many connections it has, a source counted as several.
    pub connections: usize,
    /// How many connections were put for it that it has not taken.
    pub newcomers: usize,
    /// How many of its connections linger.
    pub lingering: usize,
}

/// The result of a worker's turn.
#[derive(Clone, Copy)]
pub struct TurnDone {
    /// How many bytes had come from sources when its last round of draws began.
    pub received: u64,
    /// Whether one of its listeners has more to draw of these, and each has drawn as much as a draw brings.
    pub has_more: bool,
    /// How many connections it has, a source counted as several.
    pub connections: usize,
    /// Whether one of them is a listener's.
    pub has_listeners: bool,
}

impl Report {
    /// Returns whether the worker holds up the end of a source: its listeners have not drawn all news, and it is served. A worker
    /// has begun its last turn at `latest_ms`.
    fn holds_up(&self, latest_ms: u64) -> bool
        ensures { result ≡ holds_up latest_ms self.now }
    {
        !self.state.has_drawn() && is_served(self.turn_ms, latest_ms)
    }

    /// Returns up to which of `drawn` times that workers got news this worker's listeners have drawn too.
    // rule: Closing of a source
    pub(crate) fn drawn_with(&self, drawn: u64, latest_ms: u64) -> u64
        ensures { result ≡ drawn_with drawn latest_ms self.now }
    {
        least_of(drawn, self.holds_up(latest_ms), self.drawn_news)
    }

    /// Returns how many of the `received` bytes that came from sources this worker's listeners have still to draw, if these are
    /// more than `most`, and it is served; else `most`.
    pub(crate) fn most_behind(&self, most: u64, received: u64, latest_ms: u64) -> u64
        ensures { result ≡ most_behind most received latest_ms self.now }
    {
        let behind = left_to_draw(received, self.drawn, self.has_listeners);
        most_of(most, is_served(self.turn_ms, latest_ms), behind)
    }

    /// Returns the smaller of `least` and the moment up to which the worker has read its sockets, if it has begun.
    // rule: Server time
    pub(crate) fn least_read(&self, least: u64) -> u64
        ensures { result ≡ least_read least self.now }
    {
        least_of(least, self.works, self.read_ms)
    }

    /// Returns how many connections the worker has, if it takes newcomers: it has begun, and is served.
    pub(crate) fn load_taken(&self, latest_ms: u64) -> Option<usize>
        ensures { result ≡ load_taken latest_ms self.now }
    {
        if self.works && is_served(self.turn_ms, latest_ms) {
            Some(load_of(self.connections, self.newcomers))
        } else {
            None
        }
    }

    /// Returns whether the worker's newcomers go to others: there are some, and it is not served.
    pub(crate) fn loses_newcomers(&self, latest_ms: u64) -> bool
        ensures { result ≡ loses_newcomers latest_ms self.now }
    {
        self.newcomers > 0 && !is_served(self.turn_ms, latest_ms)
    }

    /// Returns whether the worker's listeners have to draw `much` or more still of the `received` bytes that came from sources.
    pub(crate) fn is_much(&self, much: u64, received: u64) -> bool
        ensures { result ≡ is_much much received self.now }
    {
        left_to_draw(received, self.drawn, self.has_listeners) >= much
    }

    /// Returns whether the worker of this number gets news: its listeners may have some, and it has listeners.
    pub(crate) fn gets_news(&self, news: NewsFor, number: usize) -> bool
        ensures { result ≡ gets_news news number self.now }
    {
        news.is_for(number) && self.has_listeners
    }

    /// Returns when the news came that waits for the worker, in microseconds; `now_us` if none waits.
    pub fn news_came_us(&self, now_us: u64) -> u64
        ensures { result ≡ news_came now_us self.now }
    {
        if self.state.has_news() {
            self.came_us
        } else {
            now_us
        }
    }

    /// Returns what is reported once a turn had this result.
    pub(crate) fn after_turn(self, done: TurnDone) -> Report
        ensures { result ≡ report_after_turn done self }
    {
        Report {
            drawn: drawn_after(self.drawn, done.received, done.has_more),
            connections: done.connections,
            has_listeners: done.has_listeners,
            ..self
        }
    }

    /// Returns the step that the worker takes if this is reported next: its first listeners get news.
    pub(crate) fn step_to(self, next: Report) -> Option<Step>
        ensures { result ≡ step_between self next }
    {
        if first_come(self.has_listeners, next.has_listeners) {
            Some(Step::News)
        } else {
            None
        }
    }
}
