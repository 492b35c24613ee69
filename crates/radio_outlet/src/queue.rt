//! The queue between the threads that have lines for the log and the one that writes them.

use crate::WaitingLines;
use std::alloc::Global;
use std::sync::{Condvar, Mutex, Wait};
use std::time::{Clock, Duration};

/// What the threads share under the lock.
#[derive(Drop)]
struct QueueContents {
    waiting: WaitingLines,
    /// Whether lines were taken that are not written yet.
    is_writing: bool,
    /// Whether nothing is written any more.
    is_closed: bool,
}

impl QueueContents {
    /// Whether the thread that writes has nothing to do.
    fn is_idle(&self) -> bool {
        self.waiting.is_empty()
    }

    /// Whether something is still to be written.
    fn is_owed(&self) -> bool {
        !self.is_closed && (self.is_writing || !self.waiting.is_empty())
    }
}

/// The lines that the thread which writes has taken.
#[derive(Drop)]
pub(crate) struct Taken {
    pub(crate) lines: Vec<u8>,
    /// How many were lost behind them.
    pub(crate) lost: u64,
    /// The moment of the last one, in seconds after the beginning of 1970.
    pub(crate) seconds: u64,
}

/// The queue between the threads that have lines for the log and the one that writes them. It is shared by reference. Of
/// lines 65,536 bytes wait at most; more are lost, and a line `lost` reports how many.
#[derive(Drop)]
pub struct LogQueue {
    shared: Mutex<QueueContents>,
    has_lines: Condvar,
    is_written: Condvar,
}

impl LogQueue {
    /// Returns an empty queue. It takes no memory.
    pub(crate) fn new(alloc: Global) -> LogQueue {
        LogQueue {
            shared: Mutex::new(QueueContents {
                waiting: WaitingLines::new(alloc),
                is_writing: false,
                is_closed: false,
            }),
            has_lines: Condvar::new(),
            is_written: Condvar::new(),
        }
    }

    /// Adds lines of the moment so many seconds after the beginning of 1970. It waits for the lock alone, which nobody holds
    /// while something is written.
    pub fn add<W: Wait>(&self, waits: &W, lines: &[u8], seconds: u64) {
        {
            let mut shared = self.shared.lock(waits);
            if shared.is_closed {
                return;
            }
            shared.waiting.add(lines, seconds);
        }
        self.has_lines.notify_one();
    }

    /// Waits until all lines are written, or none is written any more, for so many milliseconds at most. Returns false if
    /// lines are left.
    pub fn wait_written<R: Wait + Clock>(&self, rt: &R, most_ms: u64) -> bool {
        let most = Duration::from_millis(most_ms);
        let shared = self.shared.lock(rt);
        let (shared, _) = self
            .is_written
            .wait_timeout_while(rt, shared, most, |shared| shared.is_owed());
        !shared.is_owed()
    }

    /// Waits until there is something to write, and takes it.
    pub(crate) fn take<W: Wait>(&self, waits: &W) -> Taken {
        let shared = self.shared.lock(waits);
        let mut shared = self
            .has_lines
            .wait_while(waits, shared, |shared| shared.is_idle());
        shared.is_writing = true;
        Taken {
            lines: shared.waiting.take(),
            lost: shared.waiting.take_lost(),
            seconds: shared.waiting.seconds(),
        }
    }

    /// Counts so many lines as lost.
    pub(crate) fn lose<W: Wait>(&self, waits: &W, count: u64) {
        if count > 0 {
            self.shared.lock(waits).waiting.lose(count);
        }
    }

    /// All lines that were taken are written.
    pub(crate) fn note_written<W: Wait>(&self, waits: &W) {
        self.shared.lock(waits).is_writing = false;
        self.is_written.notify_all();
    }

    /// Nothing is written any more: what waits is dropped, and so is what is added from now on.
    pub(crate) fn close<W: Wait>(&self, waits: &W) {
        {
            let mut shared = self.shared.lock(waits);
            shared.is_closed = true;
            drop(shared.waiting.take());
        }
        self.is_written.notify_all();
    }
}
