//! The thread that writes the log.

use crate::queue::{LogQueue, Taken};
use crate::{Batch, Failure, OutOfMemory, Outage, failure_of};
use radio_log::{Fact, Moment, Note, line};
use std::alloc::Global;
use std::io::Write;
use std::sync::Wait;
use std::time::{Clock, Duration};
use std::{io, thread};

/// For how long nothing is tried if the stream takes nothing at this moment, or memory is refused, in milliseconds.
const SHORT_PAUSE_MS: u64 = 50;

/// What writes the log, and how far it is.
#[derive(Drop)]
pub(crate) struct LogWriter<O: Write + Drop, E: Write + Drop> {
    alloc: Global,
    stream: O,
    /// Where the first failure and the recovery are reported.
    warnings: E,
    batch: Batch,
    outage: Outage,
}

impl<O: Write + Drop, E: Write + Drop> LogWriter<O, E> {
    /// Returns one that has written nothing yet. It takes no memory.
    pub(crate) fn new(alloc: Global, stream: O, warnings: E) -> LogWriter<O, E> {
        LogWriter {
            alloc,
            stream,
            warnings,
            batch: Batch::new(alloc),
            outage: Outage::new(),
        }
    }

    /// Writes the lines of the queue as they come, until nothing can be written any more.
    pub(crate) fn work<R: Clock + Wait>(&mut self, rt: &R, queue: &LogQueue) {
        for _ in rt.forever() {
            let taken = queue.take(rt);
            let lines = self.lines_of(rt, queue, taken);
            self.batch.set_lines(lines);
            if self.write_batch(rt, queue).is_none() {
                queue.close(rt);
                return;
            }
            queue.note_written(rt);
        }
    }

    /// Returns the lines that were taken, and behind them one that reports those that were lost. If memory is refused for
    /// that, they are counted as lost again.
    fn lines_of<R: Clock + Wait>(&self, rt: &R, queue: &LogQueue, taken: Taken) -> Vec<u8> {
        let Taken {
            mut lines,
            lost,
            seconds,
        } = taken;
        if lost > 0 && self.report_lost(&mut lines, lost, seconds).is_err() {
            queue.lose(rt, lost);
            pause(rt, SHORT_PAUSE_MS);
        }
        lines
    }

    /// Adds the line that reports so many lost lines.
    fn report_lost(&self, lines: &mut Vec<u8>, lost: u64, seconds: u64) -> Result<(), OutOfMemory> {
        let note = Note {
            moment: Moment::at(seconds),
            fact: Fact::Lost { lines: lost },
        };
        let report = line(self.alloc, &note)?;
        lines.extend_from_slice(report.as_slice())
    }

    /// Writes the batch to its end. `None` if nothing can be written any more.
    fn write_batch<R: Clock + Wait>(&mut self, rt: &R, queue: &LogQueue) -> Option<()> {
        for _ in rt.forever() {
            if self.batch.next_bytes().is_empty() {
                return Some(());
            }
            pause(rt, self.outage.left_ms(moment(rt)));
            self.write_some(rt, queue)?;
        }
        None
    }

    /// Writes once. `None` if nothing can be written any more.
    fn write_some<R: Clock + Wait>(&mut self, rt: &R, queue: &LogQueue) -> Option<()> {
        match self.stream.write(self.batch.next_bytes()) {
            Ok(0) => self.note_failed(rt, queue, &io::Error::from(io::ErrorKind::WriteZero)),
            Ok(count) => self.note_written(count),
            Err(error) => match failure_of(code_of(&error)) {
                Failure::Later => pause(rt, SHORT_PAUSE_MS),
                Failure::Failed => self.note_failed(rt, queue, &error),
                Failure::Closed => return None,
            },
        }
        Some(())
    }

    /// Notes that so many bytes were written.
    fn note_written(&mut self, count: usize) {
        let most = self.batch.next_bytes().len();
        self.batch.note_written(count.min(most));
        if self.outage.note_written() {
            let _ = self
                .warnings
                .write_all(b"radiod: warning the log is written again\n");
        }
    }

    /// Notes that a write has failed, by this error.
    fn note_failed<R: Clock + Wait>(&mut self, rt: &R, queue: &LogQueue, error: &io::Error) {
        queue.lose(rt, self.batch.note_failed());
        if self.outage.note_failed(moment(rt)) {
            // An operator should see it where the log cannot be.
            let _ = write!(
                self.warnings,
                "radiod: warning the log cannot be written: {error}\n"
            );
        }
    }
}

/// Returns the system's code of an error.
fn code_of(error: &io::Error) -> Option<u32> {
    match u32::try_from(error.raw_os_error()?) {
        Ok(code) => Some(code),
        Err(_) => None,
    }
}

/// Returns the moment of the clock, in milliseconds; 0 if it has none.
fn moment<C: Clock>(clock: &C) -> u64 {
    match clock.monotonic() {
        Ok(since) => u64::try_from(since.as_millis()).unwrap_or(u64::MAX),
        Err(_) => 0,
    }
}

/// Waits for so many milliseconds.
fn pause<C: Clock>(clock: &C, ms: u64) {
    if ms > 0 {
        // A clock that cannot be read ends the wait early; the next write then waits again.
        let _ = thread::sleep(clock, Duration::from_millis(ms));
    }
}
