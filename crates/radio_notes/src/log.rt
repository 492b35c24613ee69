//! The log of a thread.

ghost use Rattle.std.specs.Prelude.{◌≤◌, length};
ghost use Rattle.radio_log.specs.Lines.{most_waiting};

use crate::Notice;
use crate::lines::Lines;
use radio_log::{Fact, Moment};
use std::alloc::Global;
use std::cell::Cell;

/// The lines that wait to be written. A line is lost if there is no room for it, or memory is refused for it. The
/// next line that is not lost says how many were: [`Lines`] decides it.
#[derive(Drop)]
pub struct Log {
    alloc: Global,
    /// The moment, in seconds since 1970.
    seconds: Cell<u64>,
    lines: Cell<Lines>,
    /// Whether clients that were only shown something of the station have lines.
    has_polls: Cell<bool>,
}

impl Log {
    /// No line waits. It takes no memory.
    pub fn new(alloc: Global) -> Log {
        Log {
            alloc,
            seconds: Cell::new(0),
            lines: Cell::new(Lines::new(alloc)),
            has_polls: Cell::new(true),
        }
    }

    /// From now on lines are of the moment so many seconds after the beginning of 1970.
    pub fn set_moment(&self, seconds: u64) {
        self.seconds.set(seconds);
    }

    /// The moment of lines, in seconds after the beginning of 1970.
    pub(crate) fn seconds(&self) -> u64 {
        self.seconds.get()
    }

    /// From now on a client has no line if it was only shown the page, a status or a listing.
    pub fn leave_out_polls(&self) {
        self.has_polls.set(false);
    }

    /// Whether such a client has a line.
    pub(crate) fn has_polls(&self) -> bool {
        self.has_polls.get()
    }

    /// The lines that wait, one behind the other: at most 65,536 bytes. None waits then.
    // rule: Log queue
    pub fn take(&self) -> Vec<u8>
        ensures { length result.items ≤ most_waiting }
    {
        let mut lines = self.lines.replace(Lines::new(self.alloc));
        let taken = lines.take(self.alloc);
        self.lines.set(lines);
        taken
    }

    /// The line of a fact waits.
    pub fn note(&self, fact: Fact<'_>) {
        let mut lines = self.lines.replace(Lines::new(self.alloc));
        lines.note(self.alloc, Moment::at(self.seconds.get()), fact);
        self.lines.set(lines);
    }

    /// The lines of a notice wait, or are lost.
    pub(crate) fn add_notice(&self, notice: Notice) {
        let mut lines = self.lines.replace(Lines::new(self.alloc));
        lines.add_notice(self.alloc, Moment::at(self.seconds.get()), notice);
        self.lines.set(lines);
    }
}
