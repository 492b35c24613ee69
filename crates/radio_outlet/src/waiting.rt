//! The lines that wait to be written.

ghost use Rattle.std.specs.Prelude.{◌≡◌, ◌+◌, ◌≤◌, ◌<◌, length, min, [], false, if◌then◌else◌};
ghost use Rattle.radio_log.specs.Lines.{most_waiting};
ghost use Rattle.radio_outlet.specs.Queues.{Queue, added, dropped, lines_in, most_number};

use radio_log::MOST_WAITING;
use std::alloc::Global;
use std::marker::Model;
use std::mem;

const LINE_END: u8 = b'\n';

/// The lines that wait to be written, and how many were lost since the last report of a loss. In contracts it is a `Queue`.
#[derive(Drop)]
pub struct WaitingLines {
    alloc: Global,
    lines: Vec<u8>,
    lost: u64,
    seconds: u64,
}

impl Model for WaitingLines {
    ghost use Rattle.std.specs.Prelude.{◌≤◌, length};
    ghost use Rattle.radio_log.specs.Lines.{most_waiting};
    ghost use Rattle.radio_outlet.specs.Queues.{Queue};

    ghost Value = { Queue };

    ghost view = { λ w. record { lines = w.lines.items; lost = w.lost; seconds = w.seconds } };

    ghost invariant = { λ w. length w.lines.items ≤ most_waiting };
}

impl WaitingLines {
    /// Returns an empty queue. It takes no memory.
    pub fn new(alloc: Global) -> WaitingLines
        ensures { result ≡ record { lines = []; lost = 0; seconds = 0 } }
    {
        WaitingLines {
            alloc,
            lines: Vec::new(alloc),
            lost: 0,
            seconds: 0,
        }
    }

    /// Adds lines of the moment so many seconds after the beginning of 1970 behind those that wait. Returns false if there is
    /// no room or memory for all of them: then each of them counts as lost.
    // rule: Log queue
    pub fn add(&mut self, lines: &[u8], seconds: u64) -> bool
        ensures outcome { self.new ≡ (if result then added lines.now seconds self.old else dropped lines.now seconds self.old) }
        ensures room { most_waiting < length self.old.lines + length lines.now → result ≡ false }
    {
        self.seconds = seconds;
        let room = MOST_WAITING.saturating_sub(self.lines.len());
        if lines.len() <= room && self.lines.extend_from_slice(lines).is_ok() {
            return true;
        }
        self.lose(count_lines(lines));
        false
    }

    /// Takes the lines that wait. None waits then.
    // rule: Log queue
    pub fn take(&mut self) -> Vec<u8>
        ensures lines { result.items ≡ self.old.lines }
        ensures rest { self.new ≡ record self.old { lines = [] } }
    {
        mem::replace(&mut self.lines, Vec::new(self.alloc))
    }

    /// Takes the count of lost lines, which is 0 then.
    // rule: Log queue
    pub fn take_lost(&mut self) -> u64
        ensures lost { result ≡ self.old.lost }
        ensures rest { self.new ≡ record self.old { lost = 0 } }
    {
        mem::replace(&mut self.lost, 0)
    }

    /// Counts so many lines more as lost.
    pub fn lose(&mut self, count: u64)
        ensures { self.new ≡ record self.old { lost = min most_number (self.old.lost + count) } }
    {
        self.lost = self.lost.saturating_add(count);
    }

    /// Returns true if no line waits and no loss is to be reported.
    pub fn is_empty(&self) -> bool {
        self.lines.is_empty() && self.lost == 0
    }

    /// Returns the moment of the last line that was added or lost, in seconds after the beginning of 1970.
    pub fn seconds(&self) -> u64
        ensures { result ≡ self.now.seconds }
    {
        self.seconds
    }
}

/// Returns how many lines these bytes end.
fn count_lines(bytes: &[u8]) -> u64
    ensures { result ≡ lines_in bytes.now }
{
    let end = LINE_END;
    bytes.iter().filter(|byte| **byte == end).count() as u64
}
