//! The lines that wait, and how many were lost.

ghost use Rattle.std.specs.Prelude.{◌≡◌, ◌+◌, ◌++◌, [], true, false, IfOk, if◌then◌else◌};
ghost use Rattle.radio_notes.specs.Lines.{IsAdded, IsNoted, IsPushed, line_at, report_of};
ghost use Rattle.radio_notes.specs.Notices.{IsNoticeAdded};
ghost use Rattle.radio_notes.specs.Counts.{capped};

use crate::{Notice, OutOfMemory};
use radio_log::{Fact, MOST_WAITING, Moment, Note, line};
use std::alloc::Global;
use std::marker::Model;
use std::mem;

/// The lines that wait, one behind the other, and how many were lost since a loss was last
/// reported.
///
/// In contracts they are a `Waiting`.
#[derive(Drop)]
pub struct Lines {
    waiting: Vec<u8>,
    lost: u64,
}

impl Model for Lines {
    ghost use Rattle.std.specs.Prelude.{◌≤◌, length};
    ghost use Rattle.radio_log.specs.Lines.{most_waiting};
    ghost use Rattle.radio_notes.specs.Waiting.{Waiting};

    ghost Value = { Waiting };

    ghost view = { λ l. record { lines = l.waiting.items; lost = l.lost } };

    ghost invariant = { λ l. length l.waiting.items ≤ most_waiting };
}

impl Lines {
    /// No line waits, and none was lost. It takes no memory.
    pub(crate) fn new(alloc: Global) -> Lines
        ensures { result ≡ record { lines = []; lost = 0 } }
    {
        Lines {
            waiting: Vec::new(alloc),
            lost: 0,
        }
    }

    /// Takes the lines that wait. The number of lost lines stays, for the next line reports it.
    pub(crate) fn take(&mut self, alloc: Global) -> Vec<u8>
        ensures lines { result.items ≡ self.old.lines }
        ensures rest { self.new ≡ record self.old { lines = [] } }
    {
        mem::replace(&mut self.waiting, Vec::new(alloc))
    }

    /// Adds the line of a fact at this moment. It is lost if there is no room or no memory for it.
    // rule: Log queue
    pub(crate) fn note(&mut self, alloc: Global, moment: Moment, fact: Fact<'_>)
        ensures { IsNoted moment fact.entry self.old self.new }
    {
        match line_at(alloc, moment, fact) {
            Ok(line) => self.push(alloc, moment, line.as_slice(), 1),
            Err(_) => self.lose(1),
        }
    }

    /// Adds the lines of a notice at this moment, or counts as lost those for which memory was refused.
    // rule: Log queue
    pub(crate) fn add_notice(&mut self, alloc: Global, moment: Moment, notice: Notice)
        ensures { IsNoticeAdded moment notice self.old self.new }
    {
        match notice {
            Notice::Lines { lines, count } => self.push(alloc, moment, lines.as_slice(), count),
            Notice::Lost(count) => self.lose(count),
            Notice::Nothing | Notice::Block(_) => (),
        }
    }

    /// Adds these lines, so many of them, at this moment: behind those that wait, and behind one that says how many
    /// were lost, if some were. They are lost if there is no room or no memory for them.
    fn push(&mut self, alloc: Global, moment: Moment, lines: &[u8], count: u64)
        ensures { IsAdded moment lines.now count self.old self.new }
    {
        match report(alloc, moment, self.lost) {
            Ok(report) => self.push_both(report, lines, count),
            Err(_) => self.lose(count),
        }
    }

    /// Adds a report of what was lost, and these lines behind it; or they are lost.
    fn push_both(&mut self, report: Vec<u8>, lines: &[u8], count: u64)
        ensures { IsPushed report.items lines.now count self.old self.new }
    {
        let mut both = report;
        if both.extend_from_slice(lines).is_ok() && self.extend(both.as_slice()) {
            self.lost = 0;
        } else {
            self.lose(count);
        }
    }

    /// Adds these bytes. Returns false, and adds nothing, if there is no room or no memory for them.
    fn extend(&mut self, bytes: &[u8]) -> bool
        ensures { self.new ≡ (if result then record self.old { lines = self.old.lines ++ bytes.now } else self.old) }
    {
        if bytes.len() > MOST_WAITING.saturating_sub(self.waiting.len()) {
            return false;
        }
        self.waiting.extend_from_slice(bytes).is_ok()
    }

    /// Counts so many lines more as lost.
    fn lose(&mut self, count: u64)
        ensures { self.new ≡ record self.old { lost = capped (self.old.lost + count) } }
    {
        self.lost = self.lost.saturating_add(count);
    }
}

/// Returns the line that says how many lines were lost; no byte if none was.
fn report(alloc: Global, moment: Moment, lost: u64) -> Result<Vec<u8>, OutOfMemory>
    ensures { IfOk result (λ bytes. bytes.items ≡ report_of moment lost) }
{
    if lost == 0 {
        return Ok(Vec::new(alloc));
    }
    line_at(alloc, moment, Fact::Lost { lines: lost })
}

/// The line of a fact at a moment.
pub(crate) fn line_at(alloc: Global, moment: Moment, fact: Fact<'_>) -> Result<Vec<u8>, OutOfMemory>
    ensures { IfOk result (λ bytes. bytes.items ≡ line_at moment fact.entry) }
{
    line(alloc, &Note { moment, fact })
}
