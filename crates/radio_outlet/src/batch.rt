//! The lines that are being written.

ghost use Rattle.std.specs.Prelude.{◌≡◌, ◌≤◌, length, drop, position, []};
ghost use Rattle.radio_outlet.specs.Batches.{InHand, next_bytes, with_written, cut_off, lost_by_cut, place_behind, behind_line, is_line_end};
ghost use Rattle.radio_outlet.specs.declared.batch.LinePlace.TheVariants.{LineStart};

use std::alloc::Global;
use std::marker::Model;

const LINE_END: u8 = b'\n';

/// Where the last byte that was written is.
#[derive(Clone, Copy, PartialEq, Eq)]
pub enum LinePlace {
    /// At the end of a line, or nothing was written yet.
    LineStart,
    /// Within a line that goes on.
    WithinLine,
    /// Within a line whose rest was lost: a line end is written before anything else.
    TornLine,
}

/// The lines that are being written. In contracts it is an `InHand`.
#[derive(Drop)]
pub struct Batch {
    lines: Vec<u8>,
    start: usize,
    place: LinePlace,
}

impl Model for Batch {
    ghost use Rattle.std.specs.Prelude.{drop, ◌≤◌, length};
    ghost use Rattle.radio_outlet.specs.Batches.{InHand};

    ghost Value = { InHand };

    ghost view = { λ b. record { place = b.place; rest = drop b.start b.lines.items } };

    ghost invariant = { λ b. b.start ≤ length b.lines.items };
}

impl Batch {
    /// Returns a batch of no lines. It takes no memory.
    pub fn new(alloc: Global) -> Batch
        ensures { result ≡ record { place = LineStart; rest = [] } }
    {
        Batch {
            lines: Vec::new(alloc),
            start: 0,
            place: LinePlace::LineStart,
        }
    }

    /// Replaces the lines that are left by these.
    pub fn set_lines(&mut self, lines: Vec<u8>)
        ensures { self.new ≡ record self.old { rest = lines.items } }
    {
        self.lines = lines;
        self.start = 0;
    }

    /// Returns the bytes that are to be written next: the end of a torn line, or else the lines that are left.
    pub fn next_bytes(&self) -> &[u8]
        ensures { result.now ≡ next_bytes self.now }
    {
        match self.place {
            LinePlace::TornLine => &b"\n"[..],
            LinePlace::LineStart | LinePlace::WithinLine => &self.lines[self.start..],
        }
    }

    /// Notes that so many of the next bytes were written.
    pub fn note_written(&mut self, count: usize)
        requires { count ≤ length (next_bytes self.old) }
        ensures { self.new ≡ with_written count self.old }
    {
        if count == 0 {
            return;
        }
        match self.place {
            LinePlace::TornLine => self.place = LinePlace::LineStart,
            LinePlace::LineStart | LinePlace::WithinLine => {
                let rest = &self.lines[self.start..];
                self.place = place_behind(rest[count - 1]);
                self.start += count;
            }
        }
    }

    /// Notes that a write has failed. The rest of a line that was begun is lost. Returns how many lines are lost by that.
    // rule: Log failures
    pub fn note_failed(&mut self) -> u64
        ensures batch { self.new ≡ cut_off self.old }
        ensures lost { result ≡ lost_by_cut self.old.place }
    {
        match self.place {
            LinePlace::LineStart | LinePlace::TornLine => 0,
            LinePlace::WithinLine => {
                self.start += behind_line(&self.lines[self.start..]);
                self.place = LinePlace::TornLine;
                1
            }
        }
    }
}

/// Returns the place behind this byte.
fn place_behind(byte: u8) -> LinePlace
    ensures { result ≡ place_behind byte }
{
    if byte == LINE_END {
        LinePlace::LineStart
    } else {
        LinePlace::WithinLine
    }
}

/// Returns where the next line begins in the rest of one; the end where none does.
fn behind_line(rest: &[u8]) -> usize
    ensures below { result ≤ length rest.now }
    ensures line { drop result rest.now ≡ behind_line rest.now }
{
    match line_end(rest) {
        Some(at) => at + 1,
        None => rest.len(),
    }
}

/// Returns the place of the first line end.
fn line_end(bytes: &[u8]) -> Option<usize>
    ensures { result ≡ position is_line_end bytes.now }
{
    bytes.iter().position(|byte| *byte == LINE_END)
}
