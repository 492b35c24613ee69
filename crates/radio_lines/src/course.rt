//! What a line gives and takes in a turn, as plain values. Moments are in milliseconds.

ghost use Rattle.std.specs.Prelude.{◌≡◌, ℕ, true};
ghost use Rattle.radio_connections.specs.declared.line.Received.TheVariants.{Bytes, Closed};
ghost use Rattle.radio_lines.specs.declared.ready.Ready.{Ready};
ghost use Rattle.radio_lines.specs.Courses.{course_after_bytes, after_closing, fresh_course, call_of, closing_found, holds_closing, passes_closing, line_reading, source_bytes, writing_of};

use crate::activity::{LineTurn, Need};
use crate::closing::{FoundClosing, answers_closing};
use crate::pace::is_source;
use crate::ready::Ready;
use radio_connections::{Received, Sent};

/// What a line has given.
#[derive(Clone, Copy, Debug, PartialEq, Eq)]
pub(crate) struct Course {
    /// When it last gave something.
    pub(crate) gave_ms: u64,
    /// How many bytes it gave.
    pub(crate) gave: u64,
    /// That the peer has closed, once it was found.
    pub(crate) closing: Option<FoundClosing>,
}

/// Whether a socket is asked for bytes.
#[derive(Clone, Copy, Debug, PartialEq, Eq)]
pub(crate) enum ReadCall {
    /// It is asked.
    Made,
    /// It is not, since it is not worth a read.
    Skipped,
    /// It is not, so that listeners can follow.
    Held,
}

/// What a line answers to a read, and what becomes of it.
#[derive(Clone, Copy, Debug, PartialEq, Eq)]
pub(crate) struct Reading {
    /// What it answers.
    pub(crate) received: Received,
    /// What it needs in the next turn.
    pub(crate) need: Need,
    /// How many bytes came that count as those of a source.
    pub(crate) sourced: usize,
    /// What it has given by then.
    pub(crate) course: Course,
    /// What its socket is ready for by then.
    pub(crate) ready: Ready,
}

/// What becomes of a line that was written to.
#[derive(Clone, Copy, Debug, PartialEq, Eq)]
pub(crate) struct Writing {
    /// What it needs in the next turn.
    pub(crate) need: Need,
    /// What its socket is ready for by then.
    pub(crate) ready: Ready,
}

impl Course {
    /// Returns the course of a line that has given nothing.
    pub(crate) fn begun() -> Course
        ensures { result ≡ fresh_course }
    {
        Course {
            gave_ms: 0,
            gave: 0,
            closing: None,
        }
    }

    /// Returns whether a socket that is so ready is asked for bytes in this turn.
    // rule: Unwanted bytes
    pub(crate) fn call(self, ready: Ready, turn: LineTurn) -> ReadCall
        ensures { result ≡ call_of ready turn self }
    {
        if !ready.may_read(turn.ms) {
            return ReadCall::Skipped;
        }
        if is_source(self.gave, ready.is_passed_over) && turn.pace.holds(self.gave_ms, turn.ms) {
            return ReadCall::Held;
        }
        ReadCall::Made
    }

    /// Returns the course once so many bytes have come at `ms`.
    fn after_bytes(self, count: usize, ms: u64) -> Course
        ensures { result ≡ course_after_bytes count ms self }
    {
        Course {
            gave_ms: ms,
            gave: self.gave.saturating_add(count as u64),
            ..self
        }
    }

    /// Returns how many of so many bytes that have come last count as those of a source.
    fn source_bytes(self, ready: Ready, count: usize) -> usize
        ensures { result ≡ source_bytes ready count self }
    {
        if is_source(self.gave, ready.is_passed_over) {
            count
        } else {
            0
        }
    }

    /// Returns whether it is answered at once that the peer has closed: nothing was wanted of what came.
    fn passes_closing(self, ready: Ready) -> bool
        ensures { result ≡ passes_closing ready self }
    {
        self.gave == 0 || ready.is_passed_over
    }

    /// Returns the closing that was found, in this turn if none was before.
    fn closing_found(self, turn: LineTurn) -> FoundClosing
        ensures { result ≡ closing_found turn self }
    {
        match self.closing {
            Some(closing) => closing,
            None => FoundClosing {
                ms: turn.ms,
                raised: turn.news.raised,
            },
        }
    }

    /// Returns the course once it was found in this turn that the peer has closed.
    fn after_closing(self, ready: Ready, turn: LineTurn) -> Course
        ensures { result ≡ after_closing ready turn self }
    {
        if self.passes_closing(ready) {
            return self;
        }
        Course {
            closing: Some(self.closing_found(turn)),
            ..self
        }
    }

    /// Returns whether it is not answered yet in this turn that the peer has closed.
    fn holds_closing(self, ready: Ready, turn: LineTurn) -> bool
        ensures { result ≡ holds_closing ready turn self }
    {
        let found = self.closing_found(turn);
        !self.passes_closing(ready) && !answers_closing(found, turn.news.drawn, turn.ms)
    }

    /// Returns what the line answers in this turn whose socket was asked, has answered so, and is so ready since. The buffer
    /// has so much room, in bytes.
    // rule: Closing of a source
    pub(crate) fn reading(
        self,
        received: Received,
        room: usize,
        ready: Ready,
        turn: LineTurn,
    ) -> Reading
        ensures { result ≡ line_reading received room ready turn self }
    {
        match received {
            Received::Bytes(count) => self.bytes_read(count, room, ready, turn),
            Received::Closed => self.closing_read(ready, turn),
            Received::Nothing | Received::Fault => Reading {
                received,
                need: Need::Nothing,
                sourced: 0,
                course: self,
                ready,
            },
        }
    }

    /// Returns what the line answers if so many bytes have come.
    fn bytes_read(self, count: usize, room: usize, ready: Ready, turn: LineTurn) -> Reading
        ensures { result ≡ line_reading (Bytes count) room ready turn self }
    {
        let course = self.after_bytes(count, turn.ms);
        let after = ready.after_read(count == room, turn.ms);
        Reading {
            received: Received::Bytes(count),
            need: Need::more_if(after.has_more()),
            sourced: course.source_bytes(ready, count),
            course,
            ready: after,
        }
    }

    /// Returns what the line answers if its peer has closed.
    fn closing_read(self, ready: Ready, turn: LineTurn) -> Reading
        ensures { result ≡ line_reading Closed 0 ready turn self }
    {
        let is_held = self.holds_closing(ready, turn);
        Reading {
            received: if is_held {
                Received::Nothing
            } else {
                Received::Closed
            },
            need: if is_held { Need::Held } else { Need::Nothing },
            sourced: 0,
            course: self.after_closing(ready, turn),
            ready,
        }
    }
}

/// Returns what becomes of a line whose socket was asked to take so many bytes at `ms`, has answered so, and is so ready since.
pub(crate) fn writing_of(sent: Sent, count: usize, ready: Ready, ms: u64) -> Writing
    ensures { result ≡ writing_of sent count ready ms }
{
    match sent {
        Sent::Took(taken) => Writing {
            need: Need::more_if(!ready.is_passed_over),
            ready: if taken < count {
                ready.without_room(ms)
            } else {
                ready
            },
        },
        Sent::Nothing | Sent::Fault => Writing {
            need: Need::Nothing,
            ready,
        },
    }
}

/// Returns whether a socket that was asked to take so many bytes took all of them. If it did, it stays as ready as it was.
pub(crate) fn took_all(sent: Sent, count: usize) -> bool
    ensures { (ready : Ready) (ms : ℕ) → result ≡ true → (writing_of sent count ready ms).ready ≡ ready }
{
    match sent {
        Sent::Took(taken) => taken >= count,
        Sent::Nothing | Sent::Fault => false,
    }
}
