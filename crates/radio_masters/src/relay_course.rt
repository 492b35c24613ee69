//! What is noted of a relay for the log, and what is logged of it.

ghost use Rattle.std.specs.Prelude.{◌≡◌};
ghost use Rattle.radio_masters.specs.Courses.{PullHasEnded, IsCopyOf, IsSayingOf, untried_course, logged_saying, failure_line, after_saying, sounded, up};

use crate::RelayEnd;
use crate::failing::{Failing, note_failure};
use radio_events::{Event, Reply};
use std::alloc::Global;

/// What is to be logged of an event, if the server does what it asks for.
#[derive(Drop)]
pub(crate) enum Saying {
    /// Nothing.
    Nothing,
    /// That the relay feeds its mount, with a stream of this type.
    Up(Vec<u8>),
    /// So many bytes of sound have come.
    Sound(u64),
    /// This title is on the air.
    Title(Vec<u8>),
}

impl Saying {
    /// Returns that of this event. A text for which memory is refused is logged as an empty one.
    pub(crate) fn of(alloc: Global, event: &Event) -> Saying
        ensures { IsSayingOf event.now result }
    {
        match event {
            Event::RelayUp { shown, .. } => Saying::Up(copy(alloc, shown.content_type.as_bytes())),
            Event::Push { block, .. } => Saying::Sound(block.len() as u64),
            Event::Title { text, .. } => Saying::Title(copy(alloc, text.as_slice())),
            Event::Arrive { .. }
            | Event::Source(_)
            | Event::SourceEnd { .. }
            | Event::Listen(_)
            | Event::Draw { .. }
            | Event::Command(_)
            | Event::Leave { .. }
            | Event::RelayDown { .. }
            | Event::Clock { .. } => Saying::Nothing,
        }
    }

    /// Returns what of it is logged, once the server has replied so: what it says is done.
    pub(crate) fn due(self, reply: &Reply) -> Saying
        ensures { result ≡ logged_saying reply.now self }
    {
        match self {
            Saying::Up(content_type) if matches!(reply, Reply::Arrived(_)) => {
                Saying::Up(content_type)
            }
            Saying::Sound(count) if matches!(reply, Reply::Noted) => Saying::Sound(count),
            Saying::Title(title) if matches!(reply, Reply::Noted) => Saying::Title(title),
            Saying::Up(_) | Saying::Sound(_) | Saying::Title(_) | Saying::Nothing => {
                Saying::Nothing
            }
        }
    }
}

fn copy(alloc: Global, bytes: &[u8]) -> Vec<u8>
    ensures { IsCopyOf bytes.now result.items }
{
    match Vec::from_slice(alloc, bytes) {
        Ok(copy) => copy,
        Err(_) => Vec::new(alloc),
    }
}

/// The line about how a pull has ended, if there is one.
#[derive(Clone, Copy)]
pub(crate) enum EndLine {
    /// None.
    Nothing,
    /// That the relay feeds its mount no more.
    Gone,
    /// That the relay has failed, so often.
    Failed(u64),
}

/// What is noted of a relay.
#[derive(Clone, Copy, Debug, PartialEq, Eq)]
pub(crate) struct RelayCourse {
    /// Whether it feeds its mount.
    pub(crate) is_up: bool,
    /// How many bytes of sound have come since it is up; a count that has reached 2^64 - 1 stays.
    pub(crate) sound: u64,
    /// That it has failed, since it was up last.
    pub(crate) failing: Option<Failing>,
}

impl RelayCourse {
    /// Of a relay that was not tried yet.
    pub(crate) fn begun() -> RelayCourse
        ensures { result ≡ untried_course }
    {
        RelayCourse {
            is_up: false,
            sound: 0,
            failing: None,
        }
    }

    /// Returns what is noted once this is logged.
    pub(crate) fn after(self, saying: &Saying) -> RelayCourse
        ensures { result ≡ after_saying self saying.now }
    {
        match saying {
            Saying::Up(_) => RelayCourse::up(),
            Saying::Sound(count) => self.sounded(*count),
            Saying::Title(_) | Saying::Nothing => self,
        }
    }

    /// Of a relay that feeds its mount from now on.
    fn up() -> RelayCourse
        ensures { result ≡ up }
    {
        RelayCourse {
            is_up: true,
            sound: 0,
            failing: None,
        }
    }

    fn sounded(self, count: u64) -> RelayCourse
        ensures { result ≡ sounded self count }
    {
        RelayCourse {
            sound: self.sound.saturating_add(count),
            ..self
        }
    }

    /// Returns what is noted once the pull has ended for this reason at this moment, in milliseconds, and the line
    /// about it. A relay that was up is gone, and one that was not has failed. A failure that lasts is logged once an
    /// hour.
    // rule: Failures of relays
    pub(crate) fn ended(self, why: RelayEnd, ms: u64) -> (RelayCourse, EndLine)
        ensures { PullHasEnded self why ms result.0 result.1 }
    {
        if self.is_up {
            return (
                RelayCourse {
                    is_up: false,
                    ..self
                },
                EndLine::Gone,
            );
        }
        let (failing, logged) = note_failure(self.failing, why, ms);
        let course = RelayCourse {
            failing: Some(failing),
            ..self
        };
        (course, line_of(logged))
    }
}

/// Returns the line about a failure so often, if it is logged.
fn line_of(logged: Option<u64>) -> EndLine
    ensures { result ≡ failure_line logged }
{
    match logged {
        Some(times) => EndLine::Failed(times),
        None => EndLine::Nothing,
    }
}
