//! What the log says of a relay.

ghost use Rattle.std.specs.Prelude.{◌≡◌, IfOk};
ghost use Rattle.std.specs.String.{string_bytes};
ghost use Rattle.radio_masters.specs.Courses.{PullHasEnded, IsCopyOf, IsSayingOf, untried_course, logged_saying, after_saying};
ghost use Rattle.radio_masters.specs.declared.relay_course.EndLine.{EndLine};
ghost use Rattle.radio_masters.specs.RelayFacts.{failed_fact, gone_fact, master_text, mount_gone_fact, relay_word, title_fact, up_fact};

use crate::failing::Failing;
use crate::relay_course::{EndLine, RelayCourse, Saying};
use crate::{OutOfMemory, RelayEnd};
use radio_events::{Event, Reply};
use radio_log::{Fact, QuotedText, RelayFailed, RelayGone, RelayUp, TitleNote};
use radio_notes::Log;
use radio_settings_values::RelaySetting;
use radio_values::MountName;
use std::alloc::Global;

/// How a pull has ended.
#[derive(Clone, Copy)]
pub struct PullEnd {
    /// Why.
    pub why: RelayEnd,
    /// How many whole seconds after it began.
    pub seconds: u64,
    /// When, in milliseconds.
    pub ms: u64,
}

/// What the log says of a relay: its lines wait here. [`RelayCourse`] and [`Saying`] decide what is logged.
#[derive(Drop)]
pub struct RelayLog {
    alloc: Global,
    log: Log,
    mount: MountName,
    /// The master and its port.
    master: String,
    course: RelayCourse,
}

impl RelayLog {
    /// Returns that of this relay; nothing is logged yet. `OutOfMemory` if memory was refused.
    pub(crate) fn new(alloc: Global, relay: &RelaySetting) -> Result<RelayLog, OutOfMemory>
        ensures mount { IfOk result (λ log. log.mount ≡ relay.now.local_mount) }
        ensures master { IfOk result (λ log. string_bytes log.master ≡ master_text relay.now.master) }
        ensures course { IfOk result (λ log. log.course ≡ untried_course) }
    {
        let server = relay.master.server.as_str();
        let port = relay.master.port.get();
        let master = format!(in alloc; "{server}:{port}")?;
        Ok(RelayLog {
            alloc,
            log: Log::new(alloc),
            mount: relay.local_mount,
            master,
            course: RelayCourse::begun(),
        })
    }

    /// Returns the lines that wait, which are given the moment.
    pub fn lines(&self) -> &Log {
        &self.log
    }

    /// Returns what is to be logged of this event.
    pub(crate) fn saying(&self, event: &Event) -> Saying
        ensures { IsSayingOf event.now result }
    {
        Saying::of(self.alloc, event)
    }

    /// Notes what was asked for, and logs it, if this reply says that it is done.
    pub(crate) fn note(&mut self, saying: Saying, reply: &Reply)
        ensures course { self.new.course ≡ after_saying self.old.course (logged_saying reply.now saying) }
        ensures mount { self.new.mount ≡ self.old.mount }
        ensures master { self.new.master ≡ self.old.master }
    {
        let due = saying.due(reply);
        self.course = self.course.after(&due);
        let mount = self.mount.as_bytes();
        match due {
            Saying::Up(content_type) => {
                let master = self.master.as_bytes();
                self.log
                    .note(up_fact(mount, master, content_type.as_slice()));
                self.log.note(Fact::MountUp {
                    mount: QuotedText::of(mount),
                });
            }
            Saying::Title(title) => self.log.note(title_fact(mount, title.as_slice())),
            Saying::Sound(_) | Saying::Nothing => (),
        }
    }

    /// Whether the relay feeds its mount.
    pub(crate) fn is_up(&self) -> bool
        ensures { result ≡ self.now.course.is_up }
    {
        self.course.is_up
    }

    /// How the relay has failed, if it has since it was up last.
    pub(crate) fn failing(&self) -> Option<Failing>
        ensures { result ≡ self.now.course.failing }
    {
        self.course.failing
    }

    /// Notes that the relay has failed so before.
    pub(crate) fn set_failing(&mut self, failing: Option<Failing>)
        ensures { self.new.course ≡ record self.old.course { failing = failing } }
    {
        self.course.failing = failing;
    }

    /// Logs that the relay has ended so, or did not come up. A failure that lasts is logged once an
    /// hour.
    pub(crate) fn end(&mut self, end: PullEnd)
        ensures course { (line : EndLine) × PullHasEnded self.old.course end.why end.ms self.new.course line }
        ensures mount { self.new.mount ≡ self.old.mount }
        ensures master { self.new.master ≡ self.old.master }
    {
        let (course, line) = self.course.ended(end.why, end.ms);
        let sound = self.course.sound;
        self.course = course;
        let word = self.word_of(end.why);
        let (mount, master) = (self.mount.as_bytes(), self.master.as_bytes());
        match line {
            EndLine::Gone => {
                self.log
                    .note(gone_fact(mount, master, word.as_bytes(), &end, sound));
                self.log.note(mount_gone_fact(mount, &end));
            }
            EndLine::Failed(times) => {
                self.log
                    .note(failed_fact(mount, master, word.as_bytes(), times));
            }
            EndLine::Nothing => (),
        }
    }

    /// Returns the word for this end. One for which memory is refused is logged as an empty one.
    fn word_of(&self, why: RelayEnd) -> String
        ensures { IsCopyOf (relay_word why) (string_bytes result) }
    {
        match format!(in self.alloc; "{why}") {
            Ok(word) => word,
            Err(_) => String::new(self.alloc),
        }
    }
}

/// A relay feeds this mount from now on.
fn up_fact<'a>(mount: &'a [u8], master: &'a [u8], content_type: &'a [u8]) -> Fact<'a>
    ensures { result ≡ up_fact mount.now master.now content_type.now }
{
    Fact::RelayUp(RelayUp {
        mount: QuotedText::of(mount),
        master: QuotedText::of(master),
        content_type: QuotedText::of(content_type),
    })
}

/// This title is on the air at this mount.
fn title_fact<'a>(mount: &'a [u8], title: &'a [u8]) -> Fact<'a>
    ensures { result ≡ title_fact mount.now title.now }
{
    Fact::Title(TitleNote {
        mount: QuotedText::of(mount),
        title: QuotedText::of(title),
    })
}

/// A relay feeds this mount no more, of which so much sound has come.
fn gone_fact<'a>(
    mount: &'a [u8],
    master: &'a [u8],
    why: &'a [u8],
    end: &PullEnd,
    sound: u64,
) -> Fact<'a>
    ensures { result ≡ gone_fact mount.now master.now why.now end.now sound }
{
    Fact::RelayGone(RelayGone {
        mount: QuotedText::of(mount),
        master: QuotedText::of(master),
        why: QuotedText::of(why),
        seconds: end.seconds,
        bytes: sound,
    })
}

/// The mount of a relay whose pull has ended so is live no more.
fn mount_gone_fact<'a>(mount: &'a [u8], end: &PullEnd) -> Fact<'a>
    ensures { result ≡ mount_gone_fact mount.now end.now }
{
    Fact::MountGone {
        mount: QuotedText::of(mount),
        why: QuotedText::of(end.why.word_of_mount().as_bytes()),
    }
}

/// A relay of this mount has failed, so often.
fn failed_fact<'a>(mount: &'a [u8], master: &'a [u8], why: &'a [u8], times: u64) -> Fact<'a>
    ensures { result ≡ failed_fact mount.now master.now why.now times }
{
    Fact::RelayFailed(RelayFailed {
        mount: QuotedText::of(mount),
        master: QuotedText::of(master),
        why: QuotedText::of(why),
        times,
    })
}
