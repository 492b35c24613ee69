//! What has happened on a connection, as far as the log says it.

ghost use Rattle.std.specs.Prelude.{◌≡◌, ◌≢◌, ◌⊎◌, []};
ghost use Rattle.radio_log.specs.declared.facts.Fact.TheVariants.{MountGone};
ghost use Rattle.radio_notes.specs.Ends.{code_of_end, mount_word};
ghost use Rattle.radio_notes.specs.Requests.{request_kept};
ghost use Rattle.radio_notes.specs.declared.visit.Happening.TheVariants.{Handed};
ghost use Rattle.radio_notes.specs.Visits.{visit_after, new_visit, client_ended, first_of, first_end, reply_shows_station, mount_of_visit, part_given, replied, seconds_between, source_gone, status_of_note};

use crate::ReplyNote;
use crate::ends::{End, code_of, end_word, mount_word};
use crate::request_so_far::RequestSoFar;
use radio_addr::Peer;
use radio_log::{ClientEnded, Fact, QuotedText, SourceGone};
use radio_values::MountName;
use std::alloc::Global;

/// What a client does.
#[derive(Clone, Copy, PartialEq, Eq)]
pub enum Part {
    /// It neither listens to a mount nor feeds one, or not yet.
    Neither,
    /// It listens to a mount.
    Listener,
    /// It feeds a mount.
    Source,
}

/// One thing that happens on a connection.
#[derive(Clone, Copy)]
pub enum Happening {
    /// The server has replied to an event, and this is noted of it.
    Replied(ReplyNote),
    /// Its line has taken so many bytes.
    Handed(u64),
    /// So many bytes of its stream have come.
    Fed(u64),
    /// Its conversation has ended so.
    Ended(End),
}

/// What has happened on a connection since it came. It is the same as long as nothing else happens.
#[derive(Clone, Copy)]
pub struct Visit {
    /// When it came, in milliseconds.
    pub since_ms: u64,
    /// How many bytes its line has taken; a count that has reached 2^64 - 1 stays.
    pub handed: u64,
    /// How many bytes of its stream have come; a count that has reached 2^64 - 1 stays.
    pub fed: u64,
    /// The status of its first answer (RFC 9110, section 15); 0 if it has none.
    pub status: u16,
    /// What its client does, or did last.
    pub part: Part,
    /// Whether it was shown something of the station.
    pub is_poll: bool,
    /// How it ended first.
    pub end: Option<End>,
}

impl Visit {
    /// A connection comes at this moment, in milliseconds, and nothing has happened on it.
    pub fn begun(ms: u64) -> Visit
        ensures { result ≡ new_visit ms }
    {
        Visit {
            since_ms: ms,
            handed: 0,
            fed: 0,
            status: 0,
            part: Part::Neither,
            is_poll: false,
            end: None,
        }
    }

    /// Returns what has happened once this has happened too.
    // rule: Polls; Line of a client
    pub fn after(self, happening: Happening) -> Visit
        ensures { result ≡ visit_after self happening }
    {
        match happening {
            Happening::Replied(note) => self.replied(note),
            Happening::Handed(count) => self.handed_more(count),
            Happening::Fed(count) => Visit {
                fed: self.fed.saturating_add(count),
                ..self
            },
            Happening::Ended(end) => self.ended(end),
        }
    }

    /// Returns what has happened once its line has taken so many bytes more.
    pub(crate) fn handed_more(self, count: u64) -> Visit
        ensures { result ≡ visit_after self (Handed count) }
    {
        Visit {
            handed: self.handed.saturating_add(count),
            ..self
        }
    }

    /// A reply gives the client its part, and the first status counts.
    fn replied(self, note: ReplyNote) -> Visit
        ensures { result ≡ replied self note }
    {
        Visit {
            part: part_given(note, self.part),
            status: first_of(self.status, status_of_note(note)),
            is_poll: is_shown(note) || self.is_poll,
            ..self
        }
    }

    /// The first end counts, and the first status.
    fn ended(self, end: End) -> Visit
        ensures { result ≡ record self { status = first_of self.status (code_of_end end); end = first_end self.end end } }
    {
        Visit {
            status: first_of(self.status, end.code()),
            end: first_end(self.end, end),
            ..self
        }
    }

    /// How many whole seconds have passed at this moment, in milliseconds, since it came.
    fn seconds(self, ms: u64) -> u64
        ensures { result ≡ seconds_between self.since_ms ms }
    {
        ms.saturating_sub(self.since_ms) / 1000
    }

    /// Returns the mount of the client's line: its last mount, if that was noted, else the one that it asked for. Empty if
    /// it was let in to none.
    fn mount<'a>(self, asked: &'a [u8], last: &'a [u8]) -> &'a [u8]
        ensures { result.now ≡ mount_of_visit self.part asked.now last.now }
    {
        match self.part {
            Part::Neither => b"",
            Part::Listener if !last.is_empty() => last,
            Part::Listener | Part::Source => asked,
        }
    }

    /// Returns what the log says of the client, which is gone at this moment, in milliseconds. It says what was read
    /// from it, and its last mount, which is empty if it is the one that it asked for.
    // rule: Last mount; Line of a client
    pub(crate) fn client_ended<'a>(
        self,
        peer: Peer,
        ms: u64,
        request: &'a RequestSoFar,
        last: &'a [u8],
    ) -> ClientEnded<'a>
        ensures { result ≡ client_ended peer ms self request.now last.now }
    {
        ClientEnded {
            peer,
            method: QuotedText::of(request.method()),
            path: QuotedText::of(request.path()),
            mount: QuotedText::of(self.mount(request.path(), last)),
            status: self.status,
            why: QuotedText::of(end_word(self.end).as_bytes()),
            user: QuotedText::of(request.user()),
            seconds: self.seconds(ms),
            bytes: self.handed,
            agent: QuotedText::of(request.agent()),
        }
    }

    /// What the log says of its source, which is gone at this moment, in milliseconds.
    // rule: Lines of changes
    pub(crate) fn source_gone<'a>(
        self,
        peer: Peer,
        ms: u64,
        request: &'a RequestSoFar,
    ) -> SourceGone<'a>
        ensures { result ≡ source_gone peer ms self request.now }
    {
        SourceGone {
            mount: QuotedText::of(request.path()),
            peer,
            why: QuotedText::of(end_word(self.end).as_bytes()),
            seconds: self.seconds(ms),
            bytes: self.fed,
        }
    }

    /// What the log says of the mount of its source, which is live no more.
    // rule: Lines of changes
    pub(crate) fn mount_gone<'a>(self, request: &'a RequestSoFar) -> Fact<'a>
        ensures { result ≡ MountGone (request_kept request.now).path (mount_word self.end) }
    {
        Fact::MountGone {
            mount: QuotedText::of(request.path()),
            why: QuotedText::of(mount_word(self.end).as_bytes()),
        }
    }
}

/// What a client does once this was replied.
fn part_given(note: ReplyNote, before: Part) -> Part
    ensures { result ≡ part_given note before }
{
    match note {
        ReplyNote::Seated => Part::Listener,
        ReplyNote::Feeding => Part::Source,
        ReplyNote::Nothing
        | ReplyNote::Noted
        | ReplyNote::Text
        | ReplyNote::Shown
        | ReplyNote::Denied(_) => before,
    }
}

/// The status of an answer (RFC 9110, section 15); 0 for none.
fn status_of_note(note: ReplyNote) -> u16
    ensures { result ≡ status_of_note note }
{
    match note {
        ReplyNote::Seated | ReplyNote::Feeding | ReplyNote::Text | ReplyNote::Shown => 200,
        ReplyNote::Denied(rule) => code_of(rule),
        ReplyNote::Nothing | ReplyNote::Noted => 0,
    }
}

/// Whether something of the station is shown.
fn is_shown(note: ReplyNote) -> bool
    ensures { result ≡ reply_shows_station note }
{
    match note {
        ReplyNote::Shown => true,
        ReplyNote::Nothing
        | ReplyNote::Noted
        | ReplyNote::Feeding
        | ReplyNote::Seated
        | ReplyNote::Text
        | ReplyNote::Denied(_) => false,
    }
}

/// The first status counts; 0 is none.
fn first_of(before: u16, status: u16) -> u16
    ensures { result ≡ first_of before status }
{
    if before == 0 { status } else { before }
}

/// The first end counts.
fn first_end(before: Option<End>, end: End) -> Option<End>
    ensures { result ≡ first_end before end }
{
    match before {
        Some(first) => Some(first),
        None => Some(end),
    }
}

/// Returns the name of a client's last mount, if it is not the one that it asked for by this path. Empty if it is, or if
/// memory is refused for it.
// rule: Last mount
pub(crate) fn elsewhere(alloc: Global, path: &[u8], mount: &MountName) -> Vec<u8>
    ensures { (result.items ≡ []) ⊎ ((result.items ≡ mount.now) × (mount.now ≢ path.now)) }
{
    if path == mount.as_bytes() {
        return Vec::new(alloc);
    }
    match Vec::from_slice(alloc, mount.as_bytes()) {
        Ok(name) => name,
        Err(_) => Vec::new(alloc),
    }
}
