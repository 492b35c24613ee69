//! What is noted of one connection.

use crate::ends::End;
use crate::receiving::received;
use crate::request_so_far::RequestSoFar;
use crate::visit::{Happening, Part, Visit, elsewhere};
use crate::{Log, Notice, ReplyNote};
use radio_addr::Peer;
use radio_events::{Ending, Event, State};
use radio_log::Fact;
use radio_values::MountName;
use std::alloc::Global;
use std::cell::Cell;

/// What is noted of a connection: what has happened on it, what was read from it, and what was logged of it. It changes
/// nothing of what is answered.
///
/// [`Visit`], [`received`] and [`Notice`] decide what is noted and logged; this only keeps it.
#[derive(Drop)]
pub struct Account {
    alloc: Global,
    visit: Cell<Visit>,
    request: Cell<RequestSoFar>,
    /// The client's last mount, if it is not the one that it asked for. Else empty.
    last_mount: Cell<Vec<u8>>,
    is_source_logged: Cell<bool>,
    is_end_logged: Cell<bool>,
}

impl Account {
    /// A connection has come at this moment, in milliseconds. It takes no memory.
    pub fn new(alloc: Global, ms: u64) -> Account {
        Account {
            alloc,
            visit: Cell::new(Visit::begun(ms)),
            request: Cell::new(RequestSoFar::Part(Vec::new(alloc))),
            last_mount: Cell::new(Vec::new(alloc)),
            is_source_logged: Cell::new(false),
            is_end_logged: Cell::new(false),
        }
    }

    /// Returns whether the client is, or was last, a listener of a mount.
    pub fn is_listener(&self) -> bool {
        self.visit.get().part == Part::Listener
    }

    /// Notes that the client was at this mount at last. If memory is refused for it, the mount that it asked
    /// for is logged.
    pub fn note_last_mount(&self, mount: &MountName) {
        let request = self.request.replace(RequestSoFar::Nothing);
        self.last_mount
            .set(elsewhere(self.alloc, request.path(), mount));
        self.request.set(request);
    }

    /// Notes that these bytes have come, and mean these events. Up to the first events they are kept, and then what the
    /// head asks for.
    pub fn receive(&self, bytes: &[u8], events: &Vec<Event>) {
        match self.request.replace(RequestSoFar::Nothing) {
            RequestSoFar::Part(held) => self.request.set(received(self.alloc, held, bytes, events)),
            other @ (RequestSoFar::Request(_) | RequestSoFar::Nothing) => self.request.set(other),
        }
    }

    /// This has happened.
    fn note(&self, happening: Happening) {
        self.visit.set(self.visit.get().after(happening));
    }

    /// The server has replied so.
    pub fn note_reply(&self, note: ReplyNote) {
        self.note(Happening::Replied(note));
    }

    /// Its line has taken so many bytes.
    pub fn note_handed(&self, count: usize) {
        self.visit.set(self.visit.get().handed_more(count as u64));
    }

    /// Returns what is to be logged of this event, if it is done.
    pub fn notice(&self, log: &Log, peer: Peer, event: &Event) -> Notice {
        let request = self.request.replace(RequestSoFar::Nothing);
        let notice = Notice::of(self.alloc, log.seconds(), peer, request.agent(), event);
        self.request.set(request);
        notice
    }

    /// Notes that the server has replied so to an event of which this is to be logged, if it is
    /// done.
    pub fn log_reply(&self, log: &Log, notice: Notice, note: ReplyNote) {
        match note {
            ReplyNote::Nothing => drop(notice),
            ReplyNote::Noted
            | ReplyNote::Feeding
            | ReplyNote::Seated
            | ReplyNote::Text
            | ReplyNote::Shown
            | ReplyNote::Denied(_) => self.log_and_note(log, notice, note),
        }
    }

    /// The same, for a reply of which something is noted. It is no part of what is done for each draw.
    #[cold]
    fn log_and_note(&self, log: &Log, notice: Notice, note: ReplyNote) {
        let due = notice.due(note);
        self.note(Happening::Fed(due.fed()));
        log.add_notice(due);
        self.note_reply(note);
    }

    /// The connection goes on, or has ended.
    pub fn note_state(&self, state: State) {
        if let State::Shut(ending) = state {
            self.note_ending(ending);
        }
    }

    /// The conversation has ended so.
    pub fn note_ending(&self, ending: Ending) {
        self.note(Happening::Ended(End::By(ending)));
    }

    /// The bytes that wait to be written did not move for too long.
    pub fn note_stalled(&self) {
        self.note(Happening::Ended(End::Stalled));
    }

    /// Notes that memory was refused to an event of which this was to be logged.
    pub fn note_refusal(&self, notice: Notice) {
        drop(notice);
        self.note_no_memory();
    }

    /// Memory was refused.
    pub fn note_no_memory(&self) {
        self.note(Happening::Ended(End::NoMemory));
    }

    /// Logs, once, a source whose conversation has ended at this moment, in milliseconds.
    pub fn log_source_gone(&self, log: &Log, peer: Peer, ms: u64) {
        let visit = self.visit.get();
        if visit.part != Part::Source || self.is_source_logged.replace(true) {
            return;
        }
        let request = self.request.replace(RequestSoFar::Nothing);
        log.note(Fact::SourceGone(visit.source_gone(peer, ms, &request)));
        log.note(visit.mount_gone(&request));
        self.request.set(request);
    }

    /// Logs, once, a client that is gone at this moment, in milliseconds. The log may leave out those that were only
    /// shown something of the station.
    pub fn log_client_ended(&self, log: &Log, peer: Peer, ms: u64) {
        let visit = self.visit.get();
        if self.is_end_logged.replace(true) || (visit.is_poll && !log.has_polls()) {
            return;
        }
        let request = self.request.replace(RequestSoFar::Nothing);
        let last = self.last_mount.replace(Vec::new(self.alloc));
        log.note(Fact::ClientEnded(visit.client_ended(peer, ms, &request, last.as_slice())));
        self.request.set(request);
    }
}
