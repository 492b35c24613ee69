//! A connection's socket as a line.

ghost use Rattle.std.specs.Prelude.{◌≡◌, ◌<◌, [], length};
ghost use Rattle.radio_connections.specs.Lines.{HasGiven, HasTaken, calls_after_read, after_write, no_calls};
ghost use Rattle.radio_lines.specs.Courses.{fresh_course};
ghost use Rattle.radio_lines.specs.Streams.{IsGivenBy, IsTakenBy};

use crate::activity::{Activity, Need};
use crate::course::{Course, ReadCall, Reading, took_all, writing_of};
use crate::readiness::Readiness;
use crate::stream::{Shut, read_once, write_once};
use radio_connections::{CallCount, History, Line, Received, Sent};
use std::alloc::Global;
use std::io::{Read, Write};
use std::sync::Arc;

/// A connection's socket. It is asked only once the system has reported that it is ready: `Nothing` takes no call of
/// the system then. If what comes is not wanted, it is read from each tenth of a second at most. If it took nothing, it
/// is asked again after a second.
///
/// If sources are read slowly and it has given as much as only sources do, it gives something once in a millisecond at
/// most. If anything that it gave was wanted, it holds back that its peer has closed until all have drawn that, for
/// half a second at most. It may go from thread to thread.
#[derive(Drop)]
pub struct SocketLine<S: Read + Write + Shut + Drop> {
    stream: S,
    readiness: Arc<Readiness>,
    activity: Arc<Activity>,
    course: Course,
    given: History,
    taken: History,
    calls: CallCount,
}

impl<S: Read + Write + Shut + Drop> SocketLine<S> {
    /// The line of a socket that does not wait.
    pub(crate) fn new(
        stream: S,
        readiness: Arc<Readiness>,
        activity: Arc<Activity>,
    ) -> SocketLine<S>
        ensures stream { result.stream ≡ stream }
        ensures course { result.course ≡ fresh_course }
        ensures given { result.given.items ≡ [] }
        ensures taken { result.taken.items ≡ [] }
        ensures calls { result.calls ≡ no_calls }
    {
        SocketLine {
            stream,
            readiness,
            activity,
            course: Course::begun(),
            given: History::new(),
            taken: History::new(),
            calls: CallCount::new(),
        }
    }

    /// Reads from the socket, where it may be asked: what it gave by that one call.
    fn receive(&mut self, buffer: &mut [u8]) -> Received
        ensures given { HasGiven result buffer.new self.old.given.items self.new.given.items }
        ensures stream { IsGivenBy (S.remaining self.old.stream) (S.remaining self.new.stream) buffer.new result }
        ensures taken { self.new.taken ≡ self.old.taken }
        ensures calls { self.new.calls ≡ self.old.calls }
    {
        // in most turns nothing has come on most lines
        if !self.readiness.is_readable() {
            return Received::Nothing;
        }
        self.receive_some(buffer)
    }

    /// Does the same for a socket that may have something to read. It is a function of its own, since each turn would clear its locals
    /// otherwise, and in most turns nothing is read.
    #[inline(never)]
    fn receive_some(&mut self, buffer: &mut [u8]) -> Received
        ensures given { HasGiven result buffer.new self.old.given.items self.new.given.items }
        ensures stream { IsGivenBy (S.remaining self.old.stream) (S.remaining self.new.stream) buffer.new result }
        ensures taken { self.new.taken ≡ self.old.taken }
        ensures calls { self.new.calls ≡ self.old.calls }
    {
        let turn = self.activity.turn();
        let mut ready = self.readiness.load();
        match self.course.call(ready, turn) {
            ReadCall::Skipped => return Received::Nothing,
            ReadCall::Held => {
                self.activity.note(Need::Held, 0);
                return Received::Nothing;
            }
            ReadCall::Made => (),
        }
        let received = read_once(&mut self.stream, buffer, &mut ready);
        let reading = self.course.reading(received, buffer.len(), ready, turn);
        self.carry_out(reading);
        if let Received::Bytes(count) = received {
            self.given.note(&buffer[..count]);
        }
        reading.received
    }

    /// Notes what becomes of the line and its socket by a read.
    fn carry_out(&mut self, reading: Reading)
        ensures course { self.new.course ≡ reading.course }
        ensures stream { self.new.stream ≡ self.old.stream }
        ensures given { self.new.given ≡ self.old.given }
        ensures taken { self.new.taken ≡ self.old.taken }
        ensures calls { self.new.calls ≡ self.old.calls }
    {
        self.course = reading.course;
        self.readiness.store(reading.ready);
        self.activity.note(reading.need, reading.sourced);
    }

    /// Writes to the socket, where it may be asked: what it took by that one call.
    // rule: Full sockets
    fn send(&mut self, bytes: &[u8]) -> Sent
        requires { 0 < length bytes.now }
        ensures taken { HasTaken result bytes.now self.old.taken.items self.new.taken.items }
        ensures stream { IsTakenBy (S.contents self.old.stream) (S.contents self.new.stream) bytes.now result }
        ensures given { self.new.given ≡ self.old.given }
        ensures calls { self.new.calls ≡ self.old.calls }
    {
        let ms = self.activity.now_ms();
        let mut ready = self.readiness.load();
        if !ready.may_write(ms) {
            return Sent::Nothing;
        }
        let sent = write_once(&mut self.stream, bytes, &mut ready, ms);
        let writing = writing_of(sent, bytes.len(), ready, ms);
        // most writes take all, and the socket stays as ready as it was
        if !took_all(sent, bytes.len()) {
            self.readiness.store(writing.ready);
        }
        self.activity.note(writing.need, 0);
        if let Sent::Took(count) = sent {
            self.taken.note(&bytes[..count]);
        }
        sent
    }
}

impl<S: Read + Write + Shut + Drop> Line for SocketLine<S> {
    ghost given = { λ line. line.given.items };

    ghost taken = { λ line. line.taken.items };

    ghost calls = { λ line. line.calls };

    fn read(&mut self, buffer: &mut [u8]) -> Received
        ensures stream { IsGivenBy (S.remaining self.old.stream) (S.remaining self.new.stream) buffer.new result }
        ensures given { HasGiven result buffer.new self.old.given.items self.new.given.items }
        ensures taken { self.new.taken.items ≡ self.old.taken.items }
        ensures calls { self.new.calls ≡ calls_after_read result (length buffer.new) self.old.calls }
    {
        let received = self.receive(buffer);
        self.calls.count_read(received, buffer);
        received
    }

    fn write(&mut self, bytes: &[u8]) -> Sent
        requires { 0 < length bytes.now }
        ensures stream { IsTakenBy (S.contents self.old.stream) (S.contents self.new.stream) bytes.now result }
        ensures taken { HasTaken result bytes.now self.old.taken.items self.new.taken.items }
        ensures given { self.new.given.items ≡ self.old.given.items }
        ensures calls { self.new.calls ≡ after_write result self.old.calls }
    {
        let sent = self.send(bytes);
        self.calls.count_write(sent);
        sent
    }

    fn pass_over(&mut self)
        ensures stream { self.new.stream ≡ self.old.stream }
        ensures course { self.new.course ≡ self.old.course }
        ensures given { self.new.given.items ≡ self.old.given.items }
        ensures taken { self.new.taken.items ≡ self.old.taken.items }
        ensures calls { self.new.calls ≡ self.old.calls }
    {
        self.readiness.store(self.readiness.load().unwanted());
    }

    fn finish(&mut self)
        ensures stream { self.new.stream ≡ self.old.stream }
        ensures course { self.new.course ≡ self.old.course }
        ensures given { self.new.given.items ≡ self.old.given.items }
        ensures taken { self.new.taken.items ≡ self.old.taken.items }
        ensures calls { self.new.calls ≡ self.old.calls }
    {
        self.readiness.store(self.readiness.load().unwanted());
        self.stream.shut();
    }
}
