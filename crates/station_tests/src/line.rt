//! A line whose reads and writes are cut as dice have it.

ghost use Rattle.std.specs.Prelude.{◌≡◌, ◌<◌, [], length};
ghost use Rattle.radio_connections.specs.Lines.{HasGiven, HasTaken};

use crate::connections::{Plan, Tape, behind};
use crate::dice::Dice;
use radio_serving::{CallCount, Line, Received, Sent};
use std::alloc::Global;
use std::sync::{Mutex, Wait};

/// The most bytes of a read, and of a write.
const MOST_READ: u64 = 60;

const MOST_WRITTEN: u64 = 900;

/// The line of a connection, which notes on its tape what it gives and takes.
#[derive(Drop)]
pub struct DicedLine<'a, R: Wait> {
    rt: &'a R,
    plan: &'a Plan,
    tape: &'a Mutex<Tape>,
    dice: Dice,
    reads: u64,
    writes: u64,
    given: Vec<u8>,
    taken: Vec<u8>,
    calls: CallCount,
}

impl<'a, R: Wait> DicedLine<'a, R> {
    pub fn new(
        rt: &'a R,
        alloc: Global,
        plan: &'a Plan,
        tape: &'a Mutex<Tape>,
        dice: Dice,
    ) -> DicedLine<'a, R>
        ensures given { result.given.items ≡ [] }
        ensures taken { result.taken.items ≡ [] }
    {
        DicedLine {
            rt,
            plan,
            tape,
            dice,
            reads: 0,
            writes: 0,
            given: Vec::new(alloc),
            taken: Vec::new(alloc),
            calls: CallCount::new(),
        }
    }

    /// Gives the front of the rest, as far as the buffer has room.
    fn give(&mut self, rest: &[u8], buffer: &mut [u8]) -> Received
        ensures given { HasGiven result buffer.new self.old.given.items self.new.given.items }
        ensures taken { self.new.taken ≡ self.old.taken }
        ensures calls { self.new.calls ≡ self.old.calls }
    {
        let cut = self.dice.cut(MOST_READ);
        let count = rest.len().min(buffer.len()).min(cut);
        if count == 0 {
            return Received::Nothing;
        }
        buffer[..count].copy_from_slice(&rest[..count]);
        match self.given.extend_from_slice(&buffer[..count]) {
            Ok(()) => Received::Bytes(count),
            Err(_) => Received::Fault,
        }
    }

    /// Answers a read, before it is counted.
    fn receive(&mut self, buffer: &mut [u8]) -> Received
        ensures given { HasGiven result buffer.new self.old.given.items self.new.given.items }
        ensures taken { self.new.taken ≡ self.old.taken }
        ensures calls { self.new.calls ≡ self.old.calls }
    {
        let plan = self.plan;
        let number = self.reads;
        self.reads = number.saturating_add(1);
        if number < plan.begins_at {
            return Received::Nothing;
        }
        let rest = rest_of(plan, self.given.len());
        if rest.is_empty() && plan.closes {
            return Received::Closed;
        }
        self.give(rest, buffer)
    }

    /// Takes a front of the bytes.
    fn take(&mut self, bytes: &[u8]) -> Sent
        ensures given { self.new.given ≡ self.old.given }
        ensures taken { HasTaken result bytes.now self.old.taken.items self.new.taken.items }
        ensures calls { self.new.calls ≡ self.old.calls }
    {
        let count = bytes.len().min(self.dice.cut(MOST_WRITTEN));
        if count == 0 {
            return Sent::Nothing;
        }
        match self.taken.extend_from_slice(&bytes[..count]) {
            Ok(()) => Sent::Took(count),
            Err(_) => Sent::Fault,
        }
    }

    /// Answers a write, before it is counted.
    fn send(&mut self, bytes: &[u8]) -> Sent
        requires { 0 < length bytes.now }
        ensures given { self.new.given ≡ self.old.given }
        ensures taken { HasTaken result bytes.now self.old.taken.items self.new.taken.items }
        ensures calls { self.new.calls ≡ self.old.calls }
    {
        let number = self.writes;
        self.writes = number.saturating_add(1);
        if number >= self.plan.fails_at {
            return Sent::Fault;
        }
        self.take(bytes)
    }

    /// Notes on its tape what it has given and taken. If memory is refused the tape lacks bytes.
    fn record(&self) {
        let mut tape = self.tape.lock(self.rt);
        let tape = &mut *tape;
        tape.given = self.given.len();
        let noted = tape.taken.len();
        let _ = tape
            .taken
            .extend_from_slice(behind(self.taken.as_slice(), noted));
    }
}

/// Returns what the connection has not given yet.
fn rest_of(plan: &Plan, given: usize) -> &[u8] {
    behind(plan.gives.as_slice(), given)
}

impl<'a, R: Wait> Line for DicedLine<'a, R> {
    ghost given = { λ l. l.given.items };

    ghost taken = { λ l. l.taken.items };

    ghost calls = { λ l. l.calls };

    fn read(&mut self, buffer: &mut [u8]) -> Received {
        let received = self.receive(buffer);
        self.calls.count_read(received, buffer);
        self.record();
        received
    }

    fn write(&mut self, bytes: &[u8]) -> Sent {
        let sent = self.send(bytes);
        self.calls.count_write(sent);
        self.record();
        sent
    }

    fn pass_over(&mut self) {}

    fn finish(&mut self) {}
}
