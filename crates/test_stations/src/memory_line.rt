//! A line in memory.

ghost use Rattle.std.specs.Prelude.{◌≡◌, ◌<◌, [], length};
ghost use Rattle.radio_connections.specs.Lines.{HasGiven, HasTaken};

use radio_serving::{CallCount, Line, Received, Sent};
use std::alloc::Global;

/// What a line does.
#[derive(Clone, Copy)]
pub struct Manners {
    /// What it gives to each read, in turn; then nothing. An empty piece is a read to which nothing
    /// comes.
    pub gives: &'static [&'static [u8]],
    /// At which read its peer has closed, counted from 0.
    pub closes_at: u64,
    /// How many bytes it takes in a write at most.
    pub takes: usize,
    /// From which write on nothing is taken, counted from 0.
    pub stalls_at: u64,
    /// At which write something is taken again.
    pub resumes_at: u64,
    /// Which call fails, counted from 0 over reads and writes together.
    pub fails_at: u64,
}

/// A line that gives nothing, and takes everything.
pub const SILENT: Manners = Manners {
    gives: &[],
    closes_at: u64::MAX,
    takes: usize::MAX,
    stalls_at: u64::MAX,
    resumes_at: u64::MAX,
    fails_at: u64::MAX,
};

/// What a line is to show.
#[derive(Clone, Copy)]
pub enum Look {
    /// It has taken just that.
    Took(&'static [u8]),
    /// It has taken the front of that.
    TookFront(&'static [u8]),
    /// It was closed for writing, behind these bytes.
    FinishedBehind(&'static [u8]),
    /// It was not.
    Open,
    /// It knows that nothing is wanted of what comes.
    PassedOver,
}

/// Why a line gives nothing any more.
enum End {
    Closed,
    Fault,
}

/// A line in memory, which keeps all that it gave and took.
#[derive(Drop)]
pub struct MemoryLine {
    manners: Manners,
    pieces: usize,
    reads: u64,
    writes: u64,
    given: Vec<u8>,
    taken: Vec<u8>,
    calls: CallCount,
    is_finished: bool,
    is_passed_over: bool,
}

impl MemoryLine {
    /// Returns a line of these manners, which has given and taken nothing.
    pub fn new(alloc: Global, manners: Manners) -> MemoryLine
        ensures given { ⟦<MemoryLine as Line>⟧.given result ≡ [] }
        ensures taken { ⟦<MemoryLine as Line>⟧.taken result ≡ [] }
    {
        MemoryLine {
            manners,
            pieces: 0,
            reads: 0,
            writes: 0,
            given: Vec::new(alloc),
            taken: Vec::new(alloc),
            calls: CallCount::new(),
            is_finished: false,
            is_passed_over: false,
        }
    }

    /// Returns whether it shows that.
    pub fn shows(&self, look: Look) -> bool {
        let taken = self.taken.as_slice();
        match look {
            Look::Took(bytes) => taken == bytes,
            Look::TookFront(bytes) => bytes.starts_with(taken),
            Look::FinishedBehind(bytes) => self.is_finished && taken.ends_with(bytes),
            Look::Open => !self.is_finished,
            Look::PassedOver => self.is_passed_over,
        }
    }

    /// Whether the next call fails.
    fn fails(&self) -> bool {
        self.reads.saturating_add(self.writes) == self.manners.fails_at
    }

    /// Counts a read. Its end, if it is one.
    fn count_read(&mut self) -> Option<End>
        ensures given { self.new.given ≡ self.old.given }
        ensures taken { self.new.taken ≡ self.old.taken }
        ensures calls { self.new.calls ≡ self.old.calls }
    {
        let fails = self.fails();
        let closed = self.reads >= self.manners.closes_at;
        self.reads = self.reads.saturating_add(1);
        match (fails, closed) {
            (true, _) => Some(End::Fault),
            (false, true) => Some(End::Closed),
            (false, false) => None,
        }
    }

    /// Counts a write. Whether it takes something, if it does not fail.
    fn count_write(&mut self) -> Option<bool>
        ensures given { self.new.given ≡ self.old.given }
        ensures taken { self.new.taken ≡ self.old.taken }
        ensures calls { self.new.calls ≡ self.old.calls }
    {
        let fails = self.fails();
        let takes = self.writes < self.manners.stalls_at || self.writes >= self.manners.resumes_at;
        self.writes = self.writes.saturating_add(1);
        if fails { None } else { Some(takes) }
    }

    /// The piece for this read, if there is one.
    fn next_piece(&mut self) -> Option<&'static [u8]>
        ensures given { self.new.given ≡ self.old.given }
        ensures taken { self.new.taken ≡ self.old.taken }
        ensures calls { self.new.calls ≡ self.old.calls }
    {
        let piece = *self.manners.gives.get(self.pieces)?;
        self.pieces = self.pieces.saturating_add(1);
        Some(piece)
    }

    /// Gives the front of a piece, as far as the buffer has room.
    fn give(&mut self, piece: &[u8], buffer: &mut [u8]) -> Received
        ensures given { HasGiven result buffer.new self.old.given.items self.new.given.items }
        ensures taken { self.new.taken ≡ self.old.taken }
        ensures calls { self.new.calls ≡ self.old.calls }
    {
        let count = piece.len().min(buffer.len());
        if count == 0 {
            return Received::Nothing;
        }
        buffer[..count].copy_from_slice(&piece[..count]);
        match self.given.extend_from_slice(&buffer[..count]) {
            Ok(()) => Received::Bytes(count),
            Err(_) => Received::Fault,
        }
    }

    /// Takes the front of the bytes.
    fn take(&mut self, bytes: &[u8]) -> Sent
        ensures given { self.new.given ≡ self.old.given }
        ensures taken { HasTaken result bytes.now self.old.taken.items self.new.taken.items }
        ensures calls { self.new.calls ≡ self.old.calls }
    {
        let count = bytes.len().min(self.manners.takes);
        if count == 0 {
            return Sent::Nothing;
        }
        match self.taken.extend_from_slice(&bytes[..count]) {
            Ok(()) => Sent::Took(count),
            Err(_) => Sent::Fault,
        }
    }

    /// What a read answers, before it is counted.
    fn receive(&mut self, buffer: &mut [u8]) -> Received
        ensures given { HasGiven result buffer.new self.old.given.items self.new.given.items }
        ensures taken { self.new.taken ≡ self.old.taken }
        ensures calls { self.new.calls ≡ self.old.calls }
    {
        match self.count_read() {
            Some(End::Closed) => return Received::Closed,
            Some(End::Fault) => return Received::Fault,
            None => (),
        }
        match self.next_piece() {
            Some(piece) => self.give(piece, buffer),
            None => Received::Nothing,
        }
    }

    /// What a write answers, before it is counted.
    fn send(&mut self, bytes: &[u8]) -> Sent
        requires { 0 < length bytes.now }
        ensures given { self.new.given ≡ self.old.given }
        ensures taken { HasTaken result bytes.now self.old.taken.items self.new.taken.items }
        ensures calls { self.new.calls ≡ self.old.calls }
    {
        match self.count_write() {
            None => Sent::Fault,
            Some(false) => Sent::Nothing,
            Some(true) => self.take(bytes),
        }
    }
}

impl Line for MemoryLine {
    ghost given = { λ l. l.given.items };

    ghost taken = { λ l. l.taken.items };

    ghost calls = { λ l. l.calls };

    fn read(&mut self, buffer: &mut [u8]) -> Received {
        let received = self.receive(buffer);
        self.calls.count_read(received, buffer);
        received
    }

    fn write(&mut self, bytes: &[u8]) -> Sent {
        let sent = self.send(bytes);
        self.calls.count_write(sent);
        sent
    }

    fn pass_over(&mut self) {
        self.is_passed_over = true;
    }

    fn finish(&mut self) {
        self.is_finished = true;
    }
}
