//! Lines: what a connection's bytes come from and go to; and gates, called round each write.

/// What a line answers to a read.
#[derive(Clone, Copy, Debug, PartialEq, Eq)]
pub enum Received {
    /// So many bytes have come, and are at the front of the buffer.
    Bytes(usize),
    /// Nothing has come for now.
    Nothing,
    /// The peer has closed its side: nothing will come any more.
    Closed,
    /// The line has failed.
    Fault,
}

/// What a line answers to a write.
#[derive(Clone, Copy, Debug, PartialEq, Eq)]
pub enum Sent {
    /// It took so many bytes from the front.
    Took(usize),
    /// It takes nothing for now.
    Nothing,
    /// The line has failed.
    Fault,
}

/// A line to a peer, in both directions, which never waits. In contracts it has its bytes: all that
/// it gave, and all that it took, in order.
pub trait Line: Drop {
    ghost use Rattle.std.specs.Prelude.{◌≡◌, ◌<◌, ℕ, List, length};
    ghost use Rattle.radio_connections.specs.Lines.{Calls, HasGiven, HasTaken, calls_after_read, after_write};

    // all bytes that were read from it
    ghost given: { Self → List ℕ };

    // all bytes that it took
    ghost taken: { Self → List ℕ };

    // how often it was called and with how much room, has failed, and has reported that its peer has
    // closed
    ghost calls: { Self → Calls };

    /// Reads what has come, as far as the buffer has room. What is in the buffer behind the bytes
    /// that came is left open.
    fn read(&mut self, buffer: &mut [u8]) -> Received
        ensures given { HasGiven result buffer.new (given self.old) (given self.new) }
        ensures taken { taken self.new ≡ taken self.old }
        ensures calls { calls self.new ≡ calls_after_read result (length buffer.new) (calls self.old) };

    /// Writes what it takes of the bytes, from the front.
    fn write(&mut self, bytes: &[u8]) -> Sent
        requires { 0 < length bytes.now }
        ensures taken { HasTaken result bytes.now (taken self.old) (taken self.new) }
        ensures given { given self.new ≡ given self.old }
        ensures calls { calls self.new ≡ after_write result (calls self.old) };

    /// From now on nothing is wanted of what comes: to a read the line may answer
    /// [`Received::Nothing`] although something has come.
    fn pass_over(&mut self)
        ensures given { given self.new ≡ given self.old }
        ensures taken { taken self.new ≡ taken self.old }
        ensures calls { calls self.new ≡ calls self.old };

    /// Closes the line for writing, so that the peer knows that nothing more will come. It may still
    /// be read from, and what comes is not wanted.
    fn finish(&mut self)
        ensures given { given self.new ≡ given self.old }
        ensures taken { taken self.new ≡ taken self.old }
        ensures calls { calls self.new ≡ calls self.old };
}

/// What a worker calls before and after each write, with the number of the client. The server is
/// not called between the two.
pub trait Gate {
    /// A write to this client is about to begin.
    fn hold(&self, id: u64);

    /// The write has ended.
    fn let_go(&self, id: u64);
}

/// A gate that lets every write through.
#[derive(Clone, Copy, Debug)]
pub struct OpenGate;

impl Gate for OpenGate {
    fn hold(&self, _id: u64) {}

    fn let_go(&self, _id: u64) {}
}
