//! Streams whose first bytes can be looked at.

use mio::net::TcpStream;
use std::io;
use std::io::Read;

/// A stream whose first bytes can be looked at.
pub trait Peek: Read {
    ghost use Rattle.std.specs.Prelude.{IfOk, IfSome, take};
    ghost use Rattle.std.specs.Io.{ReadsAtMost, StartsWith};
    ghost use Rattle.std.specs.Io.KnownBytes.{Keeps};

    /// Copies the bytes that have come into the buffer, as far as it has room, and leaves them for the next read. Returns how
    /// many they are; 0 if the peer has closed and all was read. `WouldBlock` if none has come.
    fn peek_front(&mut self, buffer: &mut [u8]) -> io::Result<usize>
        ensures bound { ReadsAtMost result buffer.new }
        ensures front { IfOk result (λ n. IfSome (Self.remaining self.new) (λ bytes. StartsWith bytes (take n buffer.new))) }
        ensures kept { Keeps (Self.remaining self.old) (Self.remaining self.new) };
}

impl Peek for TcpStream {
    fn peek_front(&mut self, buffer: &mut [u8]) -> io::Result<usize> {
        self.peek(buffer)
    }
}
