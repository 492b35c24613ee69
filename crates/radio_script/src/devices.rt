//! Readers and writers that count their calls and their failures. So a contract can bound the calls, and say
//! that a fault is the device's own.

ghost use Rattle.std.specs.Prelude.{◌≡◌, ◌<◌, ◌≤◌, ◌∷◌, [], ℕ, Bool, true, length, IfOk, OnOk, OnErr, MatchOption};
ghost use Rattle.std.specs.Io.{ReadsAtMost};
ghost use Rattle.std.specs.Io.KnownBytes.{Consumes, Keeps, ReadConsumes, WriteAppends};
ghost use Rattle.radio_script.specs.Devices.{bumped};

use std::io;
use std::io::{Read, Write};

/// A device that counts its calls and its failures. Each count stops at the largest number of 64
/// bits.
pub trait Counted {
    // The number of calls to read or to write.
    ghost calls: { Self → ℕ };

    // The number of failures.
    ghost failures: { Self → ℕ };

    /// Returns how often the device was called to read or to write.
    fn call_count(&self) -> u64
        ensures { result ≡ calls self.now };

    /// Returns how often the device failed. A flush may fail too, but is not counted as a call.
    fn failure_count(&self) -> u64
        ensures { result ≡ failures self.now };
}

/// A reader that counts its calls and its failures.
pub trait CountedRead: Read + Counted {
    /// Reads some bytes into the buffer, and counts the call. With `Ok(n)` the first `n` bytes of
    /// the buffer were read. `Ok(0)` is the reader's end, if the buffer has room. Each `Err`
    /// is a failure, also that of an interrupted call.
    fn read_counted(&mut self, buffer: &mut [u8]) -> io::Result<usize>
        ensures bound { ReadsAtMost result buffer.new }
        ensures bytes { ReadConsumes (Self.remaining self.old) (Self.remaining self.new)
            result buffer.new }
        ensures called { Self.calls self.new ≡ bumped (Self.calls self.old) }
        ensures ok { OnOk result (Self.failures self.new ≡ Self.failures self.old) }
        ensures err { OnErr result (Self.failures self.new ≡ bumped (Self.failures self.old)) };

    /// Takes the next byte if the reader holds it already, and counts that as a call. If it returns `None`, nothing has
    /// happened, and `read_counted` reads on.
    fn take_held(&mut self) -> Option<u8>
        ensures { MatchOption result (self.new ≡ self.old)
            (λ byte. Consumes (Self.remaining self.old) (Self.remaining self.new) (byte ∷ [])
            × (Self.calls self.new ≡ bumped (Self.calls self.old)) × (Self.failures self.new ≡ Self.failures self.old)) }
    {
        None
    }
}

/// A writer that counts its calls and its failures.
pub trait CountedWrite: Write + Counted {
    // Whether all that was written has reached its destination.
    ghost is_flushed: { Self → Bool };

    /// Writes some bytes from the buffer's front, and counts the call. With `Ok(n)` the first `n`
    /// bytes were written. Each `Err` is a failure, also that of an interrupted call. A write that
    /// takes nothing is an `Err`.
    fn write_counted(&mut self, buffer: &[u8]) -> io::Result<usize>
        requires { 0 < length buffer.now }
        ensures some { IfOk result (λ n. 0 < n) }
        ensures bound { IfOk result (λ n. n ≤ length buffer.now) }
        ensures bytes { WriteAppends (Self.contents self.old) (Self.contents self.new)
            result buffer.now }
        ensures called { Self.calls self.new ≡ bumped (Self.calls self.old) }
        ensures ok { OnOk result (Self.failures self.new ≡ Self.failures self.old) }
        ensures err { OnErr result (Self.failures self.new ≡ bumped (Self.failures self.old)) };

    /// Flushes the writer, so that it keeps nothing back. This is not counted as a call. An `Err` is a
    /// failure.
    fn flush_counted(&mut self) -> io::Result<()>
        ensures bytes { Keeps (Self.contents self.old) (Self.contents self.new) }
        ensures not_called { Self.calls self.new ≡ Self.calls self.old }
        ensures flushed { OnOk result (is_flushed self.new ≡ true) }
        ensures ok { OnOk result (Self.failures self.new ≡ Self.failures self.old) }
        ensures err { OnErr result (Self.failures self.new ≡ bumped (Self.failures self.old)) };
}
