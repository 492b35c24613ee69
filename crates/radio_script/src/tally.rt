//! A reader or a writer with a count of its calls.

ghost use Rattle.std.specs.Prelude.{◌≡◌, ◌<◌, ◌≤◌, ℕ, Bool, true, false, length, IfOk, OnOk, OnErr};
ghost use Rattle.std.specs.Io.{ReadsAtMost, WritesAtMost};
ghost use Rattle.std.specs.Io.KnownBytes.{Keeps, ReadConsumes, WriteAppends};
ghost use Rattle.radio_script.specs.Devices.{bumped};

use crate::devices::{Counted, CountedRead, CountedWrite};
use std::io;
use std::io::{Error, ErrorKind, Read, Write};

/// A reader or a writer that counts its calls and its failures.
#[derive(Drop)]
pub struct Tally<D> {
    device: D,
    calls: u64,
    failures: u64,
    is_flushed: bool,
}

impl<D> Tally<D> {
    ghost use Rattle.radio_script.specs.Tally.{calls_of, device_of, failures_of, has_flushed};

    /// Returns the tally of a device, without calls and failures, and with nothing kept back.
    pub fn new(device: D) -> Tally<D>
        ensures device { device_of result ≡ device }
        ensures calls { calls_of result ≡ 0 }
        ensures failures { failures_of result ≡ 0 }
        ensures flushed { has_flushed result ≡ true }
    {
        Tally {
            device,
            calls: 0,
            failures: 0,
            is_flushed: true,
        }
    }
}

impl<D> Counted for Tally<D> {
    ghost use Rattle.radio_script.specs.Tally.{calls_of, failures_of};

    ghost calls = { calls_of };

    ghost failures = { failures_of };

    fn call_count(&self) -> u64 {
        self.calls
    }

    fn failure_count(&self) -> u64 {
        self.failures
    }
}

impl<D: Read> Read for Tally<D> {
    ghost use Rattle.radio_script.specs.Tally.{calls_of, device_of, failures_of};

    ghost remaining = { λ t. D.remaining (device_of t) };

    // Counts as `read_counted` does.
    fn read(&mut self, buffer: &mut [u8]) -> io::Result<usize>
        ensures bound { ReadsAtMost result buffer.new }
        ensures bytes { ReadConsumes (D.remaining (device_of self.old))
            (D.remaining (device_of self.new)) result buffer.new }
        ensures called { calls_of self.new ≡ bumped (calls_of self.old) }
        ensures ok { OnOk result (failures_of self.new ≡ failures_of self.old) }
        ensures err { OnErr result (failures_of self.new ≡ bumped (failures_of self.old)) }
    {
        self.read_counted(buffer)
    }
}

impl<D: Read> CountedRead for Tally<D> {
    fn read_counted(&mut self, buffer: &mut [u8]) -> io::Result<usize> {
        self.calls = self.calls.saturating_add(1);
        let result = self.device.read(buffer);
        if result.is_err() {
            self.failures = self.failures.saturating_add(1);
        }
        result
    }
}

impl<D: Write> Write for Tally<D> {
    ghost use Rattle.radio_script.specs.Tally.{calls_of, device_of, failures_of, has_flushed};

    ghost contents = { λ t. D.contents (device_of t) };

    // Counts as `write_counted` does. An empty buffer writes nothing, and is not counted.
    fn write(&mut self, buffer: &[u8]) -> io::Result<usize>
        ensures bound { WritesAtMost result buffer.now }
        ensures bytes { WriteAppends (D.contents (device_of self.old))
            (D.contents (device_of self.new)) result buffer.now }
        ensures called { 0 < length buffer.now → calls_of self.new ≡ bumped (calls_of self.old) }
        ensures ok { OnOk result (failures_of self.new ≡ failures_of self.old) }
        ensures err { OnErr result (failures_of self.new ≡ bumped (failures_of self.old)) }
    {
        if buffer.is_empty() {
            return Ok(0);
        }
        self.write_counted(buffer)
    }

    fn flush(&mut self) -> io::Result<()>
        ensures bytes { Keeps (D.contents (device_of self.old)) (D.contents (device_of self.new)) }
        ensures flushed { OnOk result (has_flushed self.new ≡ true) }
        ensures ok { OnOk result (failures_of self.new ≡ failures_of self.old) }
        ensures err { OnErr result (failures_of self.new ≡ bumped (failures_of self.old)) }
    {
        self.flush_counted()
    }
}

impl<D: Write> CountedWrite for Tally<D> {
    ghost use Rattle.radio_script.specs.Tally.{has_flushed};

    ghost is_flushed = { has_flushed };

    fn write_counted(&mut self, buffer: &[u8]) -> io::Result<usize> {
        self.calls = self.calls.saturating_add(1);
        self.is_flushed = false;
        match self.device.write(buffer) {
            Ok(0) => {
                self.failures = self.failures.saturating_add(1);
                Err(Error::from(ErrorKind::WriteZero))
            }
            Ok(n) => Ok(n),
            Err(e) => {
                self.failures = self.failures.saturating_add(1);
                Err(e)
            }
        }
    }

    fn flush_counted(&mut self) -> io::Result<()> {
        match self.device.flush() {
            Ok(()) => {
                self.is_flushed = true;
                Ok(())
            }
            Err(e) => {
                self.failures = self.failures.saturating_add(1);
                Err(e)
            }
        }
    }
}
