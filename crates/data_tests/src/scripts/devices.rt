//! Devices for tests: they fail at one of their calls, take or give a byte a call and count for
//! themselves, or keep back what they take.

use std::io;
use std::io::{Error, ErrorKind, Read, Write};

/// A device that fails once, with an interrupted call, and gives or takes at most a byte a call. It
/// counts its calls and its failures itself.
#[derive(Drop)]
pub struct Frail<D> {
    pub device: D,
    /// How many calls go well before the one that fails.
    pub sound: u64,
    /// How often it was called to read or to write.
    pub calls: u64,
    /// How often it failed.
    pub failures: u64,
}

impl<D> Frail<D> {
    /// It fails once, after so many sound calls.
    pub fn new(device: D, sound: u64) -> Frail<D> {
        Frail {
            device,
            sound,
            calls: 0,
            failures: 0,
        }
    }

    fn fails(&mut self) -> bool {
        self.calls = self.calls.saturating_add(1);
        if self.calls == self.sound.saturating_add(1) {
            self.failures = self.failures.saturating_add(1);
            return true;
        }
        false
    }
}

impl<D: Read> Read for Frail<D> {
    fn read(&mut self, buffer: &mut [u8]) -> io::Result<usize> {
        if self.fails() {
            return Err(Error::from(ErrorKind::Interrupted));
        }
        let most = buffer.len().min(1);
        self.device.read(&mut buffer[..most])
    }
}

impl<D: Write> Write for Frail<D> {
    fn write(&mut self, buffer: &[u8]) -> io::Result<usize> {
        if self.fails() {
            return Err(Error::from(ErrorKind::Interrupted));
        }
        let most = buffer.len().min(1);
        self.device.write(&buffer[..most])
    }

    fn flush(&mut self) -> io::Result<()> {
        self.device.flush()
    }
}

/// A writer that passes on what it has taken when it is flushed, and not before.
#[derive(Drop)]
pub struct Keeping<D> {
    pub device: D,
    pub kept: Vec<u8>,
}

impl<D: Write> Write for Keeping<D> {
    fn write(&mut self, buffer: &[u8]) -> io::Result<usize> {
        self.kept.write(buffer)
    }

    fn flush(&mut self) -> io::Result<()> {
        self.device.write_all(&self.kept)?;
        self.kept.clear();
        self.device.flush()
    }
}
