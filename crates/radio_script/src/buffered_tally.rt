//! A reader with a buffer and a count of its calls, of which a byte costs little.

ghost use Rattle.std.specs.Prelude.{◌≡◌, ⊤, ◌∷◌, ℕ, List, IfOk, OnOk, OnErr, MatchOption};
ghost use Rattle.std.specs.Io.{ReadsAtMost};
ghost use Rattle.std.specs.Io.Buffered.{reader_buffer};
ghost use Rattle.std.specs.Io.KnownBytes.{ReadConsumes};
ghost use Rattle.radio_script.specs.Devices.{bumped};

use crate::devices::{Counted, CountedRead};
use std::alloc::Global;
use std::io;
use std::io::{BufRead, BufReader, Read};

/// A reader with a buffer in front of it, which counts its calls and its failures as a [`Tally`](crate::Tally) does. A
/// script is read byte by byte, and a byte of the buffer costs little here.
#[derive(Drop)]
pub struct BufferedTally<R> {
    reader: BufReader<R>,
    calls: u64,
    failures: u64,
}

impl<R: Read + Drop> BufferedTally<R> {
    ghost use Rattle.radio_script.specs.BufferedTally.{bytes_left, buffered_calls, buffered_failures};

    /// Returns the tally of a reader, without calls and failures. It fails only if memory was refused.
    pub fn new(alloc: Global, reader: R) -> io::Result<BufferedTally<R>>
        ensures bytes { IfOk result (λ tally. bytes_left R.remaining tally ≡ R.remaining reader) }
        ensures calls { IfOk result (λ tally. buffered_calls tally ≡ 0) }
        ensures failures { IfOk result (λ tally. buffered_failures tally ≡ 0) }
    {
        Ok(BufferedTally {
            reader: BufReader::new(alloc, reader)?,
            calls: 0,
            failures: 0,
        })
    }
}

impl<R> Counted for BufferedTally<R> {
    ghost use Rattle.radio_script.specs.BufferedTally.{buffered_calls, buffered_failures};

    ghost calls = { buffered_calls };

    ghost failures = { buffered_failures };

    fn failure_count(&self) -> u64 {
        self.failures
    }

    fn call_count(&self) -> u64 {
        self.calls
    }
}

impl<R: Read> Read for BufferedTally<R> {
    ghost use Rattle.radio_script.specs.BufferedTally.{bytes_left, buffered_calls, buffered_failures};

    ghost remaining = { bytes_left R.remaining };

    // Counts as `read_counted` does.
    fn read(&mut self, buffer: &mut [u8]) -> io::Result<usize>
        ensures bound { ReadsAtMost result buffer.new }
        ensures bytes { ReadConsumes (bytes_left R.remaining self.old) (bytes_left R.remaining self.new) result buffer.new }
        ensures called { buffered_calls self.new ≡ bumped (buffered_calls self.old) }
        ensures ok { OnOk result (buffered_failures self.new ≡ buffered_failures self.old) }
        ensures err { OnErr result (buffered_failures self.new ≡ bumped (buffered_failures self.old)) }
    {
        self.read_counted(buffer)
    }
}

impl<R: Read> CountedRead for BufferedTally<R> {
    fn read_counted(&mut self, buffer: &mut [u8]) -> io::Result<usize> {
        self.calls = self.calls.saturating_add(1);
        let result = self.reader.read(buffer);
        if result.is_err() {
            self.failures = self.failures.saturating_add(1);
        }
        result
    }

    fn take_held(&mut self) -> Option<u8> {
        let Some(byte) = first_held(&self.reader) else {
            return None;
        };
        self.reader.consume(1);
        self.calls = self.calls.saturating_add(1);
        Some(byte)
    }
}

/// Returns the first byte that the reader holds in its buffer.
fn first_held<R: Read>(reader: &BufReader<R>) -> Option<u8>
    ensures { MatchOption result ⊤ (λ byte. (rest : List ℕ) × (reader_buffer reader.now ≡ byte ∷ rest)) }
{
    match reader.buffer() {
        [byte, ..] => Some(*byte),
        [] => None,
    }
}
