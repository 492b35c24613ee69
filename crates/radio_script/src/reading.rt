//! Reads a line byte by byte, and nothing after it. Read [`read_line`] first.

ghost use Rattle.std.specs.Prelude.{◌≡◌, ◌+◌, ◌<◌, ◌≤◌, [], ◌∷◌, length, vec_len, false, ◌++◌, OnOk, OnErr, IfOk, IfErr, MatchOption, ◌⊎◌};
ghost use Rattle.std.specs.Io.KnownBytes.{Consumes, IsAtEnd, Keeps};
ghost use Rattle.radio_script.specs.Devices.{bumped};
ghost use Rattle.radio_script.specs.Reading.{reader_failures, ReadsLine};
ghost use Rattle.radio_script.specs.Limits.{max_line};

use crate::devices::CountedRead;
use crate::{MAX_LINE, OutOfMemory, PlayFault};
use std::io;

/// What the reading of a line found.
#[derive(Clone, Copy)]
pub enum LineRead {
    /// A line and its line feed.
    Whole,
    /// The last line, without a line feed. The reader is at its end.
    Last,
    /// No byte. The reader is at its end.
    Nothing,
    /// One byte more than a line may have.
    TooLong,
}

/// Reads a line into `line`, without its line feed. The errors are `Read` if the reader
/// failed, and `OutOfMemory` if memory was refused. There is no other error.
pub fn read_line<R: CountedRead>(reader: &mut R, line: &mut Vec<u8>) -> Result<LineRead, PlayFault>
    ensures reads { ReadsLine (R.remaining reader.old) (R.remaining reader.new)
        result line.new.items }

    // One call for each byte of the longest line, and one for its line feed.
    ensures calls { R.calls reader.new ≤ R.calls reader.old + (max_line + 1) }
    ensures failures { R.failures reader.new ≡ reader_failures result (R.failures reader.old) }
{
    line.clear();
    while line.len() < MAX_LINE {
        match next_of_line(reader) {
            Err(fault) => return Err(fault),
            Ok(None) => return Ok(end_of_input(line)),
            Ok(Some(b'\n')) => return Ok(LineRead::Whole),
            Ok(Some(byte)) => {
                if append_byte(line, byte).is_err() {
                    return Err(PlayFault::OutOfMemory);
                }
            }
        }
    }
    match next_of_line(reader) {
        Err(fault) => Err(fault),
        Ok(None) => Ok(LineRead::Last),
        Ok(Some(b'\n')) => Ok(LineRead::Whole),
        Ok(Some(_)) => Ok(LineRead::TooLong),
    }
}

fn end_of_input(line: &[u8]) -> LineRead
    ensures nothing { result ≡ LineRead.Nothing → length line.now ≡ 0 }
    ensures last { result ≡ LineRead.Last → 0 < length line.now }
    ensures others { (result ≡ LineRead.Nothing) ⊎ (result ≡ LineRead.Last) }
{
    if line.is_empty() {
        LineRead::Nothing
    } else {
        LineRead::Last
    }
}

/// Appends a byte to a line. Most bytes find room, which costs little.
fn append_byte(line: &mut Vec<u8>, byte: u8) -> Result<(), OutOfMemory>
    ensures ok { OnOk result (line.new.items ≡ line.old.items ++ byte ∷ []) }
    ensures err { OnErr result (line.new.items ≡ line.old.items) }
{
    if line.len() < line.capacity() {
        line.push_reserved(byte);
        return Ok(());
    }
    line.extend_from_slice(&[byte])
}

/// Reads one byte of a line by one call of the reader. `Ok(None)` is the reader's end. The error is `Read`.
fn next_of_line<R: CountedRead>(reader: &mut R) -> Result<Option<u8>, PlayFault>
    ensures byte { IfOk result (λ next. MatchOption next
        (Consumes (R.remaining reader.old) (R.remaining reader.new) []
        × IsAtEnd (R.remaining reader.new))
        (λ byte. Consumes (R.remaining reader.old) (R.remaining reader.new) (byte ∷ []))) }
    ensures err { OnErr result (Keeps (R.remaining reader.old) (R.remaining reader.new)) }
    ensures fault { IfErr result (λ fault. fault ≡ PlayFault.Read) }
    ensures called { R.calls reader.new ≡ bumped (R.calls reader.old) }
    ensures sound { OnOk result (R.failures reader.new ≡ R.failures reader.old) }
    ensures failed { OnErr result (R.failures reader.new ≡ bumped (R.failures reader.old)) }
{
    match reader.take_held() {
        Some(byte) => Ok(Some(byte)),
        None => call_for_byte(reader),
    }
}

/// Reads one byte of a line of which the reader holds nothing, as `next_of_line` does. It is a call of its own, since the
/// error of a reader is large.
#[inline(never)]
fn call_for_byte<R: CountedRead>(reader: &mut R) -> Result<Option<u8>, PlayFault>
    ensures called { R.calls reader.new ≡ bumped (R.calls reader.old) }
    ensures byte { IfOk result (λ next. MatchOption next
        (Consumes (R.remaining reader.old) (R.remaining reader.new) []
        × IsAtEnd (R.remaining reader.new))
        (λ byte. Consumes (R.remaining reader.old) (R.remaining reader.new) (byte ∷ []))) }
    ensures sound { OnOk result (R.failures reader.new ≡ R.failures reader.old) }
    ensures err { OnErr result (Keeps (R.remaining reader.old) (R.remaining reader.new)) }
    ensures failed { OnErr result (R.failures reader.new ≡ bumped (R.failures reader.old)) }
    ensures fault { IfErr result (λ fault. fault ≡ PlayFault.Read) }
{
    match next_byte(reader) {
        Ok(next) => Ok(next),
        Err(_) => Err(PlayFault::Read),
    }
}

/// Reads one byte by one call of the reader. `Ok(None)` is the reader's end.
pub fn next_byte<R: CountedRead>(reader: &mut R) -> io::Result<Option<u8>>
    ensures byte { IfOk result (λ next. MatchOption next
        (Consumes (R.remaining reader.old) (R.remaining reader.new) []
        × IsAtEnd (R.remaining reader.new))
        (λ byte. Consumes (R.remaining reader.old) (R.remaining reader.new) (byte ∷ []))) }
    ensures err { OnErr result (Keeps (R.remaining reader.old) (R.remaining reader.new)) }
    ensures called { R.calls reader.new ≡ bumped (R.calls reader.old) }
    ensures sound { OnOk result (R.failures reader.new ≡ R.failures reader.old) }
    ensures failed { OnErr result (R.failures reader.new ≡ bumped (R.failures reader.old)) }
{
    let mut buffer = [0];
    let n = reader.read_counted(&mut buffer)?;
    if n == 0 {
        Ok(None)
    } else {
        Ok(Some(buffer[0]))
    }
}
