//! Writes a whole text.

ghost use Rattle.std.specs.Prelude.{◌≡◌, ◌+◌, ◌≤◌, ℕ, true, length, take, OnOk, OnErr};
ghost use Rattle.std.specs.Io.KnownBytes.{Appends};
ghost use Rattle.radio_script.specs.Devices.{bumped};

use crate::devices::CountedWrite;
use std::io;

/// Writes the whole text, and flushes the writer. An `Err` is
/// the writer's first failure; then only a front of the text was written.
pub fn write_whole<W: CountedWrite>(writer: &mut W, text: &[u8]) -> io::Result<()>
    ensures ok { OnOk result (Appends (W.contents writer.old) (W.contents writer.new) text.now) }
    ensures err { OnErr result ((n : ℕ)
        × Appends (W.contents writer.old) (W.contents writer.new) (take n text.now)) }

    // Each call takes at least one byte, or is the last call.
    ensures calls { W.calls writer.new ≤ W.calls writer.old + length text.now }

    ensures sound { OnOk result (W.failures writer.new ≡ W.failures writer.old) }
    ensures failed { OnErr result (W.failures writer.new ≡ bumped (W.failures writer.old)) }
    ensures flushed { OnOk result (W.is_flushed writer.new ≡ true) }
{
    let mut done = 0;
    while done < text.len() {
        done += writer.write_counted(&text[done..])?;
    }
    writer.flush_counted()
}
