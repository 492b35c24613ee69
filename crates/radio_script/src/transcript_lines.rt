//! Writes the lines of a transcript. Read [`push_answer`] first.

ghost use Rattle.std.specs.Prelude.{◌≡◌, ◌∷◌, ◌++◌, [], OnOk, OnErr};
ghost use Rattle.std.specs.Fmt.{decimal};
ghost use Rattle.std.specs.Io.{StartsWith};
ghost use Rattle.std.specs.Option.{option_copied};
ghost use Rattle.radio_script.specs.TranscriptLines.{answer_lines, out_line, out_lines, shut_line};

use crate::OutOfMemory;
use crate::escapes::push_escaped;
use itoa::Buffer;

/// Appends the lines of a delivery to a connection. There is an `out` line if bytes were written, and then a
/// `shut` line with its word if the connection was shut. `OutOfMemory` if memory was refused; then the
/// lines are unchanged.
pub fn push_answer(
    lines: &mut Vec<u8>,
    label: u32,
    bytes: &[u8],
    word: Option<&str>,
) -> Result<(), OutOfMemory>
    ensures ok { OnOk result (lines.new.items
        ≡ lines.old.items ++ answer_lines label bytes.now (option_copied word.entry)) }
    ensures err { OnErr result (lines.new.items ≡ lines.old.items) }
{
    let start = lines.len();
    let result = append_answer(lines, label, bytes, word);
    if result.is_err() {
        lines.truncate(start);
    }
    result
}

#[tactic(auto, unfolding(crate::specs::TranscriptLines::answer_lines))]
fn append_answer(
    lines: &mut Vec<u8>,
    label: u32,
    bytes: &[u8],
    word: Option<&str>,
) -> Result<(), OutOfMemory>
    ensures ok { OnOk result (lines.new.items
        ≡ lines.old.items ++ answer_lines label bytes.now (option_copied word.entry)) }
    ensures front { StartsWith lines.new.items lines.old.items }
{
    append_out_lines(lines, label, bytes)?;
    match word {
        None => Ok(()),
        Some(word) => append_shut_line(lines, label, word),
    }
}

fn append_out_lines(lines: &mut Vec<u8>, label: u32, bytes: &[u8]) -> Result<(), OutOfMemory>
    ensures ok { OnOk result (lines.new.items ≡ lines.old.items ++ out_lines label bytes.now) }
    ensures front { StartsWith lines.new.items lines.old.items }
{
    match bytes {
        [] => Ok(()),
        _ => append_out_line(lines, label, bytes),
    }
}

#[tactic(auto, unfolding(crate::specs::TranscriptLines::out_line))]
fn append_out_line(lines: &mut Vec<u8>, label: u32, bytes: &[u8]) -> Result<(), OutOfMemory>
    ensures ok { OnOk result (lines.new.items ≡ lines.old.items ++ out_line label bytes.now) }
    ensures front { StartsWith lines.new.items lines.old.items }
{
    append_labelled(lines, b"out ", label)?;
    push_escaped(lines, bytes)?;
    append(lines, b"\n")
}

#[tactic(auto, unfolding(crate::specs::TranscriptLines::shut_line))]
fn append_shut_line(lines: &mut Vec<u8>, label: u32, word: &str) -> Result<(), OutOfMemory>
    ensures ok { OnOk result (lines.new.items ≡ lines.old.items ++ shut_line label word.now) }
    ensures front { StartsWith lines.new.items lines.old.items }
{
    append_labelled(lines, b"shut ", label)?;
    append(lines, word.as_bytes())?;
    append(lines, b"\n")
}

// Appends the front of a line: its kind and the connection's label, each followed by a space.
fn append_labelled(lines: &mut Vec<u8>, kind: &[u8], label: u32) -> Result<(), OutOfMemory>
    ensures ok { OnOk result (lines.new.items
        ≡ lines.old.items ++ (kind.now ++ decimal label ++ 32 ∷ [])) }
    ensures front { StartsWith lines.new.items lines.old.items }
{
    let mut digits = Buffer::new();
    append(lines, kind)?;
    append(lines, digits.format(label).as_bytes())?;
    append(lines, b" ")
}

fn append(lines: &mut Vec<u8>, text: &[u8]) -> Result<(), OutOfMemory>
    ensures ok { OnOk result (lines.new.items ≡ lines.old.items ++ text.now) }
    ensures front { StartsWith lines.new.items lines.old.items }
{
    lines.extend_from_slice(text)
}
