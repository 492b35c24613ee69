//! How the bytes of a value are written in a line.
ghost use Rattle.std.specs.Prelude.{◌≡◌, ◌++◌, OnOk, decimal, not, position};
ghost use Rattle.radio_log.specs.Shown.{is_plain, shown_value};

use crate::OutOfMemory;
use itoa::Buffer;
use percent_encoding::percent_encode_byte;

/// Adds the bytes of a value: plain ones as they are, and `%` with two digits for each other.
pub(crate) fn push_shown(line: &mut Vec<u8>, value: &[u8]) -> Result<(), OutOfMemory>
    ensures { OnOk result (line.new.items ≡ line.old.items ++ shown_value value.now) }
{
    let mut rest = value;
    'runs: while let Some(at) = first_encoded(rest) {
        line.extend_from_slice(&rest[..at])?;
        line.extend_from_slice(percent_encode_byte(rest[at]).as_bytes())?;
        rest = &rest[at + 1..];
    }
    line.extend_from_slice(rest)
}

/// Adds a number. Its digits are plain bytes.
#[tactic(auto, using(crate::proofs::RunLemmas::count_shown))]
pub(crate) fn push_count(line: &mut Vec<u8>, number: u64) -> Result<(), OutOfMemory>
    ensures { OnOk result (line.new.items ≡ line.old.items ++ shown_value (decimal number)) }
{
    let mut digits = Buffer::new();
    line.extend_from_slice(digits.format(number).as_bytes())
}

/// Returns the place of the first byte that is not plain.
fn first_encoded(value: &[u8]) -> Option<usize>
    ensures { result ≡ position (λ b. not (is_plain b)) value.now }
{
    value.iter().position(|byte| !is_plain(*byte))
}

/// Whether a byte is plain: written as it is.
fn is_plain(byte: u8) -> bool
    ensures { result ≡ is_plain byte }
{
    b'!' <= byte && byte <= b'~' && byte != b'%'
}
