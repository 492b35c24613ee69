//! How bytes are written in a line of text: `\r`, `
//! `, `\\`, `\xHH`, and 0x20 to 0x7E without the
//! backslash as they are. Read [`unescape`] and [`push_escaped`] first.

ghost use Rattle.std.specs.Prelude.{◌≡◌, ◌<◌, ◌++◌, IfOk, OnOk, OnErr, IfSome, MatchOption, None, Some};
ghost use Rattle.std.specs.Option.{option_to_list};
ghost use Rattle.std.specs.Char.{digit_char};
ghost use Rattle.std.specs.Io.{StartsWith};
ghost use Rattle.radio_script.specs.Escapes.{escape_of, escaped, hex_value_of, step_at, unescaped};

use crate::OutOfMemory;
use bytes::Bytes;
use std::alloc::Global;

/// What the reading of a text expects next.
#[derive(Clone, Copy)]
pub enum EscapePlace {
    /// The first byte of an escape, or a byte that is written as it is.
    Between,
    /// The byte after a backslash.
    Escape,
    /// The first digit after `\x`.
    High,
    /// The second digit after `\xH`. It has the first digit.
    Low(u8),
}

/// Returns the bytes that a text writes. `None` if a backslash begins no escape, or if the text has
/// a byte that is neither a backslash nor of 0x20 to 0x7E. `OutOfMemory` if memory was refused.
// rule: Escapes
pub fn unescape(alloc: Global, text: &[u8]) -> Result<Option<Bytes>, OutOfMemory>
    ensures { IfOk result (λ bytes. bytes ≡ unescaped text.now) }
{
    let mut bytes = Vec::new(alloc);
    let mut place = EscapePlace::Between;
    for b in text {
        match take_byte(&mut bytes, place, *b)? {
            Some(next) => place = next,
            None => return Ok(None),
        }
    }
    match place {
        EscapePlace::Between => Ok(Some(Bytes::from_vec(bytes)?)),
        EscapePlace::Escape | EscapePlace::High | EscapePlace::Low(_) => Ok(None),
    }
}

// Takes the next byte of a text. Adds the byte that it completes, if any, and returns what the
// reading expects next.
fn take_byte(
    bytes: &mut Vec<u8>,
    place: EscapePlace,
    b: u8,
) -> Result<Option<EscapePlace>, OutOfMemory>
    ensures { IfOk result (λ next. MatchOption (step_at place b)
        (next ≡ None)
        (λ step. (next ≡ Some step.0)
        × (bytes.new.items ≡ bytes.old.items ++ option_to_list step.1))) }
{
    let Some((next, whole)) = step(place, b) else {
        return Ok(None);
    };
    if let Some(byte) = whole {
        bytes.push(byte)?;
    }
    Ok(Some(next))
}

fn step(place: EscapePlace, b: u8) -> Option<(EscapePlace, Option<u8>)>
    ensures { result ≡ step_at place b }
{
    match place {
        EscapePlace::Between => step_between(b),
        EscapePlace::Escape => step_behind_backslash(b),
        EscapePlace::High => step_to_low(b),
        EscapePlace::Low(high) => step_behind_digits(high, b),
    }
}

fn step_between(b: u8) -> Option<(EscapePlace, Option<u8>)>
    ensures { result ≡ step_at EscapePlace.Between b }
{
    match b {
        b'\\' => Some((EscapePlace::Escape, None)),
        b' '..=b'~' => Some((EscapePlace::Between, Some(b))),
        _ => None,
    }
}

fn step_behind_backslash(b: u8) -> Option<(EscapePlace, Option<u8>)>
    ensures { result ≡ step_at EscapePlace.Escape b }
{
    match b {
        b'r' => Some((EscapePlace::Between, Some(b'\r'))),
        b'n' => Some((EscapePlace::Between, Some(b'\n'))),
        b'\\' => Some((EscapePlace::Between, Some(b'\\'))),
        b'x' => Some((EscapePlace::High, None)),
        _ => None,
    }
}

fn step_to_low(b: u8) -> Option<(EscapePlace, Option<u8>)>
    ensures { result ≡ step_at EscapePlace.High b }
{
    let _ = hex_value(b)?;
    Some((EscapePlace::Low(b), None))
}

fn step_behind_digits(high: u8, low: u8) -> Option<(EscapePlace, Option<u8>)>
    ensures { result ≡ step_at (EscapePlace.Low high) low }
{
    let first = hex_value(high)?;
    let second = hex_value(low)?;
    Some((EscapePlace::Between, Some(first * 16 + second)))
}

// Returns the value of a hexadecimal digit in either case.
fn hex_value(b: u8) -> Option<u8>
    ensures value { result ≡ hex_value_of b }
    ensures small { IfSome result (λ value. value < 16) }
{
    match b {
        b'0'..=b'9' => Some(b - b'0'),
        b'A'..=b'F' => Some(b - b'A' + 10),
        b'a'..=b'f' => Some(b - b'a' + 10),
        _ => None,
    }
}

/// Appends the text that writes the bytes. After an `Err` a part of that text may be at the end.
// rule: Escapes
pub fn push_escaped(text: &mut Vec<u8>, bytes: &[u8]) -> Result<(), OutOfMemory>
    ensures ok { OnOk result (text.new.items ≡ text.old.items ++ escaped bytes.now) }
    ensures front { StartsWith text.new.items text.old.items }
{
    for b in bytes {
        push_escape(text, *b)?;
    }
    Ok(())
}

fn push_escape(text: &mut Vec<u8>, b: u8) -> Result<(), OutOfMemory>
    ensures ok { OnOk result (text.new.items ≡ text.old.items ++ escape_of b) }
    ensures err { OnErr result (text.new.items ≡ text.old.items) }
{
    match b {
        b'\r' => text.extend_from_slice(b"\\r"),
        b'\n' => text.extend_from_slice(b"\\n"),
        b'\\' => text.extend_from_slice(b"\\\\"),
        b' '..=b'~' => text.extend_from_slice(&[b]),
        _ => text.extend_from_slice(&[b'\\', b'x', hex_digit(b / 16), hex_digit(b % 16)]),
    }
}

// Returns the hexadecimal digit of a value, in lower case.
fn hex_digit(value: u8) -> u8
    requires { value < 16 }
    ensures { result ≡ digit_char value }
{
    if value < 10 {
        b'0' + value
    } else {
        b'a' + (value - 10)
    }
}
