//! The place at which a text is not TOML.

ghost use Rattle.std.specs.Prelude.{◌≡◌};
ghost use Rattle.radio_startup.specs.Columns.{column_after, column_behind, line_after, line_behind};
ghost use Rattle.radio_startup.specs.Misreadings.{IsMisreadAt};

use crate::fault::FileFault;
use std::alloc::Global;

/// Why a text is not TOML, and at which character of which line, both counted from 1.
#[derive(Drop)]
pub struct Misreading {
    pub line: usize,
    pub column: usize,
    pub reason: String,
}

/// A text is not TOML for this reason, from the byte at this place on.
pub fn misread(alloc: Global, text: &[u8], place: usize, reason: &str) -> FileFault
    ensures { IsMisreadAt text.now place reason.now result }
{
    let before = &text[..place.min(text.len())];
    match String::from_str(alloc, reason) {
        Ok(reason) => FileFault::NotToml(Misreading {
            line: line_behind(before),
            column: column_behind(before),
            reason,
        }),
        Err(_) => FileFault::OutOfMemory,
    }
}

/// Returns the line after these bytes, counted from 1.
fn line_behind(before: &[u8]) -> usize
    ensures { result ≡ line_behind before.now }
{
    let mut line: usize = 1;
    for byte in before {
        line = next_line(line, *byte);
    }
    line
}

/// Returns the line after a byte of this one.
fn next_line(line: usize, byte: u8) -> usize
    ensures { result ≡ line_after line byte }
{
    if byte == b'\n' {
        line.saturating_add(1)
    } else {
        line
    }
}

/// Returns the column after these bytes: the character of its line, counted from 1.
fn column_behind(before: &[u8]) -> usize
    ensures { result ≡ column_behind before.now }
{
    let mut column: usize = 1;
    for byte in before {
        column = next_column(column, *byte);
    }
    column
}

/// Returns the column after a byte of UTF-8 at this one.
fn next_column(column: usize, byte: u8) -> usize
    ensures { result ≡ column_after column byte }
{
    match byte {
        b'\n' => 1,
        0x80..=0xbf => column,
        _ => column.saturating_add(1),
    }
}
