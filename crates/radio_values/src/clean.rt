//! Texts from outside, made fit to be shown and woven.
ghost use Rattle.std.specs.Prelude.{◌≡◌, ◌≤◌, IfOk, filter, encode_utf8_all};
ghost use Rattle.std.specs.Str.{chars};
ghost use Rattle.std.specs.String.{string_bytes, string_len};
ghost use Rattle.radio_values.specs.Cleaning.{cleaned, front_within, is_shown};
ghost use Rattle.radio_values.specs.Limits.{max_title, max_field};

use crate::{MAX_FIELD, MAX_TITLE, OutOfMemory};
use std::alloc::Global;

/// A title from outside as a text that can be woven.
///
/// The bytes are read as UTF-8, with U+FFFD for each part that is none. Characters below U+0020 and U+007F are left out,
/// and of what remains the longest front of at most [`MAX_TITLE`] bytes is kept that ends between two characters.
/// An `Err` means that memory ran out.
// rule: Cleaned texts
pub fn clean_title(alloc: Global, bytes: &[u8]) -> Result<String, OutOfMemory>
    ensures text { IfOk result (λ text. string_bytes text ≡ cleaned max_title bytes.now) }
    ensures fits { IfOk result (λ text. string_len text ≤ max_title) }
{
    clean(alloc, bytes, MAX_TITLE)
}

/// A stream's name, genre or type from outside as a text that can be shown: cleaned like a title, to at most
/// [`MAX_FIELD`] bytes. An `Err` means that memory ran out.
// rule: Cleaned texts
pub fn clean_field(alloc: Global, bytes: &[u8]) -> Result<String, OutOfMemory>
    ensures text { IfOk result (λ text. string_bytes text ≡ cleaned max_field bytes.now) }
    ensures fits { IfOk result (λ text. string_len text ≤ max_field) }
{
    clean(alloc, bytes, MAX_FIELD)
}

#[tactic(auto, unfolding(crate::specs::Cleaning::cleaned))]
fn clean(alloc: Global, bytes: &[u8], most: usize) -> Result<String, OutOfMemory>
    ensures text { IfOk result (λ text. string_bytes text ≡ cleaned most bytes.now) }
    ensures fits { IfOk result (λ text. string_len text ≤ most) }
{
    let text = String::from_utf8_lossy(alloc, bytes)?;
    shown_front(alloc, text.as_str(), most)
}

fn shown_front(alloc: Global, text: &str, most: usize) -> Result<String, OutOfMemory>
    ensures made { let shown = filter is_shown (chars text.now) in
        IfOk result (λ made. string_bytes made ≡ encode_utf8_all (front_within most shown)) }
    ensures fits { IfOk result (λ made. string_len made ≤ most) }
{
    let mut made = String::new(alloc);
    for c in text.chars() {
        if is_shown(c) {
            if most - made.len() < c.len_utf8() {
                return Ok(made);
            }
            made.push(c)?;
        }
    }
    Ok(made)
}

fn is_shown(c: char) -> bool
    ensures { result ≡ is_shown c }
{
    ' ' <= c && c != '\u{7f}'
}
