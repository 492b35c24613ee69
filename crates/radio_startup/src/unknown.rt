//! What standard error says of a key that is passed over.

ghost use Rattle.std.specs.Prelude.{◌≡◌, IfSome};
ghost use Rattle.std.specs.String.{string_bytes};
ghost use Rattle.radio_startup.specs.Sayings.{hint_of, space_before, words_of_unknown};

use radio_review::{Meant, UnknownKey};
use radio_values::Field;
use std::alloc::Global;

/// Returns what a line on standard error says of a key that is passed over; `None` if memory is refused. Of a key that has control
/// characters they are left out.
pub fn words_of_unknown(alloc: Global, unknown: &UnknownKey) -> Option<String>
    ensures { IfSome result (λ words. string_bytes words ≡ words_of_unknown unknown.now) }
{
    let Ok(key) = Field::clean(alloc, unknown.key.as_bytes()) else {
        return None;
    };
    let table = unknown.section.word();
    let mount = unknown.mount.as_str();
    let line = unknown.line;
    let space = space_before(mount);
    let (front, word, end) = hint_of(unknown.meant);
    match format!(in alloc;
        "unknown key {} in {table}{space}{mount}, line {line}{front}{word}{end}",
        key.as_str()
    ) {
        Ok(words) => Some(words),
        Err(_) => None,
    }
}

/// Returns the space before the name of a mount, if there is one.
fn space_before(mount: &str) -> &'static str
    ensures { result.now ≡ space_before mount.now }
{
    if mount.is_empty() { "" } else { " " }
}

/// Returns what may have been meant, between the words around it.
fn hint_of(meant: Meant) -> (&'static str, &'static str, &'static str)
    ensures front { result.0.now ≡ (hint_of meant).0 }
    ensures word { result.1.now ≡ (hint_of meant).1 }
    ensures end { result.2.now ≡ (hint_of meant).2 }
{
    match meant {
        Meant::At(section) => (": it belongs to ", section.word(), ""),
        Meant::Key(key) => (": did you mean ", key.word(), "?"),
        Meant::Nothing => ("", "", ""),
    }
}
