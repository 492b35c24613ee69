//! Bytes that a listing shows as text.
ghost use Rattle.std.specs.Prelude.{◌≡◌, IfOk};
ghost use Rattle.std.specs.Str.Lossy.{utf8_lossy};
ghost use Rattle.std.specs.String.{string_bytes};

use crate::OutOfMemory;
use std::alloc::Global;
use std::marker::Model;

/// Bytes that a listing shows as text: a name, a title, a user. They may be any bytes; what is not UTF-8 in them is shown
/// as U+FFFD.
///
/// In contracts a text is its bytes.
#[derive(Drop)]
pub struct ListedText<'a> {
    bytes: &'a [u8],
}

impl<'a> Model for ListedText<'a> {
    ghost use Rattle.std.specs.Prelude.{ℕ, List};

    ghost Value = { List ℕ };

    ghost view = { λ text. text.bytes.now };
}

impl<'a> ListedText<'a> {
    /// The text of these bytes.
    pub fn of(bytes: &'a [u8]) -> ListedText<'a>
        ensures { result ≡ bytes.now }
    {
        ListedText { bytes }
    }

    /// Its bytes.
    pub fn as_bytes(&self) -> &'a [u8]
        ensures { result.now ≡ self.now }
    {
        self.bytes
    }

    /// Its text, with U+FFFD for what is not UTF-8.
    pub(crate) fn shown(&self, alloc: Global) -> Result<String, OutOfMemory>
        ensures { IfOk result (λ text. string_bytes text ≡ utf8_lossy self.now) }
    {
        String::from_utf8_lossy(alloc, self.bytes)
    }
}
