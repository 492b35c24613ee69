//! What others have said of themselves.
ghost use Rattle.std.specs.Prelude.{◌≡◌};

use std::marker::Model;

/// What others have said: a name, a path, a title. It may be any bytes, and is empty where nothing was said.
///
/// In contracts a text is its bytes.
#[derive(Drop)]
pub struct QuotedText<'a> {
    bytes: &'a [u8],
}

impl<'a> Model for QuotedText<'a> {
    ghost use Rattle.std.specs.Prelude.{ℕ, List};

    ghost Value = { List ℕ };

    ghost view = { λ text. text.bytes.now };
}

impl<'a> QuotedText<'a> {
    /// The text of these bytes.
    pub fn of(bytes: &'a [u8]) -> QuotedText<'a>
        ensures { result ≡ bytes.now }
    {
        QuotedText { bytes }
    }

    /// Its bytes.
    pub fn as_bytes(&self) -> &'a [u8]
        ensures { result.now ≡ self.now }
    {
        self.bytes
    }
}
