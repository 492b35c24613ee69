//! Values of headers.
ghost use Rattle.std.specs.Prelude.{◌≡◌, ◌↔◌, ℕ, List, IsSome, IfSome, IsTrue};
ghost use Rattle.httparse.specs.Grammar.{is_value_byte};
ghost use Rattle.radio_heads.specs.FieldValue.{IsFieldText};

use std::marker::Model;

/// A value that a header may have: bytes without a control byte but tabs (RFC 9110, section 5.5). So it holds no CR and
/// no LF, and is one line.
///
/// [`FieldValue::new`] and [`FieldValue::read`] are the calls that make one. A contract sees its bytes.
#[derive(Drop)]
pub struct FieldValue<'a> {
    bytes: &'a [u8],
}

impl<'a> Model for FieldValue<'a> {
    ghost use Rattle.std.specs.Prelude.{ℕ, List};
    ghost use Rattle.radio_heads.specs.FieldValue.{IsFieldText};

    ghost Value = { List ℕ };

    ghost view = { λ v. v.bytes.now };

    ghost invariant = { λ v. IsFieldText v.bytes.now };
}

impl<'a> FieldValue<'a> {
    /// The value of these bytes, of which a caller knows that they may be one.
    pub fn new(bytes: &'a [u8]) -> FieldValue<'a>
        requires { IsFieldText bytes.now }
        ensures { result ≡ bytes.now }
    {
        FieldValue { bytes }
    }

    /// The value of these bytes; `None` if a header may not have them.
    // rule: Answers are read back
    pub fn read(bytes: &'a [u8]) -> Option<FieldValue<'a>>
        ensures may { IsSome result ↔ IsFieldText bytes.now }
        ensures value { IfSome result (λ value. value ≡ bytes.now) }
    {
        if is_field_text(bytes) {
            Some(FieldValue { bytes })
        } else {
            None
        }
    }

    /// Its bytes.
    pub fn as_bytes(&self) -> &'a [u8]
        ensures value { result.now ≡ self.now }
        ensures clean { IsFieldText self.now }
    {
        self.bytes
    }
}

/// Whether a header may have these bytes as its value.
fn is_field_text(bytes: &[u8]) -> bool
    ensures { IsTrue result ↔ IsFieldText bytes.now }
{
    bytes.iter().all(|byte| is_field_byte(*byte))
}

fn is_field_byte(byte: u8) -> bool
    ensures { result ≡ is_value_byte byte }
{
    byte == b'\t' || (b' ' <= byte && byte != 0x7f)
}
