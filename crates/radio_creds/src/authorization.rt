//! Basic credentials in the value of a header `Authorization`.
ghost use Rattle.std.specs.Prelude.{◌≡◌, ◌↔◌, Some, IfOk, IfSome};
ghost use Rattle.std.specs.Option.{option_copied, option_map};
ghost use Rattle.base64.specs.Engines.{standard};
ghost use Rattle.base64.specs.GeneralPurpose.{IsBytes, decoded_of, encode_of};
ghost use Rattle.radio_creds.specs.Credentials.{Credentials};
ghost use Rattle.radio_creds.specs.Authorization.{IsBasicPair, basic_pair, basic_text, without_spaces};

use crate::OutOfMemory;
use crate::pair::Pair;
use base64::DecodeAllocError;
use base64::engine::general_purpose::STANDARD;
use radio_texts::laws::cuts;
use std::alloc::{AllocError, Global};

const SCHEME: &[u8] = b"Basic";

/// The pair in the value of a header `Authorization` (RFC 7617, section 2).
///
/// The value is the scheme `Basic` in any ASCII case, one or more spaces, and padded base64 of the standard alphabet
/// (RFC 4648, section 4). What it decodes to is cut at its first colon into the user and the password. `None` for
/// every other value: another scheme, no space after it, anything else around the base64, no padding, bits that are
/// left over, or no colon.
///
/// `Err` if there is no memory for the decoded bytes.
// rule: Authorization
pub fn basic(alloc: Global, value: &[u8]) -> Result<Option<Pair>, OutOfMemory>
    // A pair is found exactly if the value is one by the standard, and it is that pair.
    ensures exact { IfOk result (λ found.
        (pair : Credentials) → (found ≡ Some pair) ↔ IsBasicPair value.now pair) }
    // The same as a function of the value.
    ensures pair { IfOk result (λ found. found ≡ basic_pair value.now) }
{
    cuts();
    let Some(text) = basic_text(value) else {
        return Ok(None);
    };
    let Some(credentials) = decoded(alloc, text)? else {
        return Ok(None);
    };
    Ok(Pair::of_text(credentials))
}

/// Returns the bytes of a padded base64 text. `None` if it is no such text.
fn decoded(alloc: Global, text: &[u8]) -> Result<Option<Vec<u8>>, OutOfMemory>
    ensures value { IfOk result (λ found. option_map (λ v. v.items) found ≡ decoded_of standard text.now) }
    ensures encoded { IfOk result (λ found. IfSome found (λ v. text.now ≡ encode_of standard v.items)) }
    ensures bytes { IfOk result (λ found. IfSome found (λ v. IsBytes v.items)) }
{
    match STANDARD.decode(alloc, text) {
        Ok(bytes) => Ok(Some(bytes)),
        Err(DecodeAllocError::OutOfMemory) => Err(AllocError),
        Err(DecodeAllocError::DecodeError(_)) => Ok(None),
    }
}

/// Returns what follows the scheme `Basic` and the spaces after it.
fn basic_text(value: &[u8]) -> Option<&[u8]>
    ensures { option_copied result ≡ basic_text value.now }
{
    if value.len() <= SCHEME.len() {
        return None;
    }
    let (scheme, rest) = value.split_at(SCHEME.len());
    if !scheme.eq_ignore_ascii_case(SCHEME) || rest[0] != b' ' {
        return None;
    }
    Some(without_spaces(rest))
}

/// Returns what follows the spaces at the front.
fn without_spaces(text: &[u8]) -> &[u8]
    ensures { result.now ≡ without_spaces text.now }
{
    let mut rest = text;
    while let [b' ', after @ ..] = rest {
        rest = after;
    }
    rest
}
