//! The arguments of a query (WHATWG URL Standard, section 5.1).
ghost use Rattle.std.specs.Prelude.{◌≡◌, IfOk};
ghost use Rattle.std.specs.Option.{option_map};
ghost use Rattle.std.specs.String.{string_bytes};
ghost use Rattle.std.specs.Str.{bytes_eq};
ghost use Rattle.std.specs.Cow.{cow_str_bytes};
ghost use Rattle.radio_admin.specs.Arguments.{argument, text_of};

use crate::OutOfMemory;
use form_urlencoded::{decode, raw_pairs};
use std::alloc::Global;
use std::borrow::CowStr;

/// The first argument of a name, decoded; `None` if there is none of that name.
#[tactic(auto, unfolding(crate::specs::Arguments::argument))]
pub fn argument(alloc: Global, name: &str, query: &[u8]) -> Result<Option<String>, OutOfMemory>
    ensures { IfOk result (λ found. option_map (λ text. string_bytes text) found ≡ argument name.now query.now) }
{
    for (sent_name, sent_value) in raw_pairs(query) {
        if is_named(alloc, sent_name, name)? {
            return Ok(Some(text_in(alloc, sent_value)?));
        }
    }
    Ok(None)
}

/// Whether an encoded name is this one.
fn is_named(alloc: Global, sent_name: &[u8], name: &str) -> Result<bool, OutOfMemory>
    ensures { IfOk result (λ yes. yes ≡ bytes_eq (text_of sent_name.now) name.now) }
{
    let text = text_of(alloc, sent_name)?;
    Ok(text.as_str() == name)
}

/// Returns the text of an encoded value, copied.
fn text_in(alloc: Global, sent: &[u8]) -> Result<String, OutOfMemory>
    ensures { IfOk result (λ text. string_bytes text ≡ text_of sent.now) }
{
    text_of(alloc, sent)?.into_owned(alloc)
}

/// Returns the text of an encoded name or value.
#[tactic(auto, unfolding(crate::specs::Arguments::text_of))]
fn text_of(alloc: Global, sent: &[u8]) -> Result<CowStr<'_>, OutOfMemory>
    ensures { IfOk result (λ text. cow_str_bytes text ≡ text_of sent.now) }
{
    decode(alloc, sent)
}
