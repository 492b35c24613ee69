//! The title in the text of a metadata block.
ghost use Rattle.std.specs.Prelude.{◌≡◌};
ghost use Rattle.std.specs.Option.{option_copied};
ghost use Rattle.radio_icy.specs.Titles.{ends_title, title_of};

use crate::block::{AFTER_TITLE, BEFORE_TITLE};

const BEFORE_URL: &[u8] = b"StreamUrl=";

/// The title in the text of a metadata block, as `X` in `StreamTitle='X';`.
///
/// A title may itself have `';` in it: it ends at the first `';` that the text's end or `StreamUrl=` follows.
/// `None` if the text does not begin with `StreamTitle='`, or has no such end.
// rule: Title of a block
pub fn title_of(text: &[u8]) -> Option<&[u8]>
    ensures { option_copied result ≡ title_of text.now }
{
    if !text.starts_with(BEFORE_TITLE) {
        return None;
    }
    let (_, text) = text.split_at(BEFORE_TITLE.len());
    for end in 0..text.len() {
        let (title, rest) = text.split_at(end);
        if ends_title(rest) {
            return Some(title);
        }
    }
    None
}

#[tactic(auto, unfolding(crate::specs::Titles::ends_title))]
fn ends_title(text: &[u8]) -> bool
    ensures { result ≡ ends_title text.now }
{
    if !text.starts_with(AFTER_TITLE) {
        return false;
    }
    let (_, rest) = text.split_at(AFTER_TITLE.len());
    rest.is_empty() || rest.starts_with(BEFORE_URL)
}
