//! Whose pages may read what the server answers.
ghost use Rattle.std.specs.Prelude.{◌≡◌, IfOk, MatchOption, true, false};
ghost use Rattle.std.specs.List.{list_all};
ghost use Rattle.radio_values.specs.AllowedOrigin.{is_allowed_origin, is_visible};

use crate::OutOfMemory;
use std::alloc::Global;
use std::marker::Model;
use std::sync::ArcStr;

/// The largest number of bytes in an allowed origin.
pub const MAX_ORIGIN: usize = 255;

/// What `Access-Control-Allow-Origin` says (the Fetch standard, section 3.3.3): `*`, or one origin. It is 1 to 255 visible
/// characters of ASCII; whether it is an origin is not looked at.
///
/// A clone shares the text, which is not copied for it.
pub struct AllowedOrigin {
    text: ArcStr,
}

impl Drop for AllowedOrigin {
    fn drop(self) {
        let AllowedOrigin { text } = self;
        drop(text);
    }
}

impl Model for AllowedOrigin {
    ghost use Rattle.std.specs.Prelude.{◌≡◌, ℕ, List, true};
    ghost use Rattle.std.specs.Arc.{arc_str_bytes};
    ghost use Rattle.radio_values.specs.AllowedOrigin.{is_allowed_origin};

    ghost Value = { List ℕ };

    ghost view = { λ a. arc_str_bytes a.text };

    ghost invariant = { λ a. is_allowed_origin (arc_str_bytes a.text) ≡ true };
}

impl AllowedOrigin {
    /// What a text allows; `None` if it is not of that form. An `Err` means that memory ran out.
    pub fn read(alloc: Global, text: &str) -> Result<Option<AllowedOrigin>, OutOfMemory>
        // There is one exactly if the text is of that form, and it is that text.
        ensures { IfOk result (λ read. MatchOption read (is_allowed_origin text.now ≡ false)
            (λ origin. (is_allowed_origin text.now ≡ true) × (origin ≡ text.now))) }
    {
        if !is_allowed_origin(text.as_bytes()) {
            return Ok(None);
        }
        Ok(Some(AllowedOrigin {
            text: ArcStr::from_str(alloc, text)?,
        }))
    }

    /// Its bytes, which are visible ASCII.
    #[tactic(auto, unfolding(crate::specs::AllowedOrigin::is_allowed_origin))]
    pub fn as_bytes(&self) -> &[u8]
        ensures text { result.now ≡ self.now }
        ensures form { is_allowed_origin self.now ≡ true }
        ensures visible { list_all is_visible self.now ≡ true }
    {
        self.text.as_str().as_bytes()
    }
}

impl Clone for AllowedOrigin {
    ghost is_clone = { λ origin other. other ≡ origin };

    fn clone(&self) -> Result<AllowedOrigin, OutOfMemory> {
        Ok(AllowedOrigin {
            text: self.text.clone()?,
        })
    }
}

#[tactic(auto, unfolding(crate::specs::AllowedOrigin::is_allowed_origin))]
fn is_allowed_origin(text: &[u8]) -> bool
    ensures { result ≡ is_allowed_origin text.now }
{
    !text.is_empty() && text.len() <= MAX_ORIGIN && has_visible_bytes(text)
}

fn has_visible_bytes(text: &[u8]) -> bool
    ensures { result ≡ list_all is_visible text.now }
{
    text.iter().all(|b| 33 <= *b && *b <= 126)
}
