//! Titles that can be sent.
ghost use Rattle.std.specs.Prelude.{◌≡◌, ◌≤◌, length, IfOk};
ghost use Rattle.radio_values.specs.Cleaning.{cleaned};
ghost use Rattle.radio_values.specs.Limits.{max_title};
ghost use Rattle.radio_values.specs.Sendable.{IsTitle};

use crate::{OutOfMemory, clean_title};
use bytes::Bytes;
use std::alloc::Global;
use std::marker::Model;

/// A title that can be sent: UTF-8 of at most [`MAX_TITLE`](crate::MAX_TITLE) bytes, with no character below U+0020
/// and no U+007F.
///
/// [`Title::clean`] is the one call that makes one, so each is clean.
/// A clone shares the text, which is not copied for it.
pub struct Title {
    text: Bytes,
}

impl Drop for Title {
    fn drop(self) {
        let Title { text } = self;
        drop(text);
    }
}

impl Model for Title {
    ghost use Rattle.std.specs.Prelude.{ℕ, List};
    ghost use Rattle.radio_values.specs.Sendable.{IsTitle};

    ghost Value = { List ℕ };

    ghost view = { λ a. a.text };

    ghost invariant = { λ a. IsTitle a.text };
}

impl Title {
    /// Returns bytes from outside as a title. They are read as UTF-8 with U+FFFD for each part that is none, without
    /// the characters that may not be sent. They are cut to the longest front of at most
    /// [`MAX_TITLE`](crate::MAX_TITLE) bytes that ends between two characters.
    // rule: Cleaned texts
    pub fn clean(alloc: Global, text: &[u8]) -> Result<Title, OutOfMemory>
        ensures { IfOk result (λ title. title ≡ cleaned max_title text.now) }
    {
        crate::laws::clean_texts();
        Ok(Title {
            text: Bytes::from_string(clean_title(alloc, text)?)?,
        })
    }

    /// Its bytes.
    pub fn as_slice(&self) -> &[u8]
        ensures text { result.now ≡ self.now }
        ensures fits { length self.now ≤ max_title }
        ensures clean { IsTitle self.now }
    {
        self.text.as_slice()
    }
}

impl Clone for Title {
    ghost is_clone = { λ title other. other ≡ title };

    fn clone(&self) -> Result<Title, OutOfMemory> {
        Ok(Title {
            text: self.text.clone()?,
        })
    }
}
