//! Texts as the settings have them.
ghost use Rattle.std.specs.Prelude.{◌≡◌, IfOk};

use crate::OutOfMemory;
use std::alloc::Global;
use std::marker::Model;
use std::sync::ArcStr;

/// A text as the settings have it: a user, a password, an address or a path.
///
/// A clone shares the text, which is not copied for it.
pub struct Text {
    text: ArcStr,
}

impl Drop for Text {
    fn drop(self) {
        let Text { text } = self;
        drop(text);
    }
}

impl Model for Text {
    ghost use Rattle.std.specs.Prelude.{ℕ, List};
    ghost use Rattle.std.specs.Arc.{arc_str_bytes};

    ghost Value = { List ℕ };

    ghost view = { λ a. arc_str_bytes a.text };
}

impl Text {
    /// A copy of a text. An `Err` means that memory ran out.
    pub fn new(alloc: Global, text: &str) -> Result<Text, OutOfMemory>
        ensures { IfOk result (λ made. made ≡ text.now) }
    {
        Ok(Text {
            text: ArcStr::from_str(alloc, text)?,
        })
    }

    /// The text.
    pub fn as_str(&self) -> &str
        ensures { result.now ≡ self.now }
    {
        self.text.as_str()
    }

    /// Its bytes, which are UTF-8.
    pub fn as_bytes(&self) -> &[u8]
        ensures { result.now ≡ self.now }
    {
        self.text.as_str().as_bytes()
    }
}

impl Clone for Text {
    ghost is_clone = { λ text other. other ≡ text };

    fn clone(&self) -> Result<Text, OutOfMemory> {
        Ok(Text {
            text: self.text.clone()?,
        })
    }
}
