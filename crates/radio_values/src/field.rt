//! What heads show: cleaned texts.
ghost use Rattle.std.specs.Prelude.{◌≡◌, IfOk, true};
ghost use Rattle.std.specs.List.{list_all};
ghost use Rattle.radio_values.specs.Cleaning.{cleaned, is_shown};
ghost use Rattle.radio_values.specs.Limits.{max_field};
ghost use Rattle.radio_values.specs.Field.{IsClean};

use crate::{About, OutOfMemory, clean_field};
use std::alloc::Global;
use std::marker::Model;
use std::sync::ArcStr;

/// A text that may be shown in a head: UTF-8 of at most 255 bytes, with no character below U+0020 and no U+007F.
///
/// [`Field::clean`] is the one call that makes one, so each is clean.
/// A clone shares the text, which is not copied for it.
pub struct Field {
    text: ArcStr,
}

impl Drop for Field {
    fn drop(self) {
        let Field { text } = self;
        drop(text);
    }
}

impl Model for Field {
    ghost use Rattle.std.specs.Prelude.{ℕ, List};
    ghost use Rattle.std.specs.Arc.{arc_str_bytes};
    ghost use Rattle.radio_values.specs.Field.{IsClean};

    ghost Value = { List ℕ };

    ghost view = { λ a. arc_str_bytes a.text };

    ghost invariant = { λ a. IsClean (arc_str_bytes a.text) };
}

impl Field {
    /// Returns bytes from outside as a field. They are read as UTF-8 with U+FFFD for each part that is none,
    /// without the characters that may not be shown. They are cut to the longest front of at most 255 bytes that
    /// ends between two characters.
    pub fn clean(alloc: Global, bytes: &[u8]) -> Result<Field, OutOfMemory>
        ensures { IfOk result (λ field. field ≡ cleaned max_field bytes.now) }
    {
        crate::laws::clean_texts();
        Ok(Field {
            text: ArcStr::from_string(clean_field(alloc, bytes)?)?,
        })
    }

    /// The text.
    pub fn as_str(&self) -> &str
        ensures text { result.now ≡ self.now }
        ensures clean { IsClean self.now }
    {
        self.text.as_str()
    }

    /// Its bytes: none is below 32, and none is 127.
    pub fn as_bytes(&self) -> &[u8]
        ensures text { result.now ≡ self.now }
        ensures clean { IsClean self.now }
        ensures shown { list_all is_shown self.now ≡ true }
    {
        crate::laws::clean_texts();
        self.text.as_str().as_bytes()
    }
}

impl Clone for Field {
    ghost is_clone = { λ field other. other ≡ field };

    fn clone(&self) -> Result<Field, OutOfMemory> {
        Ok(Field {
            text: self.text.clone()?,
        })
    }
}

/// What the heads of a stream's listeners show of it. A clone shares the texts.
pub struct Shown {
    /// The content type, as in `Content-Type`.
    pub content_type: Field,
    /// The stream's name, as in `icy-name`; empty if there is none.
    pub name: Field,
    /// The genre, as in `icy-genre`; empty if there is none.
    pub genre: Field,
    /// What else it says of itself.
    pub about: About,
}

impl Drop for Shown {
    fn drop(self) {
        let Shown {
            content_type,
            name,
            genre,
            about,
        } = self;
        drop(content_type);
        drop(name);
        drop(genre);
        drop(about);
    }
}

impl Shown {
    ghost use Rattle.radio_values.specs.Shown.{shown_of};

    /// A type, a name and a genre from outside, each cleaned, of a stream that says nothing else of itself. An `Err`
    /// means that memory ran out.
    pub fn clean(
        alloc: Global,
        content_type: &[u8],
        name: &[u8],
        genre: &[u8],
    ) -> Result<Shown, OutOfMemory>
        ensures { IfOk result (λ shown. shown ≡ shown_of content_type.now name.now genre.now) }
    {
        Ok(Shown {
            content_type: Field::clean(alloc, content_type)?,
            name: Field::clean(alloc, name)?,
            genre: Field::clean(alloc, genre)?,
            about: About::none(alloc)?,
        })
    }

    /// Returns the same with this in place of what else it says of itself.
    pub fn with_about(self, about: About) -> Shown
        ensures { result ≡ record self { about = about } }
    {
        let Shown {
            content_type,
            name,
            genre,
            about: before,
        } = self;
        drop(before);
        Shown {
            content_type,
            name,
            genre,
            about,
        }
    }
}

impl Clone for Shown {
    ghost is_clone = { λ shown other. other ≡ shown };

    fn clone(&self) -> Result<Shown, OutOfMemory> {
        Ok(Shown {
            content_type: self.content_type.clone()?,
            name: self.name.clone()?,
            genre: self.genre.clone()?,
            about: self.about.clone()?,
        })
    }
}
