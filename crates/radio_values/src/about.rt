//! What a stream says of itself beyond its name and genre.
ghost use Rattle.std.specs.Prelude.{◌≡◌, IfOk};
ghost use Rattle.radio_values.specs.About.{about_of, no_about};

use crate::{Field, OutOfMemory};
use std::alloc::Global;

/// What web sites and players read of a stream beyond its name and genre. A clone shares the four texts.
pub struct About {
    /// The description, as in `icy-description`; empty if there is none.
    pub description: Field,
    /// The URL of the station's web site, as in `icy-url`; empty if there is none.
    pub url: Field,
    /// The bit rate in kbit/s, as in `icy-br`; empty if there is none.
    pub bitrate: Field,
    /// The parameters of the audio, as in `ice-audio-info`; empty if there are none.
    pub audio_info: Field,
}

impl Drop for About {
    fn drop(self) {
        let About {
            description,
            url,
            bitrate,
            audio_info,
        } = self;
        drop(description);
        drop(url);
        drop(bitrate);
        drop(audio_info);
    }
}

impl About {
    /// Cleans a description, a URL, a bit rate and parameters of the audio from outside. An `Err` means that memory ran out.
    pub fn clean(
        alloc: Global,
        description: &[u8],
        url: &[u8],
        bitrate: &[u8],
        audio_info: &[u8],
    ) -> Result<About, OutOfMemory>
        ensures { IfOk result (λ about. about ≡ about_of description.now url.now bitrate.now audio_info.now) }
    {
        Ok(About {
            description: Field::clean(alloc, description)?,
            url: Field::clean(alloc, url)?,
            bitrate: Field::clean(alloc, bitrate)?,
            audio_info: Field::clean(alloc, audio_info)?,
        })
    }

    /// Returns what a stream has that says nothing: four empty texts. An `Err` means that memory ran out.
    pub fn none(alloc: Global) -> Result<About, OutOfMemory>
        ensures { IfOk result (λ about. about ≡ no_about) }
    {
        About::clean(alloc, b"", b"", b"", b"")
    }
}

impl Clone for About {
    ghost is_clone = { λ about other. other ≡ about };

    fn clone(&self) -> Result<About, OutOfMemory> {
        Ok(About {
            description: self.description.clone()?,
            url: self.url.clone()?,
            bitrate: self.bitrate.clone()?,
            audio_info: self.audio_info.clone()?,
        })
    }
}
