//! What no clause says: that calls succeed where there is memory, and that the definitions mean what the standards say, on
//! answers, settings and lists from outside.

mod orders;
mod pulls;
mod requests;

use radio_relay::{OutOfMemory, PullFault, PullItem};
use radio_settings::read_settings;
use radio_settings_values::Settings;
use radio_values::{About, Shown};
use std::alloc::{AllocError, Global};

/// Appends these parts.
fn append_parts(parts: &[&[u8]], out: &mut Vec<u8>) -> Result<(), OutOfMemory> {
    for part in parts {
        out.extend_from_slice(part)?;
    }
    Ok(())
}

/// Appends what an item is: in braces what a head shows, in angle brackets a title, and sound as it is.
fn append_item(item: &PullItem, out: &mut Vec<u8>) -> Result<(), OutOfMemory> {
    match item {
        PullItem::Up(shown) => append_shown(shown, out),
        PullItem::Sound(block) => out.extend_from_slice(block.as_bytes()),
        PullItem::Title(title) => append_parts(&[b"<", title.as_slice(), b">"], out),
    }
}

fn append_shown(shown: &Shown, out: &mut Vec<u8>) -> Result<(), OutOfMemory> {
    let content_type = shown.content_type.as_bytes();
    let (name, genre) = (shown.name.as_bytes(), shown.genre.as_bytes());
    append_parts(&[b"{", content_type, b"|", name, b"|", genre], out)?;
    append_about(&shown.about, out)?;
    out.extend_from_slice(b"}")
}

/// Appends what else a stream says of itself, if it says anything.
fn append_about(about: &About, out: &mut Vec<u8>) -> Result<(), OutOfMemory> {
    let (description, url) = (about.description.as_bytes(), about.url.as_bytes());
    let (bitrate, audio_info) = (about.bitrate.as_bytes(), about.audio_info.as_bytes());
    let says_nothing = [description, url, bitrate, audio_info]
        .iter()
        .all(|text| text.is_empty());
    if says_nothing {
        return Ok(());
    }
    append_parts(
        &[b"|", description, b"|", url, b"|", bitrate, audio_info],
        out,
    )
}

fn append_items(items: &[PullItem], out: &mut Vec<u8>) -> Result<(), OutOfMemory> {
    for item in items {
        append_item(item, out)?;
    }
    Ok(())
}

/// The settings of a text, which has no fault.
fn settings(alloc: Global, text: &str) -> Result<Settings, OutOfMemory> {
    match read_settings(alloc, text) {
        Ok(settings) => Ok(settings),
        Err(_) => Err(AllocError),
    }
}
