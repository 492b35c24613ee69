//! What the arguments of a query must be.
ghost use Rattle.std.specs.Prelude.{◌≡◌, ◌==◌, ◌||◌, ◌++◌, IfOk, codes};
ghost use Rattle.std.specs.List.{list_any};
ghost use Rattle.std.specs.Option.{option_map};
ghost use Rattle.std.specs.String.{string_bytes};
ghost use Rattle.radio_admin.specs.Arguments.{argument, as_fallback, fallback_in, is_user_name, mount_in, number_argument, song_title, title_in, user_argument};

use crate::OutOfMemory;
use crate::query::argument;
use radio_texts::read_number;
use radio_values::MountName;
use std::alloc::Global;

/// The mode in which `/admin/metadata` sets a title, the only one that there is.
const UPDATE: &str = "updinfo";

/// What comes between an artist and a title.
const BETWEEN: &str = " - ";

/// The mount that an argument names; `None` if it is absent, or is no name of a mount.
pub fn mount_in(alloc: Global, name: &str, query: &[u8]) -> Result<Option<MountName>, OutOfMemory>
    ensures { IfOk result (λ found. found ≡ mount_in name.now query.now) }
{
    match argument(alloc, name, query)? {
        Some(text) => Ok(MountName::read(text.as_bytes())),
        None => Ok(None),
    }
}

/// The number that an argument writes; `None` if it is absent, or is no whole number of 64 bits in digits alone.
pub fn number_in(alloc: Global, name: &str, query: &[u8]) -> Result<Option<u64>, OutOfMemory>
    ensures { IfOk result (λ found. found ≡ number_argument name.now query.now) }
{
    match argument(alloc, name, query)? {
        Some(text) => Ok(read_number(text.as_bytes(), 10, u64::MAX)),
        None => Ok(None),
    }
}

/// The fallback that an argument names, `Some(None)` if it is empty; `None` if it is absent, or is neither empty
/// nor the name of a mount.
pub fn fallback_in(
    alloc: Global,
    name: &str,
    query: &[u8],
) -> Result<Option<Option<MountName>>, OutOfMemory>
    ensures { IfOk result (λ found. found ≡ fallback_in name.now query.now) }
{
    match argument(alloc, name, query)? {
        Some(text) => Ok(as_fallback(text.as_bytes())),
        None => Ok(None),
    }
}

fn as_fallback(text: &[u8]) -> Option<Option<MountName>>
    ensures { result ≡ as_fallback text.now }
{
    if text.is_empty() {
        return Some(None);
    }
    match MountName::read(text) {
        Some(mount) => Some(Some(mount)),
        None => None,
    }
}

/// Returns the user that a query names, as `username`. `None` if it is absent, or no file of users can name it so. It
/// has 1 to 255 bytes, of which none is a colon or a line end, and the first is no `#`.
pub fn user_in(alloc: Global, query: &[u8]) -> Result<Option<String>, OutOfMemory>
    ensures { IfOk result (λ found. option_map (λ text. string_bytes text) found ≡ user_argument query.now) }
{
    match argument(alloc, "username", query)? {
        Some(text) if is_user_name(text.as_bytes()) => Ok(Some(text)),
        _ => Ok(None),
    }
}

fn is_user_name(text: &[u8]) -> bool
    ensures { result ≡ is_user_name text.now }
{
    match text.first() {
        Some(first) => *first != b'#' && text.len() < 256 && !has_mark(text),
        None => false,
    }
}

/// Whether one of the bytes parts a file of users.
fn has_mark(text: &[u8]) -> bool
    ensures { result ≡ list_any (λ b. (b == 58) || (b == 10) || (b == 13)) text.now }
{
    text.iter().any(|b| is_mark(*b))
}

/// Whether the byte is a colon or a line end, which part a file of users.
fn is_mark(byte: u8) -> bool
    ensures { result ≡ ((byte == 58) || (byte == 10) || (byte == 13)) }
{
    byte == b':' || byte == b'\n' || byte == b'\r'
}

/// The title that a query sets: `song`, else `artist` and `title` with ` - ` between them, else `title`. `None` where
/// there is none of these, or where `mode` is not `updinfo`.
pub fn title_in(alloc: Global, query: &[u8]) -> Result<Option<String>, OutOfMemory>
    ensures { IfOk result (λ found. option_map (λ text. string_bytes text) found ≡ title_in query.now) }
{
    match argument(alloc, "mode", query)? {
        Some(mode) if mode.as_str() == UPDATE => song_in(alloc, query),
        _ => Ok(None),
    }
}

fn song_in(alloc: Global, query: &[u8]) -> Result<Option<String>, OutOfMemory>
    ensures { IfOk result (λ found. option_map (λ text. string_bytes text) found ≡ song_title
        (argument (codes "song") query.now) (argument (codes "artist") query.now) (argument (codes "title") query.now)) }
{
    if let Some(song) = argument(alloc, "song", query)? {
        return Ok(Some(song));
    }
    let Some(title) = argument(alloc, "title", query)? else {
        return Ok(None);
    };
    match argument(alloc, "artist", query)? {
        Some(artist) => Ok(Some(joined(artist, &title)?)),
        None => Ok(Some(title)),
    }
}

/// The artist, ` - ` and the title.
fn joined(artist: String, title: &str) -> Result<String, OutOfMemory>
    ensures { IfOk result (λ text. string_bytes text ≡ (string_bytes artist ++ codes " - ") ++ title.now) }
{
    let mut text = artist;
    text.push_str(BETWEEN)?;
    text.push_str(title)?;
    Ok(text)
}
