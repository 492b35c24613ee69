//! Unweaving.

ghost use Rattle.std.specs.Prelude.{◌≤◌, length};

use super::*;
use radio_icy::{Item, Unweaver, Weaver};

/// Appends items to what came before: sound as it is, and each text in brackets.
fn gather(items: &[Item], seen: &mut Vec<u8>) -> Result<(), OutOfMemory> {
    for item in items {
        append_item(item, seen)?;
    }
    Ok(())
}

fn append_item(item: &Item, seen: &mut Vec<u8>) -> Result<(), OutOfMemory> {
    match item {
        Item::Sound(bytes) => seen.extend_from_slice(bytes.as_slice()),
        Item::Text(text) => append_text(text.as_slice(), seen),
    }
}

fn append_text(text: &[u8], seen: &mut Vec<u8>) -> Result<(), OutOfMemory> {
    seen.extend_from_slice(b"<")?;
    seen.extend_from_slice(text)?;
    seen.extend_from_slice(b">")
}

/// Feeds a piece, and gathers what it brings.
fn feed(unweaver: &mut Unweaver, piece: &[u8], seen: &mut Vec<u8>) -> Result<(), OutOfMemory> {
    let items = unweaver.feed(piece)?;
    gather(items.as_slice(), seen)
}

/// Feeds a stream in pieces of so many bytes.
fn feed_pieces(
    unweaver: &mut Unweaver,
    stream: &[u8],
    size: usize,
    seen: &mut Vec<u8>,
) -> Result<(), OutOfMemory>
    requires { 1 ≤ size }
{
    for piece in stream.chunks(size) {
        feed(unweaver, piece, seen)?;
    }
    Ok(())
}

/// Whether a stream that is fed in pieces of so many bytes brings these items.
fn is_told(
    alloc: Global,
    interval: usize,
    stream: &[u8],
    piece: usize,
    want: &[u8],
) -> Result<bool, OutOfMemory>
    requires interval { 1 ≤ interval }
    requires piece { 1 ≤ piece }
{
    let mut seen = Vec::new(alloc);
    let mut unweaver = Unweaver::new(alloc, interval);
    feed_pieces(&mut unweaver, stream, piece, &mut seen)?;
    Ok(seen.as_slice() == want)
}

/// Feeds two pieces.
fn feed_two(
    unweaver: &mut Unweaver,
    pieces: (&[u8], &[u8]),
    seen: &mut Vec<u8>,
) -> Result<(), OutOfMemory> {
    feed(unweaver, pieces.0, seen)?;
    feed(unweaver, pieces.1, seen)
}

/// Whether a stream that is cut there brings these items.
fn is_told_cut(alloc: Global, stream: &[u8], cut: usize, want: &[u8]) -> Result<bool, OutOfMemory>
    requires { cut ≤ length stream.now }
{
    let mut seen = Vec::new(alloc);
    let mut unweaver = Unweaver::new(alloc, 4);
    feed_two(&mut unweaver, stream.split_at(cut), &mut seen)?;
    Ok(seen.as_slice() == want)
}

/// Whether a stream brings these items wherever it is cut.
fn is_unwoven_at_each_cut(alloc: Global, stream: &[u8], want: &[u8]) -> Result<bool, OutOfMemory> {
    for cut in 0..=stream.len() {
        if !is_told_cut(alloc, stream, cut, want)? {
            return Ok(false);
        }
    }
    Ok(true)
}

/// Whether a stream with the longest title brings that title, wherever it is cut.
fn is_longest_told(alloc: Global) -> Result<bool, OutOfMemory> {
    let stream = enclosed(alloc, b"abcd\xffStreamTitle='", LONGEST, b"';ef")?;
    let want = enclosed(alloc, b"abcd<StreamTitle='", LONGEST, b"';>ef")?;
    is_unwoven_at_each_cut(alloc, stream.as_slice(), want.as_slice())
}

// rule: Metadata block
#[test]
fn longest_block_cut_at_each_byte(rt: HostRuntime) {
    assert!(rt; is_longest_told(rt.alloc()) == Ok(true));
}

/// The stream of so much sound, woven at once.
fn stream_of(alloc: Global, interval: usize, sound: &[u8]) -> Result<Vec<u8>, OutOfMemory>
    requires { 1 ≤ interval }
{
    let mut out = Vec::new(alloc);
    Weaver::new(alloc, interval).weave(sound, None, &mut out)?;
    Ok(out)
}

/// Whether a stream of 1 MiB of sound, in pieces of 1400 bytes, brings all of the sound.
fn is_told_again(alloc: Global, interval: usize) -> Result<bool, OutOfMemory>
    requires { 1 ≤ interval }
{
    let sound = vec![in alloc; b's'; 1 << 20]?;
    let stream = stream_of(alloc, interval, sound.as_slice())?;
    Ok(
        stream.len() == sound.len() + sound.len() / interval
            && is_told(alloc, interval, stream.as_slice(), 1400, sound.as_slice())?,
    )
}

// rule: Metadata block
#[test]
fn a_mebibyte(rt: HostRuntime) {
    for interval in [1, 16000] {
        assert!(rt; is_told_again(rt.alloc(), interval) == Ok(true));
    }
}

/// A stream with a title, and the items that it brings.
const TITLED: &[u8] = b"abcd\x01StreamTitle='X';efgh\0";

const TOLD: &[u8] = b"abcd<StreamTitle='X';>efgh";

/// As a whole, and a byte at a time.
#[test]
fn a_title_in_pieces(rt: HostRuntime) {
    for piece in [TITLED.len(), 1] {
        assert!(rt; is_told(rt.alloc(), 4, TITLED, piece, TOLD) == Ok(true));
    }
}
