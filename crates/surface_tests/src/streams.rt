//! Blocks of a stream, and the titles between its bytes.

use bytes::Bytes;
use radio_blocks::{Block, BlockQueue, OutOfMemory, Pieces, Place};
use radio_icy::{Item, Title, Unweaver, Weaver, clean_field, clean_title, title_of};
use radio_settings::Shown;
use std::alloc::{AllocGlobal, Global};

/// A queue of the one block `abcd`.
fn queue(alloc: Global) -> Result<BlockQueue, OutOfMemory> {
    let mut queue = BlockQueue::new(alloc, 10);
    if let Some(block) = Block::new(Bytes::copy_from_slice(alloc, b"abcd")?) {
        queue.push(block)?;
    }
    Ok(queue)
}

/// Whether the queue ends behind its block, and a draw from its second byte gives two.
fn is_drawn(alloc: Global) -> Result<bool, OutOfMemory> {
    let queue = queue(alloc)?;
    let mut pieces = Pieces::new(alloc);
    let drawn = queue.draw(Place::new(1), 2, &mut pieces);
    let is_placed = queue.end() == Place::new(4)
        && queue.start_for(4) == Place::new(0)
        && queue.lag(Place::new(1)) == 3;
    Ok(is_placed && drawn == Ok(Place::new(3)) && is_one(pieces.slices(), b"bc"))
}

/// Whether these are one slice of those bytes.
fn is_one(slices: &[Bytes], bytes: &[u8]) -> bool {
    match slices {
        [slice] => slice.as_slice() == bytes,
        _ => false,
    }
}

#[test]
fn a_block_of_a_stream(rt: HostRuntime) {
    assert!(rt; is_drawn(rt.alloc()) == Ok(true));
}

/// A title behind four bytes.
const WOVEN: &[u8] = b"abcd\x01StreamTitle='X';";

fn woven(alloc: Global) -> Result<Vec<u8>, OutOfMemory> {
    let mut out = Vec::new(alloc);
    Weaver::new(alloc, 4).weave(b"abcd", Some(b"X"), &mut out)?;
    Ok(out)
}

/// Whether the title is woven in, and is taken out again.
fn is_woven(alloc: Global) -> Result<bool, OutOfMemory> {
    let out = woven(alloc)?;
    let items = Unweaver::new(alloc, 4).feed(out.as_slice())?;
    Ok(out.as_slice() == WOVEN && has_title(items.as_slice()))
}

/// Whether the last item is a text whose title is `X`.
fn has_title(items: &[Item]) -> bool {
    match items.last() {
        Some(Item::Text(text)) => title_of(text.as_slice()) == Some(b"X".as_slice()),
        _ => false,
    }
}

/// Whether texts are cleaned of what no text may have.
fn are_clean(alloc: Global) -> Result<bool, OutOfMemory> {
    let title = clean_title(alloc, b"A\n\xff")?;
    let field = clean_field(alloc, b"A\x7fB")?;
    Ok(title.as_str() == "A\u{fffd}" && field.as_str() == "AB")
}

/// Whether a title and what a source shows are cleaned.
fn are_shown(alloc: Global) -> Result<bool, OutOfMemory> {
    let title = Title::clean(alloc, b"A\n")?;
    let shown = Shown::clean(alloc, b"audio/aac", b"B\n", b"")?;
    Ok(title.as_slice() == b"A".as_slice() && shown.name.as_bytes() == b"B".as_slice())
}

#[test]
fn a_title_of_a_stream(rt: HostRuntime) {
    assert!(rt; is_woven(rt.alloc()) == Ok(true));
    assert!(rt; are_clean(rt.alloc()) == Ok(true));
    assert!(rt; are_shown(rt.alloc()) == Ok(true));
}
