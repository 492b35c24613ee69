//! A bounded queue of blocks: what nobody sees of it who listens. What listeners are given is in the end-to-end scripts.

use bytes::Bytes;
use radio_blocks::{Block, BlockQueue, DrawFault, OutOfMemory, Pieces, Place};
use std::alloc::Global;

/// Blocks of four bytes.
const FOUR_EACH: &[&[u8]] = &[b"abcd", b"efgh", b"ijkl", b"mnop"];

type Blocks = &'static [&'static [u8]];

/// The limit at the first push and at all others, what is pushed, and where the kept blocks begin after the last push.
const OFFSETS: &[(u64, u64, Blocks, u64)] = &[
    (10, 10, &[b"abcd", b"efgh", b"ijkl"], 0),
    (10, 10, FOUR_EACH, 4),
    // the limit exactly reached
    (8, 8, FOUR_EACH, 8),
    (9, 9, FOUR_EACH, 4),
    (1, 1, FOUR_EACH, 12),
    // a block larger than the limit
    (3, 3, &[b"a", b"b", b"cdefgh"], 2),
    (3, 3, &[b"abcdef", b"g", b"h"], 0),
    (10, 10, &[], 0),
    // another limit later
    (0, 5, FOUR_EACH, 8),
    (100, 0, FOUR_EACH, 16),
    (1, 100, FOUR_EACH, 0),
];

/// A queue after these pushes.
fn queue_of(
    alloc: Global,
    first: u64,
    other: u64,
    blocks: &[&[u8]],
) -> Result<BlockQueue, OutOfMemory> {
    let mut queue = BlockQueue::new(alloc, first);
    for bytes in blocks {
        push(alloc, &mut queue, *bytes)?;
        queue.set_limit(other);
    }
    Ok(queue)
}

fn push(alloc: Global, queue: &mut BlockQueue, bytes: &[u8]) -> Result<(), OutOfMemory> {
    let shared = Bytes::copy_from_slice(alloc, bytes)?;
    match Block::new(shared) {
        Some(block) => push_block(queue, block),
        None => Ok(()),
    }
}

/// Pushes a block where the stream has room for it, as each test's has.
pub fn push_block(queue: &mut BlockQueue, block: Block) -> Result<(), OutOfMemory> {
    let end = queue.end().bytes_before();
    if end.checked_add(block.len() as u64).is_none() {
        drop(block);
        return Ok(());
    }
    queue.push(block)?;
    Ok(())
}

fn offset_of(alloc: Global, first: u64, other: u64, blocks: &[&[u8]]) -> Result<u64, OutOfMemory> {
    let queue = queue_of(alloc, first, other, blocks)?;
    Ok(queue.offset().bytes_before())
}

/// Pushes so many handles on a block.
fn push_shared(queue: &mut BlockQueue, block: &Block, count: u32) -> Result<(), OutOfMemory> {
    for _ in 0..count {
        push_block(queue, block.share()?)?;
    }
    Ok(())
}

/// The place behind so many blocks of 4096 bytes, of which the last ones are kept.
fn end_of_many(alloc: Global, count: u32) -> Result<u64, OutOfMemory> {
    let mut queue = BlockQueue::new(alloc, 8192);
    push_many(alloc, &mut queue, count)?;
    Ok(queue.end().bytes_before())
}

fn push_many(alloc: Global, queue: &mut BlockQueue, count: u32) -> Result<(), OutOfMemory> {
    match Block::new(Bytes::copy_from_slice(alloc, [7; 4096].as_slice())?) {
        Some(block) => push_shared(queue, &block, count),
        None => Ok(()),
    }
}

#[test]
fn a_stream_of_more_than_a_gigabyte(rt: HostRuntime) {
    assert!(rt; end_of_many(rt.alloc(), 300_000) == Ok(1_228_800_000));
}

// rule: Kept stream
#[test]
fn kept_tail(rt: HostRuntime) {
    for (first, other, blocks, offset) in OFFSETS {
        assert!(rt; offset_of(rt.alloc(), *first, *other, blocks) == Ok(*offset));
    }
}

/// Whether a draw inside a block gives a slice of each block, and the place behind.
fn draws_slices(alloc: Global) -> Result<bool, OutOfMemory> {
    let queue = queue_of(alloc, 10, 10, &FOUR_EACH[..3])?;
    let mut pieces = Pieces::new(alloc);
    let drawn = queue.draw(Place::new(2), 5, &mut pieces);
    let slices = pieces.slices();
    Ok(drawn == Ok(Place::new(7)) && are_two(slices))
}

/// Whether they are the two slices.
fn are_two(slices: &[Bytes]) -> bool {
    match slices {
        [first, second] => {
            first.as_slice() == b"cd".as_slice() && second.as_slice() == b"efg".as_slice()
        }
        _ => false,
    }
}

#[test]
fn draw_of_two_slices(rt: HostRuntime) {
    assert!(rt; draws_slices(rt.alloc()) == Ok(true));
}

/// Whether bursts begin where they should in three blocks of four bytes, and a place is as far behind as
/// it is.
fn begins_bursts(alloc: Global) -> Result<bool, OutOfMemory> {
    let queue = queue_of(alloc, 10, 10, &FOUR_EACH[..3])?;
    Ok(
        queue.start_for(9) == Place::new(4)
            && queue.start_for(3) == Place::new(12)
            && queue.lag(Place::new(7)) == 5,
    )
}

#[test]
fn starts_of_bursts(rt: HostRuntime) {
    assert!(rt; begins_bursts(rt.alloc()) == Ok(true));
}

/// Whether a draw at the opening place is refused once the first of four blocks is not kept any more, and
/// hands out nothing.
fn trims_the_opening(alloc: Global) -> Result<bool, OutOfMemory> {
    let queue = queue_of(alloc, 10, 10, FOUR_EACH)?;
    let mut pieces = Pieces::new(alloc);
    let drawn = queue.draw(Place::new(0), 100, &mut pieces);
    Ok(drawn == Err(DrawFault::Trimmed) && pieces.slices().is_empty())
}

#[test]
fn draw_of_what_is_forgotten(rt: HostRuntime) {
    assert!(rt; trims_the_opening(rt.alloc()) == Ok(true));
}
