//! Blocks of all sizes in a queue, which packs the small ones, compared with a plain list of where blocks begin and end.

use crate::queue::push_block;
use bytes::Bytes;
use radio_blocks::{Block, BlockQueue, DrawFault, OutOfMemory, Pieces, Place};
use std::alloc::Global;

/// At least so many bytes are kept.
const LIMIT: u64 = 20_000;

/// The largest sizes of blocks, in turn for 500 pushes each.
const LARGEST: &[u64] = &[1, 3000, 7, 40, 511, 3, 700, 2, 3000];

/// The byte at a place of the stream.
fn byte_at(place: u64) -> u8 {
    (place % 251) as u8
}

/// The next number of a row that looks random, from 0 to 2^31 - 1.
fn next(row: &mut u64) -> u64 {
    *row = row
        .wrapping_mul(6_364_136_223_846_793_005)
        .wrapping_add(1_442_695_040_888_963_407);
    *row >> 33
}

/// Where the fewest last blocks begin that have at least the limit.
fn offset_of(bounds: &[u64], end: u64) -> u64 {
    let mut offset = 0;
    for bound in bounds {
        if end.saturating_sub(*bound) >= LIMIT {
            offset = *bound;
        }
    }
    offset
}

/// Where the first block begins that is kept and at most so many bytes before the end, or the end.
fn start_of(bounds: &[u64], offset: u64, end: u64, burst: u64) -> u64 {
    for bound in bounds {
        if *bound >= offset && end.saturating_sub(*bound) <= burst {
            return *bound;
        }
    }
    end
}

/// Whether the slices are the parts of blocks between two places: one of each block that has some.
fn are_parts(bounds: &[u64], from: u64, to: u64, slices: &[Bytes]) -> bool {
    let mut slices = slices.iter();
    for (start, end) in bounds.iter().zip(bounds.iter().skip(1)) {
        let front = from.max(*start);
        let back = to.min(*end);
        if front < back && !is_between(slices.next(), front, back) {
            return false;
        }
    }
    slices.next().is_none()
}

/// Whether it is the slice of the stream between two places.
fn is_between(slice: Option<&Bytes>, from: u64, to: u64) -> bool {
    let Some(slice) = slice else {
        return false;
    };
    let mut place = from;
    for byte in slice.as_slice() {
        if *byte != byte_at(place) {
            return false;
        }
        place = place.saturating_add(1);
    }
    place == to
}

/// The block of so many bytes at a place.
fn block_at(alloc: Global, place: u64, size: u64) -> Result<Option<Block>, OutOfMemory> {
    let mut bytes = Vec::new(alloc);
    for i in 0..size {
        bytes.push(byte_at(place.saturating_add(i)))?;
    }
    Ok(Block::new(Bytes::from_vec(bytes)?))
}

/// Whether all that the queue answers agrees with where its blocks begin and end.
fn agrees(alloc: Global, queue: &BlockQueue, bounds: &[u64], end: u64, row: &mut u64) -> bool {
    let offset = offset_of(bounds, end);
    let burst = next(row) % 30_000;
    if queue.offset() != Place::new(offset) || queue.end() != Place::new(end) {
        return false;
    }
    if queue.start_for(burst) != Place::new(start_of(bounds, offset, end, burst)) {
        return false;
    }
    let lag = next(row) % end.saturating_sub(offset).saturating_add(1);
    let room = (next(row) % 9_000) as u32;
    draws(alloc, queue, bounds, end.saturating_sub(lag), room) && is_trimmed(alloc, queue, offset)
}

/// Whether a draw at this place gives the parts of the blocks there.
fn draws(alloc: Global, queue: &BlockQueue, bounds: &[u64], place: u64, room: u32) -> bool {
    let after = place
        .saturating_add(room as u64)
        .min(queue.end().bytes_before());
    let mut pieces = Pieces::new(alloc);
    let drawn = queue.draw(Place::new(place), room, &mut pieces);
    drawn == Ok(Place::new(after)) && are_parts(bounds, place, after, pieces.slices())
}

/// Whether nothing is drawn before the offset.
fn is_trimmed(alloc: Global, queue: &BlockQueue, offset: u64) -> bool {
    let mut pieces = Pieces::new(alloc);
    offset == 0 || queue.draw(Place::new(offset - 1), 10, &mut pieces) == Err(DrawFault::Trimmed)
}

/// Pushes a block of so many bytes behind this end of the stream, and notes where it ends.
fn push_one(
    alloc: Global,
    queue: &mut BlockQueue,
    bounds: &mut Vec<u64>,
    end: u64,
    size: u64,
) -> Result<u64, OutOfMemory> {
    let Some(block) = block_at(alloc, end, size)? else {
        return Ok(end);
    };
    push_block(queue, block)?;
    let end = end.saturating_add(size);
    bounds.push(end)?;
    Ok(end)
}

/// Whether a queue agrees with the list while blocks of many sizes are pushed.
fn keeps_all_sizes(alloc: Global, seed: u64) -> Result<bool, OutOfMemory> {
    let mut row = seed;
    let mut queue = BlockQueue::new(alloc, LIMIT);
    let mut bounds = Vec::new(alloc);
    bounds.push(0)?;
    let mut end = 0;
    for largest in LARGEST {
        for turn in 0..500 {
            let size = (next(&mut row) % (*largest).max(1)).saturating_add(1);
            end = push_one(alloc, &mut queue, &mut bounds, end, size)?;
            if turn % 11 == 0 && !agrees(alloc, &queue, bounds.as_slice(), end, &mut row) {
                return Ok(false);
            }
        }
    }
    Ok(true)
}

#[test]
fn blocks_of_all_sizes(rt: HostRuntime) {
    assert!(rt; keeps_all_sizes(rt.alloc(), 1) == Ok(true));
}

#[test]
fn blocks_of_all_sizes_again(rt: HostRuntime) {
    assert!(rt; keeps_all_sizes(rt.alloc(), 2) == Ok(true));
}
