//! How much memory a block keeps.

use radio_blocks::{Block, MAX_BLOCK, OutOfMemory};
use std::alloc::Global;

/// How many bytes of memory a block keeps. It must be the only one that shares them.
fn memory_of(block: Block) -> usize {
    let Ok(bytes) = block.into_bytes().try_into_mut() else {
        return usize::MAX;
    };
    match bytes.into_vec() {
        Ok(vec) => vec.capacity(),
        Err(_) => usize::MAX,
    }
}

/// Returns how much memory a block keeps that was made of these bytes, in a vector of this capacity.
fn memory_of_made(alloc: Global, bytes: &[u8], room: usize) -> Result<usize, OutOfMemory> {
    let mut loose = Vec::with_capacity(alloc, room)?;
    loose.extend_from_slice(bytes)?;
    if loose.is_empty() || loose.len() > MAX_BLOCK {
        return Ok(0);
    }
    Ok(memory_of(Block::of_vec(alloc, loose)?))
}

/// The memory of a block that is a copy of these bytes.
fn memory_of_copied(alloc: Global, bytes: &[u8]) -> Result<usize, OutOfMemory> {
    if bytes.is_empty() || bytes.len() > MAX_BLOCK {
        return Ok(0);
    }
    Ok(memory_of(Block::copied(alloc, bytes)?))
}

/// Bytes, the capacity of their vector, and how much memory a block keeps that was made of it.
const MADE: &[(&[u8], usize, usize)] = &[(b"a", 4096, 1), (b"abcd", 8, 8), (b"abcd", 9, 4)];

// no contract of std or of `bytes` says how much memory bytes keep
// rule: Cut into blocks
#[test]
fn blocks_keep_little_room(rt: HostRuntime) {
    for (bytes, room, memory) in MADE {
        assert!(rt; memory_of_made(rt.alloc(), bytes, *room) == Ok(*memory));
    }
    assert!(rt; memory_of_copied(rt.alloc(), b"abcdef") == Ok(6));
}
