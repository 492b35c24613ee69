//! Slices of blocks.
ghost use Rattle.std.specs.Prelude.{◌≡◌, ◌<◌, ◌^◌, ◌++◌, length, take, drop, IfOk, OnOk, OnErr};
ghost use Rattle.radio_blocks.specs.Chunk.{cut_by, total};
ghost use Rattle.radio_blocks.specs.Parts.{slice_of, parts_of};

use crate::OutOfMemory;
use bytes::Bytes;
use std::collections::VecDeque;

/// At most `room` bytes of the slice, but for the `skip` bytes at its front. `OutOfMemory` if memory was refused.
pub(crate) fn part_of(slice: &Bytes, skip: usize, room: usize) -> Result<Bytes, OutOfMemory>
    ensures { IfOk result (λ part. part ≡ take room (drop skip slice.now)) }
{
    let from = skip.min(slice.len());
    let to = from + room.min(slice.len() - from);
    slice.slice(from..to)
}

/// Puts at most `room` bytes of the block behind the slices, but for the `skip` bytes at its front; nothing if it has no
/// such bytes. `OutOfMemory` if memory was refused; the slices are unchanged then.
pub(crate) fn push_part(
    slices: &mut Vec<Bytes>,
    block: &Bytes,
    skip: usize,
    room: usize,
) -> Result<(), OutOfMemory>
    ensures ok { OnOk result (slices.new.items ≡ slices.old.items ++ slice_of (take room (drop skip block.now))) }
    ensures err { OnErr result (slices.new.items ≡ slices.old.items) }
{
    let part = part_of(block, skip, room)?;
    if !part.is_empty() {
        slices.push(part)?;
    }
    Ok(())
}

/// Puts at most `room` bytes of the blocks of these sizes behind the slices, but for the `skip` bytes at the front: a
/// slice of each block that has some of them. `OutOfMemory` if memory was refused; slices may have been added then.
pub(crate) fn push_cuts(
    slices: &mut Vec<Bytes>,
    bytes: &Bytes,
    sizes: &VecDeque<u16>,
    skip: usize,
    room: usize,
) -> Result<(), OutOfMemory>
    requires { (total sizes.now.items ≡ length bytes.now) × (length bytes.now < 2 ^ 63) }
    ensures ok { OnOk result (slices.new.items ≡ slices.old.items ++ parts_of skip room (cut_by sizes.now.items bytes.now)) }
    ensures kept { take (length slices.old.items) slices.new.items ≡ slices.old.items }
{
    let mut from = 0;
    let mut skip = skip;
    let mut left = room;
    let mut index = 0;
    'index: while left > 0 && index < sizes.len() {
        let size = sizes[index] as usize;
        let before = skip.min(size);
        push_part(slices, bytes, from + before, left.min(size - before))?;
        left = left.saturating_sub(size - before);
        skip -= before;
        from += size;
        index += 1;
    }
    Ok(())
}
