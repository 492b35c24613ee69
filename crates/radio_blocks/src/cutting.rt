//! Data that are cut into blocks where they lie.
ghost use Rattle.std.specs.Prelude.{◌≡◌, ◌<◌, ◌∷◌, length, IfOk};
ghost use Rattle.radio_blocks.specs.Cutting.{blocks_of};

use crate::OutOfMemory;
use crate::block::{Block, MAX_BLOCK};
use std::alloc::Global;

/// The first of the blocks that data make, and the data behind it.
///
/// So a loop that takes the first block of what is left, until nothing is left, takes the blocks of the data in order.
/// `Err` if memory was refused.
pub fn first_block(alloc: Global, bytes: &[u8]) -> Result<(Block, &[u8]), OutOfMemory>
    requires { 0 < length bytes.now }
    ensures blocks { IfOk result (λ parts. blocks_of bytes.now ≡ parts.0 ∷ blocks_of parts.1.now) }
    ensures shorter { IfOk result (λ parts. length parts.1.now < length bytes.now) }
{
    let (front, rest) = bytes.split_at(bytes.len().min(MAX_BLOCK));
    let block = Block::copied(alloc, front)?;
    Ok((block, rest))
}
