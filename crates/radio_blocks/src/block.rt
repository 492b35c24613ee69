//! Blocks of data.
ghost use Rattle.std.specs.Prelude.{◌≡◌, ℕ, ◌≤◌, ◌↔◌, length, IsSome, IfSome, IfOk, List};
ghost use Rattle.radio_blocks.specs.Block.{IsBlock};

use crate::OutOfMemory;
use bytes::Bytes;
use std::alloc::Global;
use std::marker::Model;

/// The largest number of bytes in one block.
pub const MAX_BLOCK: usize = 4096;

/// Data that a source delivered at once: 1 to 4096 bytes. A listener begins at the start of one.
pub struct Block {
    bytes: Bytes,
}

impl Drop for Block {
    fn drop(self) {
        let Block { bytes } = self;
        drop(bytes);
    }
}

impl Model for Block {
    ghost Value = { List ℕ };

    ghost view = { λ b. b.bytes };

    ghost invariant = { λ b. IsBlock b.bytes };
}

impl Block {
    /// The block of these bytes; `None` if they are none, or more than 4096. They are kept as they are: a slice keeps
    /// all the memory that it was cut from, and whoever has one of a larger piece calls [`Block::copied`].
    // rule: Cut into blocks
    pub fn new(bytes: Bytes) -> Option<Block>
        // there is a block of exactly 1 to 4096 bytes
        ensures valid { IsSome result ↔ IsBlock bytes }
        // and it has these bytes
        ensures value { IfSome result (λ block. block ≡ bytes) }
    {
        if bytes.is_empty() || bytes.len() > MAX_BLOCK {
            None
        } else {
            Some(Block { bytes })
        }
    }

    /// The block of these bytes. They are copied only if they fill less than half of their memory, so a block keeps
    /// at most twice its bytes. `Err` if memory was refused.
    pub fn of_vec(alloc: Global, bytes: Vec<u8>) -> Result<Block, OutOfMemory>
        requires { IsBlock bytes.items }
        ensures { IfOk result (λ block. block ≡ bytes.items) }
    {
        let bytes = with_little_room(alloc, bytes)?;
        Ok(Block {
            bytes: Bytes::from_vec(bytes)?,
        })
    }

    /// The block of these bytes, which are copied. `Err` if memory was refused.
    pub fn copied(alloc: Global, bytes: &[u8]) -> Result<Block, OutOfMemory>
        requires { IsBlock bytes.now }
        ensures { IfOk result (λ block. block ≡ bytes.now) }
    {
        Ok(Block {
            bytes: Bytes::copy_from_slice(alloc, bytes)?,
        })
    }

    /// Its number of bytes, 1 to 4096.
    pub fn len(&self) -> usize
        ensures value { result ≡ length self.now }
        ensures range { IsBlock self.now }
    {
        self.bytes.len()
    }

    /// Its bytes.
    pub fn as_bytes(&self) -> &[u8]
        ensures { result.now ≡ self.now }
    {
        self.bytes.as_slice()
    }

    /// Its bytes, as a shared slice.
    pub fn into_bytes(self) -> Bytes
        ensures { result ≡ self }
    {
        let Block { bytes } = self;
        bytes
    }

    /// The block that these bytes were.
    pub(crate) fn again(bytes: Bytes) -> Block
        requires { IsBlock bytes }
        ensures { result ≡ bytes }
    {
        Block { bytes }
    }

    /// Another handle on the same bytes, which need not be copied for it.
    /// `OutOfMemory` if memory was refused.
    pub fn share(&self) -> Result<Block, OutOfMemory>
        ensures { IfOk result (λ block. block ≡ self.now) }
    {
        Ok(Block {
            bytes: self.bytes.clone()?,
        })
    }
}

/// The same bytes, in memory that they fill to a half at least.
fn with_little_room(alloc: Global, bytes: Vec<u8>) -> Result<Vec<u8>, OutOfMemory>
    ensures { IfOk result (λ v. v.items ≡ bytes.items) }
{
    if bytes.capacity() <= bytes.len().saturating_mul(2) {
        return Ok(bytes);
    }
    Vec::from_slice(alloc, bytes.as_slice())
}
