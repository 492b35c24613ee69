//! Data that come in parts, cut into blocks while they come.
ghost use Rattle.std.specs.Prelude.{◌≡◌, ℕ, ◌+◌, ◌<◌, [], ◌∷◌, ◌++◌, length, IsTrue, ◌↔◌, IfOk, OnOk, OnErr};
ghost use Rattle.radio_blocks.specs.Block.{IsBlock};
ghost use Rattle.radio_blocks.specs.Cutting.{blocks_of};

use crate::OutOfMemory;
use crate::block::{Block, MAX_BLOCK};
use std::alloc::Global;
use std::marker::Model;
use std::mem;

/// Data in order, as those of one feed of a source: whole blocks of 4096 bytes, and the bytes after them.
///
/// In contracts it is the bytes so far.
#[derive(Drop)]
pub struct Gathering {
    alloc: Global,
    /// The most bytes that may still come.
    expected: usize,
    blocks: Vec<Block>,
    last: Vec<u8>,
}

impl Model for Gathering {
    ghost use Rattle.std.specs.Prelude.{ℕ, List, ◌++◌, ◌<◌, length};
    ghost use Rattle.std.specs.List.{concat};
    ghost use Rattle.radio_blocks.specs.Gathering.{AreFull};

    ghost Value = { List ℕ };

    ghost view = { λ g. concat g.blocks.items ++ g.last.items };

    ghost invariant = { λ g. AreFull g.blocks.items × (length g.last.items < 4096) };
}

impl Gathering {
    /// No data yet; at most so many bytes are expected, and room is made for no more.
    pub fn new(alloc: Global, expected: usize) -> Gathering
        ensures { result ≡ [] }
    {
        Gathering {
            alloc,
            expected,
            blocks: Vec::new(alloc),
            last: Vec::new(alloc),
        }
    }

    /// Adds data. `Err` if memory was refused; a part may have been added then, so the gathering is of no use.
    pub fn add(&mut self, bytes: &[u8]) -> Result<(), OutOfMemory>
        ensures { OnOk result (self.new ≡ self.old ++ bytes.now) }
    {
        let mut rest = bytes;
        'rest: while !rest.is_empty() {
            rest = self.add_some(rest)?;
        }
        Ok(())
    }

    /// Adds what fits the block that has begun, and returns the bytes behind.
    fn add_some<'b>(&mut self, bytes: &'b [u8]) -> Result<&'b [u8], OutOfMemory>
        requires { 0 < length bytes.now }
        ensures shorter { IfOk result (λ rest. length rest.now < length bytes.now) }
        ensures value { IfOk result (λ rest. self.new ++ rest.now ≡ self.old ++ bytes.now) }
    {
        self.make_room()?;
        let (front, rest) = bytes.split_at(bytes.len().min(MAX_BLOCK - self.last.len()));
        self.last.extend_from_slice(front)?;
        if self.last.len() < MAX_BLOCK {
            return Ok(rest);
        }
        let whole = mem::replace(&mut self.last, Vec::new(self.alloc));
        push_block(self.alloc, &mut self.blocks, whole)?;
        self.expected = self.expected.saturating_sub(MAX_BLOCK);
        Ok(rest)
    }

    /// Makes room for a block, once for all its bytes.
    fn make_room(&mut self) -> Result<(), OutOfMemory>
        ensures { self.new ≡ self.old }
    {
        if self.last.is_empty() {
            self.last = Vec::with_capacity(self.alloc, self.expected.min(MAX_BLOCK))?;
        }
        Ok(())
    }

    /// The data in blocks: all of 4096 bytes but the last. `Err` if memory was refused.
    pub fn into_blocks(self) -> Result<Vec<Block>, OutOfMemory>
        ensures { IfOk result (λ blocks. blocks.items ≡ blocks_of self) }
    {
        let Gathering {
            alloc,
            blocks,
            last,
            ..
        } = self;
        let mut blocks = blocks;
        if last.is_empty() {
            return Ok(blocks);
        }
        push_block(alloc, &mut blocks, last)?;
        Ok(blocks)
    }
}

/// Adds the block of these bytes.
fn push_block(alloc: Global, blocks: &mut Vec<Block>, bytes: Vec<u8>) -> Result<(), OutOfMemory>
    requires { IsBlock bytes.items }
    ensures ok { OnOk result (blocks.new.items ≡ blocks.old.items ++ bytes.items ∷ []) }
    ensures err { OnErr result (blocks.new.items ≡ blocks.old.items) }
{
    let block = Block::of_vec(alloc, bytes)?;
    blocks.push(block)?;
    Ok(())
}
