//! Blocks that share a piece of memory.
ghost use Rattle.std.specs.Prelude.{◌≡◌, ◌+◌, ◌-◌, ◌<◌, ◌≤◌, ◌==◌, ◌++◌, ◌∷◌, [], nat_le, length, take, drop, find, IsTrue, IfSome, IfOk, MatchOption, OnOk, slice_index_or, Some};
ghost use Rattle.std.specs.List.{concat};
ghost use Rattle.radio_blocks.specs.Chunk.{cut_by, total};
ghost use Rattle.radio_blocks.specs.Queue.{starts_from};
ghost use Rattle.radio_blocks.specs.Parts.{parts_of};

use crate::OutOfMemory;
use crate::parts::{part_of, push_cuts, push_part};
use crate::sizes::Sizes;
use bytes::Bytes;
use std::alloc::Global;
use std::collections::VecDeque;
use std::marker::Model;

/// Consecutive blocks of a stream in one piece of memory: one block, or several small ones that were packed.
///
/// In contracts it is the list of its blocks.
#[derive(Drop)]
pub(crate) struct Chunk {
    bytes: Bytes,
    /// The sizes of the blocks if they were packed.
    sizes: Option<Sizes>,
}

impl Model for Chunk {
    ghost use Rattle.std.specs.Prelude.{ℕ, List};
    ghost use Rattle.radio_blocks.specs.Chunk.{blocks_in, Fit};

    ghost Value = { List (List ℕ) };

    ghost view = { λ c. blocks_in c.sizes c.bytes };

    ghost invariant = { λ c. Fit c.sizes c.bytes };
}

impl Chunk {
    /// The chunk of a single block, which is not copied.
    pub(crate) fn of_block(bytes: Bytes) -> Chunk
        ensures { result ≡ bytes ∷ [] }
    {
        Chunk { bytes, sizes: None }
    }

    /// The chunk of blocks of these sizes, whose bytes are joined. `None` if there is no block, or memory was refused.
    pub(crate) fn packed(alloc: Global, bytes: Vec<u8>, sizes: VecDeque<u16>) -> Option<Chunk>
        requires { total sizes.items ≡ length bytes.items }
        ensures some { IfSome result (λ _. 0 < length sizes.items) }
        ensures blocks { IfSome result (λ chunk. chunk ≡ cut_by sizes.items bytes.items) }
    {
        if sizes.is_empty() {
            return None;
        }
        let sizes = Sizes::new(alloc, sizes).ok()?;
        let bytes = Bytes::from_vec(bytes).ok()?;
        Some(Chunk {
            bytes,
            sizes: Some(sizes),
        })
    }

    /// The number of bytes of all its blocks.
    pub(crate) fn len(&self) -> usize
        ensures { result ≡ length (concat self.now) }
    {
        self.bytes.len()
    }

    /// The bytes of all its blocks.
    pub(crate) fn as_bytes(&self) -> &[u8]
        ensures { result.now ≡ concat self.now }
    {
        self.bytes.as_slice()
    }

    /// The size of its block, if it is one block that was not packed and its size fits.
    pub(crate) fn only_size(&self) -> Option<u16>
        ensures { IfSome result (λ size. (size ≡ length (concat self.now)) × (self.now ≡ concat self.now ∷ [])) }
    {
        match &self.sizes {
            None => u16::try_from(self.bytes.len()).ok(),
            Some(_) => None,
        }
    }

    /// Whether it is one block that was not packed.
    pub(crate) fn is_block(&self) -> bool
        ensures { IsTrue result → length self.now ≡ 1 }
    {
        self.sizes.is_none()
    }

    /// The size of its first block.
    pub(crate) fn first_size(&self) -> usize
        ensures value { result ≡ length (slice_index_or self.now 0 []) }
        // and there is one
        ensures some { 0 < length self.now }
    {
        match &self.sizes {
            None => self.bytes.len(),
            Some(sizes) => sizes.first(),
        }
    }

    /// The same without its first block; `None` if it has no other.
    pub(crate) fn without_first(self) -> Option<Chunk>
        ensures rest { MatchOption result (drop 1 self ≡ []) (λ rest. rest ≡ drop 1 self) }
        ensures some { 0 < length self }
    {
        let Chunk { bytes, sizes } = self;
        let sizes = sizes?;
        let first = sizes.first();
        let sizes = sizes.without_first()?;
        let mut bytes = bytes;
        bytes.advance(first);
        Some(Chunk {
            bytes,
            sizes: Some(sizes),
        })
    }

    /// Returns the first start of a block that is at most `burst` bytes before `end`, if the first block starts at `start`.
    pub(crate) fn start_within(&self, start: u64, end: u64, burst: u64) -> Option<u64>
        requires { start + length (concat self.now) ≤ end }
        ensures { result ≡ find (λ place. nat_le (end - place) burst) (starts_from start self.now) }
    {
        match &self.sizes {
            None if end - start <= burst => Some(start),
            None => None,
            Some(sizes) => sizes.start_within(start, end, burst),
        }
    }

    /// At most `room` of its bytes, but for the `skip` bytes at the front, as one slice.
    pub(crate) fn part(&self, skip: usize, room: usize) -> Result<Bytes, OutOfMemory>
        ensures { IfOk result (λ part. part ≡ take room (drop skip (concat self.now))) }
    {
        part_of(&self.bytes, skip, room)
    }

    /// Puts at most `room` bytes of the blocks behind the slices, but for the `skip` bytes at the front: a slice of each
    /// block that has some of them. `OutOfMemory` if memory was refused; slices may have been added then.
    pub(crate) fn push_parts(
        &self,
        slices: &mut Vec<Bytes>,
        skip: usize,
        room: usize,
    ) -> Result<(), OutOfMemory>
        ensures ok { OnOk result (slices.new.items ≡ slices.old.items ++ parts_of skip room self.now) }
        ensures kept { take (length slices.old.items) slices.new.items ≡ slices.old.items }
    {
        match &self.sizes {
            None => push_part(slices, &self.bytes, skip, room),
            Some(sizes) => push_cuts(slices, &self.bytes, sizes.list(), skip, room),
        }
    }
}
