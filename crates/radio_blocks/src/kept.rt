//! A list of blocks that takes little more memory than their bytes.
ghost use Rattle.std.specs.Prelude.{◌≡◌, ◌+◌, ◌-◌, ◌<◌, ◌≤◌, ◌++◌, ◌∷◌, [], nat_le, map, length, take, drop, find, unwrap_or, IfSome, IfErr, OnOk, OnErr, MatchOption, slice_index_or};
ghost use Rattle.std.specs.List.{concat};
ghost use Rattle.radio_blocks.specs.Chunk.{all_blocks, cut_by, total};
ghost use Rattle.radio_blocks.specs.Queue.{starts_from, shortest_tail};

use crate::OutOfMemory;
use crate::block::Block;
use crate::chunk::Chunk;
use crate::pieces::Pieces;
use std::alloc::{AllocFailed, Global};
use std::collections::VecDeque;
use std::marker::Model;

/// A block of fewer bytes than this is small.
const SMALL: usize = 512;

/// A row of small blocks is packed once it has this many bytes.
const ROW_BYTES: u32 = 4096;

/// A row of at least this many small blocks is packed once a larger block comes.
const ROW_BLOCKS: u32 = 32;

/// Blocks in order. In contracts it is their list.
///
/// A block has its own piece of memory at first, which takes some 125 bytes more than the block. A row of blocks of fewer
/// than [`SMALL`] bytes is packed once it has [`ROW_BYTES`], or once a larger block comes and it has [`ROW_BLOCKS`]: copied
/// into one piece. So at most the last 4,095 blocks take 125 bytes each, and all others at most 10 bytes of memory a byte.
#[derive(Drop)]
pub(crate) struct KeptBlocks {
    chunks: VecDeque<Chunk>,
    /// How many of the last blocks are small and not packed, and their bytes.
    row_blocks: u32,
    row_bytes: u32,
}

impl Model for KeptBlocks {
    ghost use Rattle.std.specs.Prelude.{ℕ, List, ◌<◌, ◌≤◌};
    ghost use Rattle.radio_blocks.specs.Chunk.{all_blocks};

    ghost Value = { List (List ℕ) };

    ghost view = { λ k. all_blocks k.chunks.items };

    ghost invariant = { λ k. (k.row_blocks ≤ k.row_bytes) × (k.row_bytes < 4096) };
}

impl KeptBlocks {
    /// No blocks. It takes no memory.
    pub(crate) fn new(alloc: Global) -> KeptBlocks
        ensures { result ≡ [] }
    {
        KeptBlocks {
            chunks: VecDeque::new(alloc),
            row_blocks: 0,
            row_bytes: 0,
        }
    }

    /// Adds a block behind the others. `Err` has the block if memory was refused; nothing has changed then.
    pub(crate) fn push(&mut self, block: Block) -> Result<(), AllocFailed<Block>>
        ensures ok { OnOk result (self.new ≡ self.old ++ block ∷ []) }
        ensures err { OnErr result (self.new ≡ self.old) }
        ensures handed_back { IfErr result (λ refused. refused.value ≡ block) }
    {
        let size = block.len();
        self.end_row(size);
        if self.chunks.reserve(1).is_err() {
            return Err(AllocFailed { value: block });
        }
        self.chunks
            .push_back_reserved(Chunk::of_block(block.into_bytes()));
        self.lengthen_row(size);
        Ok(())
    }

    /// Ends the row if a block of this size is not small. Packs the row then if it has enough blocks.
    fn end_row(&mut self, size: usize)
        ensures { self.new ≡ self.old }
    {
        if size < SMALL || self.row_blocks == 0 {
            return;
        }
        let blocks = self.row_blocks;
        let bytes = self.row_bytes;
        self.row_blocks = 0;
        self.row_bytes = 0;
        if blocks >= ROW_BLOCKS {
            pack_last(&mut self.chunks, blocks as usize, bytes as usize);
        }
    }

    /// Counts the last block, of this size, to the row if it is small. Packs the row then if it has enough bytes.
    fn lengthen_row(&mut self, size: usize)
        requires { 1 ≤ size }
        ensures { self.new ≡ self.old }
    {
        if size >= SMALL {
            return;
        }
        let blocks = self.row_blocks + 1;
        let bytes = self.row_bytes + size as u32;
        if bytes < ROW_BYTES {
            self.row_blocks = blocks;
            self.row_bytes = bytes;
            return;
        }
        self.row_blocks = 0;
        self.row_bytes = 0;
        pack_last(&mut self.chunks, blocks as usize, bytes as usize);
    }

    /// Drops the first block if it has at most `spare` bytes, and returns how many. `None` if it has more, or there is none.
    pub(crate) fn drop_first(&mut self, spare: u64) -> Option<u64>
        ensures { MatchOption result
            ((self.new ≡ self.old) × (0 < length self.old → spare < length (slice_index_or self.old 0 [])))
            (λ size. (0 < length self.old) × (size ≡ length (slice_index_or self.old 0 [])) × (size ≤ spare) × (self.new ≡ drop 1 self.old)) }
    {
        let first = self.chunks.front()?;
        let size = first.first_size() as u64;
        if size > spare {
            return None;
        }
        if first.is_block() {
            self.chunks.pop_front();
        } else {
            drop_packed(&mut self.chunks);
        }
        Some(size)
    }

    /// Returns the first start of a block that is at most `burst` bytes before `end`, or `end`, if the first block starts at
    /// `start`.
    pub(crate) fn start_within(&self, start: u64, end: u64, burst: u64) -> u64
        requires { start + length (concat self.now) ≡ end }
        ensures { result ≡ unwrap_or (find (λ place. nat_le (end - place) burst) (starts_from start self.now)) end }
    {
        let mut start = start;
        for i in 0..self.chunks.len() {
            let chunk = &self.chunks[i];
            if let Some(found) = chunk.start_within(start, end, burst) {
                return found;
            }
            start += chunk.len() as u64;
        }
        end
    }

    /// Appends the last `lag` bytes to the pieces, but at most the first `room` of them. `OutOfMemory` if memory was
    /// refused; the pieces are unchanged then.
    pub(crate) fn draw_last(
        &self,
        lag: usize,
        room: usize,
        pieces: &mut Pieces,
    ) -> Result<(), OutOfMemory>
        requires { lag ≤ length (concat self.now) }
        ensures ok { OnOk result (pieces.new ≡ pieces.old ++ take room (drop (length (concat self.now) - lag) (concat self.now))) }
        ensures err { OnErr result (pieces.new ≡ pieces.old) }
    {
        let (index, skip) = last_start(&self.chunks, lag);
        pieces.append_from(&self.chunks, index, skip, room)
    }
}

/// Drops the first block, if there is one, of a chunk that may have others.
fn drop_packed(chunks: &mut VecDeque<Chunk>)
    ensures { all_blocks chunks.new.items ≡ drop 1 (all_blocks chunks.old.items) }
{
    let Some(first) = chunks.pop_front() else {
        return;
    };
    if let Some(rest) = first.without_first() {
        chunks.push_front_reserved(rest);
    }
}

/// Packs so many of the last chunks, which have so many bytes, into one if each is a single block. If memory is refused
/// they stay as they are.
fn pack_last(chunks: &mut VecDeque<Chunk>, count: usize, bytes: usize)
    ensures { all_blocks chunks.new.items ≡ all_blocks chunks.old.items }
{
    let from = chunks.len().saturating_sub(count);
    if let Some(chunk) = packed_from(chunks, from, bytes) {
        chunks.truncate(from);
        chunks.push_back_reserved(chunk);
    }
}

/// The blocks of the chunks from one of them on in one chunk, with room for so many bytes. `None` if there are none, one
/// of these chunks was packed already, or memory was refused.
fn packed_from(chunks: &VecDeque<Chunk>, from: usize, room: usize) -> Option<Chunk>
    requires { from ≤ length chunks.now.items }
    ensures some { IfSome result (λ _. from < length chunks.now.items) }
    ensures blocks { IfSome result (λ chunk. chunk ≡ all_blocks (drop from chunks.now.items)) }
{
    let alloc = *chunks.allocator();
    let mut bytes = Vec::with_capacity(alloc, room).ok()?;
    let mut sizes = VecDeque::with_capacity(alloc, chunks.len() - from).ok()?;
    join_blocks(chunks, from, &mut bytes, &mut sizes)?;
    Chunk::packed(alloc, bytes, sizes)
}

/// Gives the joined bytes and the sizes of the chunks from one of them on. `None` if one of them was packed already, or
/// memory was refused; a part may have been given then.
fn join_blocks(
    chunks: &VecDeque<Chunk>,
    from: usize,
    bytes: &mut Vec<u8>,
    sizes: &mut VecDeque<u16>,
) -> Option<()>
    requires { (from ≤ length chunks.now.items) × (bytes.old.items ≡ []) × (sizes.old.items ≡ []) }
    ensures fit { IfSome result (λ _. total sizes.new.items ≡ length bytes.new.items) }
    ensures count { IfSome result (λ _. from + length sizes.new.items ≡ length chunks.now.items) }
    ensures blocks { IfSome result (λ _. cut_by sizes.new.items bytes.new.items ≡ all_blocks (drop from chunks.now.items)) }
{
    for i in from..chunks.len() {
        let chunk = &chunks[i];
        sizes.push_back(chunk.only_size()?).ok()?;
        bytes.extend_from_slice(chunk.as_bytes()).ok()?;
    }
    Some(())
}

/// The chunk in which the last `lag` bytes begin, and how many of its bytes lie before them. It looks from the end on,
/// so it costs as many steps as chunks hold these bytes.
fn last_start(chunks: &VecDeque<Chunk>, lag: usize) -> (usize, usize)
    requires { lag ≤ length (concat (map concat chunks.now.items)) }
    // from this chunk on they are the fewest that hold the bytes
    ensures fewest { drop result.0 (map concat chunks.now.items) ≡ shortest_tail lag (map concat chunks.now.items) }
    ensures skip { result.1 + lag ≡ length (concat (drop result.0 (map concat chunks.now.items))) }
{
    let mut index = chunks.len();
    let mut left = lag;
    if lag == 0 {
        return (index, 0);
    }
    'index: while index > 0 {
        index -= 1;
        let size = chunks[index].len();
        if left <= size {
            return (index, size - left);
        }
        left -= size;
    }
    (0, 0)
}
