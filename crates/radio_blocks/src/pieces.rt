//! Data that a listener draws.
ghost use Rattle.std.specs.Prelude.{◌≡◌, ◌++◌, ◌∷◌, [], suc, map, length, take, drop, IsTrue, IfOk, OnOk, OnErr};
ghost use Rattle.std.specs.List.{concat};
ghost use Rattle.radio_blocks.specs.Chunk.{all_blocks};
ghost use Rattle.radio_blocks.specs.Parts.{parts_of};
ghost use Rattle.radio_blocks.specs.Queue.{bytes_behind};

use crate::OutOfMemory;
use crate::chunk::Chunk;
use bytes::Bytes;
use std::alloc::Global;
use std::collections::VecDeque;
use std::marker::Model;
use std::slice;

/// Data drawn from a stream, in order, as shared slices. In contracts they are the bytes joined.
pub struct Pieces {
    alloc: Global,
    slices: Slices,
}

/// The slices, in order. Most draws bring one, which takes no memory.
#[derive(Drop)]
enum Slices {
    One(Bytes),
    Many(Vec<Bytes>),
}

impl Drop for Pieces {
    fn drop(self) {
        let Pieces { alloc: _, slices } = self;
        drop(slices);
    }
}

impl Model for Pieces {
    ghost use Rattle.std.specs.Prelude.{ℕ, List};
    ghost use Rattle.std.specs.List.{concat};
    ghost use Rattle.radio_blocks.specs.Pieces.{slices_of};

    ghost Value = { List ℕ };

    ghost view = { λ p. concat (slices_of p.slices) };
}

impl Pieces {
    /// No data yet.
    pub fn new(alloc: Global) -> Pieces
        ensures { result ≡ [] }
    {
        Pieces {
            alloc,
            slices: Slices::Many(Vec::new(alloc)),
        }
    }

    /// Appends at most `room` bytes of the chunks, from the chunk at `index` on, but for the `skip` bytes at the front.
    /// They are not copied. `OutOfMemory` if memory was refused; the pieces are unchanged then.
    pub(crate) fn append_from(
        &mut self,
        chunks: &VecDeque<Chunk>,
        index: usize,
        skip: usize,
        room: usize,
    ) -> Result<(), OutOfMemory>
        ensures ok { OnOk result (self.new ≡ self.old ++ take room (bytes_behind index skip (map concat chunks.now.items))) }
        ensures err { OnErr result (self.new ≡ self.old) }
    {
        let slices = match &mut self.slices {
            Slices::One(first) => {
                let slices = one_and_parts(self.alloc, first, chunks, index, skip, room)?;
                Slices::Many(slices)
            }
            Slices::Many(slices) if slices.is_empty() && is_last_block(chunks, index) => {
                Slices::One(last_part(chunks, index, skip, room)?)
            }
            Slices::Many(slices) => return push_all_parts(slices, chunks, index, skip, room),
        };
        self.slices = slices;
        Ok(())
    }

    /// Equal pieces: the slices are shared with these. `OutOfMemory` if memory was refused.
    pub fn again(&self) -> Result<Pieces, OutOfMemory>
        ensures { IfOk result (λ pieces. pieces ≡ self.now) }
    {
        let slices = match &self.slices {
            Slices::One(slice) => Slices::One(slice.clone()?),
            Slices::Many(slices) => Slices::Many(slices.clone()?),
        };
        Ok(Pieces {
            alloc: self.alloc,
            slices,
        })
    }

    /// The slices, in order.
    pub fn slices(&self) -> &[Bytes]
        ensures { concat result.now ≡ self.now }
    {
        match &self.slices {
            Slices::One(slice) => slice::from_ref(slice),
            Slices::Many(slices) => slices.as_slice(),
        }
    }

    /// Writes the bytes behind those of a buffer. `OutOfMemory` if memory was refused; the buffer is unchanged then.
    pub fn write_to(&self, out: &mut Vec<u8>) -> Result<(), OutOfMemory>
        ensures ok { OnOk result (out.new.items ≡ out.old.items ++ self.now) }
        ensures err { OnErr result (out.new.items ≡ out.old.items) }
    {
        write_slices(self.slices(), out)
    }
}

fn write_slices(slices: &[Bytes], out: &mut Vec<u8>) -> Result<(), OutOfMemory>
    ensures ok { OnOk result (out.new.items ≡ out.old.items ++ concat slices.now) }
    ensures err { OnErr result (out.new.items ≡ out.old.items) }
{
    let before = out.len();
    for slice in slices {
        if let Err(refused) = out.extend_from_slice(slice.as_slice()) {
            out.truncate(before);
            return Err(refused);
        }
    }
    Ok(())
}

/// Whether this chunk is the last one, and a single block.
fn is_last_block(chunks: &VecDeque<Chunk>, index: usize) -> bool
    ensures { IsTrue result → length chunks.now.items ≡ suc index }
{
    index < chunks.len() && chunks.len() - index == 1 && chunks[index].is_block()
}

/// As much of the last chunk, which is a single block. `OutOfMemory` if memory was refused.
// rule: Draws
fn last_part(
    chunks: &VecDeque<Chunk>,
    index: usize,
    skip: usize,
    room: usize,
) -> Result<Bytes, OutOfMemory>
    requires { length chunks.now.items ≡ suc index }
    ensures { IfOk result (λ part. part ≡ take room (bytes_behind index skip (map concat chunks.now.items))) }
{
    chunks[index].part(skip, room)
}

/// A slice, and behind it as much of the chunks. `OutOfMemory` if memory was refused.
fn one_and_parts(
    alloc: Global,
    first: &Bytes,
    chunks: &VecDeque<Chunk>,
    index: usize,
    skip: usize,
    room: usize,
) -> Result<Vec<Bytes>, OutOfMemory>
    ensures { IfOk result (λ slices. concat slices.items ≡ first.now ++ take room (bytes_behind index skip (map concat chunks.now.items))) }
{
    let mut slices = Vec::new(alloc);
    slices.push(first.clone()?)?;
    push_all_parts(&mut slices, chunks, index, skip, room)?;
    Ok(slices)
}

/// Puts at most `room` bytes of the chunks behind the slices, from the chunk at `index` on, but for the `skip` bytes at
/// the front: a slice of each block that has some of them. `OutOfMemory` if memory was refused; the slices are
/// unchanged then.
fn push_all_parts(
    slices: &mut Vec<Bytes>,
    chunks: &VecDeque<Chunk>,
    index: usize,
    skip: usize,
    room: usize,
) -> Result<(), OutOfMemory>
    ensures ok { OnOk result (slices.new.items ≡ slices.old.items ++ parts_of skip room (all_blocks (drop index chunks.now.items))) }
    ensures bytes { OnOk result (concat slices.new.items
        ≡ concat slices.old.items ++ take room (bytes_behind index skip (map concat chunks.now.items))) }
    ensures err { OnErr result (slices.new.items ≡ slices.old.items) }
{
    let before = slices.len();
    let mut index = index;
    let mut skip = skip;
    let mut left = room;
    'index: while left > 0 && index < chunks.len() {
        let chunk = &chunks[index];
        if let Err(refused) = chunk.push_parts(slices, skip, left) {
            slices.truncate(before);
            return Err(refused);
        }
        let size = chunk.len();
        left = left.saturating_sub(size.saturating_sub(skip));
        skip = skip.saturating_sub(size);
        index += 1;
    }
    Ok(())
}
