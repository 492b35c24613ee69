//! A bounded queue of blocks: the tail of a stream that is kept in memory.
ghost use Rattle.std.specs.Prelude.{◌≡◌, ◌+◌, ◌-◌, ◌^◌, ◌<◌, ◌≤◌, ◌++◌, ◌↔◌, ℕ, List, min, length, take, drop, IsTrue, IsFalse, IfOk, IfErr, OnOk, OnErr};
ghost use Rattle.std.specs.List.{concat};
ghost use Rattle.std.specs.declared.result.Result.TheVariants.{Err};
ghost use Rattle.radio_blocks.specs.declared.queue.DrawFault.TheVariants.{Trimmed};
ghost use Rattle.radio_blocks.specs.Queue.{nothing_kept, kept_end, kept_lag, trimmed, with_pushed, kept_start, kept_data, bytes_behind};

use crate::OutOfMemory;
use crate::block::Block;
use crate::kept::KeptBlocks;
use crate::pieces::Pieces;
use crate::place::Place;
use std::alloc::{AllocFailed, Global};
use std::marker::Model;

/// Why nothing was drawn.
#[derive(Clone, Copy, Debug, PartialEq, Eq)]
pub enum DrawFault {
    /// The place lies before the blocks that are kept.
    Trimmed,
    /// Memory was refused.
    OutOfMemory,
}

/// The last blocks of a stream, as shared slices; small ones are packed, so that they take little memory. Places count the bytes of the whole stream.
///
/// After each push it keeps the fewest whole blocks that have at least `limit` bytes together, or all blocks
/// where these have fewer.
pub struct BlockQueue {
    limit: u64,
    offset: u64,
    end: u64,
    blocks: KeptBlocks,
}

impl Drop for BlockQueue {
    fn drop(self) {
        let BlockQueue {
            limit: _,
            offset: _,
            end: _,
            blocks,
        } = self;
        drop(blocks);
    }
}

impl Model for BlockQueue {
    ghost use Rattle.std.specs.Prelude.{◌≡◌, ◌+◌, length};
    ghost use Rattle.std.specs.List.{concat};
    ghost use Rattle.radio_blocks.specs.Queue.{KeptTail};

    ghost Value = { KeptTail };

    ghost view = { λ q. record { offset = q.offset; blocks = q.blocks; limit = q.limit } };

    ghost invariant = { λ q. q.offset + length (concat q.blocks) ≡ q.end };
}

impl BlockQueue {
    /// The queue of a stream of which nothing has come. It is to keep at least `limit` bytes. It takes no memory.
    pub fn new(alloc: Global, limit: u64) -> BlockQueue
        ensures { result ≡ nothing_kept limit }
    {
        BlockQueue {
            limit,
            offset: 0,
            end: 0,
            blocks: KeptBlocks::new(alloc),
        }
    }

    /// It is to keep at least `limit` bytes from the next push on; until then it keeps what it has. It takes no memory.
    pub fn set_limit(&mut self, limit: u64)
        ensures { self.new ≡ record self.old { limit = limit } }
    {
        self.limit = limit;
    }

    /// The place where the first kept block starts.
    pub fn offset(&self) -> Place
        ensures { result ≡ self.now.offset }
    {
        Place::new(self.offset)
    }

    /// The place behind the last byte of the stream.
    pub fn end(&self) -> Place
        ensures { result ≡ kept_end self.now }
    {
        Place::new(self.end)
    }

    /// How many bytes of the stream lie behind the place; 0 where it is the end or behind it.
    pub fn lag(&self, place: Place) -> u64
        ensures { result ≡ kept_lag self.now place }
    {
        self.end.saturating_sub(place.bytes_before())
    }

    /// Where a listener begins who is to be sent at most `burst` bytes at once: the first start of a kept block that
    /// is at most so many bytes before the end, or the end.
    pub fn start_for(&self, burst: u64) -> Place
        ensures { result ≡ kept_start self.now burst }
    {
        Place::new(self.blocks.start_within(self.offset, self.end, burst))
    }

    /// Appends a block, and drops the blocks at the front that are not needed for `limit` bytes. The stream must not
    /// reach 2^64 bytes by it. `Err` has the block if memory was refused; the queue is unchanged then.
    // rule: Kept stream
    pub fn push(&mut self, block: Block) -> Result<(), AllocFailed<Block>>
        requires grows { kept_end self.old + length block < 2 ^ 64 }
        ensures ok { OnOk result (self.new ≡ with_pushed self.old block) }
        ensures err { OnErr result (self.new ≡ self.old) }
        // and the block is handed back
        ensures handed_back { IfErr result (λ refused. refused.value ≡ block) }
    {
        let end = self.end + block.len() as u64;
        if let Err(refused) = self.blocks.push(block) {
            return Err(refused);
        }
        self.end = end;
        self.trim();
        Ok(())
    }

    /// Drops the blocks that are not needed.
    fn trim(&mut self)
        ensures { self.new ≡ trimmed self.old }
    {
        'others: while self.drop_first() {}
    }

    /// Drops the first block where the others have enough bytes, and says whether it did.
    // rule: Kept stream
    fn drop_first(&mut self) -> bool
        ensures same { trimmed self.new ≡ trimmed self.old }
        ensures dropped { IsTrue result → length self.new.blocks < length self.old.blocks }
        ensures done { IsFalse result → trimmed self.new ≡ self.new }
    {
        let kept = self.end - self.offset;
        if kept < self.limit {
            return false;
        }
        let Some(size) = self.blocks.drop_first(kept - self.limit) else {
            return false;
        };
        self.offset += size;
        true
    }

    /// Appends to the pieces the data from the place on, at most `room` bytes, as slices that are shared with the
    /// queue, and returns the place behind them. `Trimmed` if the place lies before the kept blocks, `OutOfMemory` if
    /// memory was refused; the pieces are unchanged then.
    // rule: Kept stream
    pub fn draw(&self, place: Place, room: u32, pieces: &mut Pieces) -> Result<Place, DrawFault>
        // what is drawn is what is kept at the place
        ensures kept { OnOk result (pieces.new ≡ pieces.old ++ kept_data self.now place room) }
        // and so it is the data at the place of every stream that ends in what is kept
        ensures stream { (stream : List ℕ) → drop self.now.offset stream ≡ concat self.now.blocks
            → OnOk result (pieces.new ≡ pieces.old ++ take room (drop place stream)) }
        ensures place { IfOk result (λ after. after ≡ place + min room (kept_lag self.now place)) }
        ensures trimmed { (result ≡ Err Trimmed) ↔ (place < self.now.offset) }
        ensures err { OnErr result (pieces.new ≡ pieces.old) }
    {
        let before = place.bytes_before();
        if before < self.offset {
            return Err(DrawFault::Trimmed);
        }
        let lag = self.end.saturating_sub(before);
        match self.blocks.draw_last(lag as usize, room as usize, pieces) {
            Ok(()) => Ok(Place::new(before + lag.min(room as u64))),
            Err(_) => Err(DrawFault::OutOfMemory),
        }
    }
}
