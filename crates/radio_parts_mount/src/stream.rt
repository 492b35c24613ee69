//! The data of a session, of which the last blocks are kept.

ghost use Rattle.std.specs.Prelude.{◌≡◌, ◌+◌, ◌++◌, ◌≤◌, length, IfOk, OnOk, OnErr};
ghost use Rattle.radio_parts_mount.specs.Stream.{no_data, end_of, with_block, burst_start, data_at};
ghost use Rattle.radio_parts_mount.specs.Kept.{first_start, kept_stream};

use crate::OutOfMemory;
use radio_blocks::{Block, BlockQueue, DrawFault, Pieces, Place};
use std::alloc::{AllocError, Global};
use std::marker::Model;

/// The data of one session. The last blocks are kept; contracts read a byte before them as zero, so
/// that places count the bytes of the whole stream.
pub struct Stream {
    queue: BlockQueue,
}

impl Drop for Stream {
    fn drop(self) {
        let Stream { queue } = self;
        drop(queue);
    }
}

impl Model for Stream {
    ghost use Rattle.radio_parts_mount.specs.Stream.{WholeStream};
    ghost use Rattle.radio_parts_mount.specs.Kept.{stream_of};

    ghost Value = { WholeStream };

    ghost view = { λ s. stream_of s.queue };
}

impl Stream {
    /// The stream of a session that has delivered nothing. It takes no memory.
    pub fn new(alloc: Global) -> Stream
        ensures { result ≡ no_data }
    {
        Stream {
            queue: BlockQueue::new(alloc, 0),
        }
    }

    /// The place behind its last byte.
    pub fn end(&self) -> u64
        ensures { result ≡ end_of self.now }
    {
        self.queue.end().bytes_before()
    }

    /// Returns the place before which the stream is forgotten.
    pub fn first(&self) -> Place
        ensures { result ≡ first_start (end_of self.now) self.now.starts }
    {
        self.queue.offset()
    }

    /// Appends a block, and forgets the first blocks where those behind them have `limit` bytes.
    /// `OutOfMemory` if memory was refused, and where the stream would have 2^64 bytes; the
    /// stream is unchanged then.
    // rule: Kept stream
    pub fn push(&mut self, block: Block, limit: u64) -> Result<(), OutOfMemory>
        ensures ok { OnOk result (self.new ≡ kept_stream limit (with_block self.old block)) }
        ensures err { OnErr result (self.new ≡ self.old) }
    {
        if self.end().checked_add(block.len() as u64).is_none() {
            drop(block);
            return Err(AllocError);
        }
        self.queue.set_limit(limit);
        self.queue.push(block)?;
        Ok(())
    }

    /// Where a listener begins who is to be sent at most `burst` bytes at once.
    // rule: Start of the burst
    pub fn burst_start(&self, burst: u64) -> Place
        ensures { result ≡ burst_start self.now burst }
    {
        self.queue.start_for(burst)
    }

    /// Appends to the pieces the data from the place on, at most `room` bytes, as slices that are
    /// shared with the stream, and returns the place behind them. `OutOfMemory` if memory was
    /// refused; the pieces are unchanged then.
    pub fn draw(&self, place: Place, room: u32, pieces: &mut Pieces) -> Result<Place, OutOfMemory>
        // the place is not forgotten
        requires { first_start (end_of self.now) self.now.starts ≤ place }
        ensures pieces { OnOk result (pieces.new ≡ pieces.old ++ data_at self.now place room) }
        ensures place { IfOk result (λ after. after ≡ place + length (data_at self.now place room)) }
        ensures err { OnErr result (pieces.new ≡ pieces.old) }
    {
        match self.queue.draw(place, room, pieces) {
            Ok(after) => Ok(after),
            Err(DrawFault::OutOfMemory) => Err(AllocError),
            Err(DrawFault::Trimmed) => unreachable!(),
        }
    }
}
