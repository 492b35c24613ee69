//! A woven stream in, sound and the texts of its metadata blocks out.
ghost use Rattle.std.specs.Prelude.{◌≡◌, ◌+◌, ◌<◌, ◌≤◌, ◌++◌, IfOk, IfSome, OnOk, OnErr};
ghost use Rattle.std.specs.Option.{option_copied};
ghost use Rattle.radio_icy.specs.Unweaving.{new_unweaving, reading, at_sound, atoms_of_piece, after_feeding};
ghost use Rattle.radio_icy.specs.Items.{atoms_of, AreRuns};

use crate::OutOfMemory;
use crate::block::UNIT;
use crate::items::{Item, Items};
use crate::texts::copy_of;
use std::alloc::Global;
use std::marker::Model;

/// Takes the sound and the texts out of a woven stream, however it is cut (ICY convention: `icy-metaint`).
pub struct Unweaver {
    alloc: Global,
    /// Bytes of sound from one block to the next.
    interval: usize,
    /// Bytes to come: of sound before the next length byte, or of the block that has begun.
    left: usize,
    /// The bytes of a block that has begun.
    block: Option<Vec<u8>>,
}

impl Drop for Unweaver {
    fn drop(self) {
        let Unweaver {
            alloc: _,
            interval: _,
            left: _,
            block,
        } = self;
        drop(block);
    }
}

impl Model for Unweaver {
    ghost use Rattle.std.specs.Prelude.{◌<◌, ⊤};
    ghost use Rattle.std.specs.Option.{option_map, MatchOption};
    ghost use Rattle.radio_icy.specs.Unweaving.{Unweaving};

    ghost Value = { Unweaving };

    ghost view = { λ a. record { interval = a.interval; left = a.left; block = option_map (λ v. v.items) a.block } };

    ghost invariant = { λ a. MatchOption a.block ⊤ (λ _. 0 < a.left) };
}

impl Unweaver {
    /// A reader at the start of a stream with a block after each `interval` bytes of sound. It keeps `alloc` for what it
    /// takes out.
    pub fn new(alloc: Global, interval: usize) -> Unweaver
        requires { 1 ≤ interval }
        ensures { result ≡ new_unweaving interval }
    {
        Unweaver {
            alloc,
            interval,
            left: interval,
            block: None,
        }
    }

    /// What the next piece of the stream brings: runs of sound, and the text of each block that ends in the piece. An
    /// empty block brings nothing, and the sound before and after it is one run.
    ///
    /// An `Err` means that memory ran out: the reader is then as it was, and the piece may be fed again.
    // rule: Metadata block
    pub fn feed(&mut self, bytes: &[u8]) -> Result<Vec<Item>, OutOfMemory>
        ensures heard { IfOk result (λ items. atoms_of items.items ≡ atoms_of_piece self.old bytes.now) }
        ensures runs { IfOk result (λ items. AreRuns items.items) }
        ensures after { OnOk result (self.new ≡ after_feeding self.old bytes.now) }
        ensures err { OnErr result (self.new ≡ self.old) }
    {
        let interval = self.interval;
        match &mut self.block {
            None => self.feed_sound(self.left, bytes, Items::new(self.alloc)),
            Some(held) => {
                if bytes.len() < self.left {
                    held.extend_from_slice(bytes)?;
                    self.left -= bytes.len();
                    return Ok(Vec::new(self.alloc));
                }
                let (end, rest) = bytes.split_at(self.left);
                let mut items = Items::new(self.alloc);
                items.add_text(held.as_slice(), end)?;
                self.feed_sound(interval, rest, items)
            }
        }
    }

    // Goes on with `left` bytes of sound before the next length byte, and `items` found already.
    fn feed_sound(
        &mut self,
        left: usize,
        bytes: &[u8],
        items: Items,
    ) -> Result<Vec<Item>, OutOfMemory>
        ensures heard { let start = at_sound self.old.interval left in
            IfOk result (λ found. atoms_of found.items ≡ items ++ atoms_of_piece start bytes.now) }
        ensures runs { IfOk result (λ found. AreRuns found.items) }
        ensures after { let start = at_sound self.old.interval left in
            OnOk result (self.new ≡ after_feeding start bytes.now) }
        ensures err { OnErr result (self.new ≡ self.old) }
    {
        let mut items = items;
        let Rest { left, block } = read_intervals(self.interval, left, bytes, &mut items)?;
        let block = copy_of(self.alloc, block)?;
        let found = items.into_items()?;
        self.left = left;
        self.block = block;
        Ok(found)
    }
}

/// The end of a piece of a stream: the bytes still to come, and those of a block that has begun.
struct Rest<'b> {
    left: usize,
    block: Option<&'b [u8]>,
}

// Reads interval by interval, each with the block after it.
fn read_intervals<'b>(
    interval: usize,
    left: usize,
    bytes: &'b [u8],
    items: &mut Items,
) -> Result<Rest<'b>, OutOfMemory>
    ensures heard { OnOk result (items.new ≡ items.old ++ atoms_of_piece (at_sound interval left) bytes.now) }
    ensures after { let end = after_feeding (at_sound interval left) bytes.now in
        IfOk result (λ rest. reading interval rest.left (option_copied rest.block) ≡ end) }
    ensures begun { IfOk result (λ rest. IfSome rest.block (λ _. 0 < rest.left)) }
{
    let mut left = left;
    let mut rest = bytes;
    'intervals: loop {
        let (sound, woven) = rest.split_at(left.min(rest.len()));
        items.add_sound(sound)?;
        let Some((&units, block)) = woven.split_first() else {
            return Ok(Rest {
                left: left - sound.len(),
                block: None,
            });
        };
        let size = UNIT * units as usize;
        if block.len() < size {
            return Ok(Rest {
                left: size - block.len(),
                block: Some(block),
            });
        }
        let (text, later) = block.split_at(size);
        if size > 0 {
            items.add_text(&[], text)?;
        }
        left = interval;
        rest = later;
    }
}
