//! The sizes of packed blocks.
ghost use Rattle.std.specs.Prelude.{◌≡◌, ◌+◌, ◌-◌, ◌<◌, ◌≤◌, [], nat_le, length, drop, find, IfOk, MatchOption, slice_index};
ghost use Rattle.radio_blocks.specs.Chunk.{starts_of, total};

use crate::OutOfMemory;
use std::alloc::Global;
use std::collections::VecDeque;
use std::marker::Model;

/// The sizes of consecutive blocks, in an allocation of their own so that what carries them is small.
#[derive(Drop)]
pub(crate) struct Sizes {
    list: Box<VecDeque<u16>>,
}

impl Model for Sizes {
    ghost use Rattle.std.specs.Prelude.{ℕ, List};

    ghost Value = { List ℕ };

    ghost view = { λ s. s.list.value.items };
}

impl Sizes {
    /// These sizes. `OutOfMemory` if memory was refused.
    pub(crate) fn new(alloc: Global, list: VecDeque<u16>) -> Result<Sizes, OutOfMemory>
        ensures { IfOk result (λ sizes. sizes ≡ list.items) }
    {
        Ok(Sizes {
            list: Box::new(alloc, list)?,
        })
    }

    /// The sizes, in order.
    pub(crate) fn list(&self) -> &VecDeque<u16>
        ensures { result.now.items ≡ self.now }
    {
        &self.list
    }

    /// The first size.
    pub(crate) fn first(&self) -> usize
        requires { 0 < length self.now }
        ensures { result ≡ slice_index self.now 0 }
    {
        self.list[0] as usize
    }

    /// The same without the first; `None` if there is no other.
    pub(crate) fn without_first(self) -> Option<Sizes>
        ensures { MatchOption result (drop 1 self ≡ []) (λ rest. (rest ≡ drop 1 self) × (0 < length rest)) }
    {
        let Sizes { list } = self;
        let mut list = list;
        list.pop_front();
        if list.is_empty() {
            return None;
        }
        Some(Sizes { list })
    }

    /// Returns the first start of a block that is at most `burst` bytes before `end`, if the first block starts at `start`.
    pub(crate) fn start_within(&self, start: u64, end: u64, burst: u64) -> Option<u64>
        requires { start + total self.now ≤ end }
        ensures { result ≡ find (λ place. nat_le (end - place) burst) (starts_of start self.now) }
    {
        let sizes = self.list();
        let mut start = start;
        for i in 0..sizes.len() {
            if end - start <= burst {
                return Some(start);
            }
            start += sizes[i] as u64;
        }
        None
    }
}
