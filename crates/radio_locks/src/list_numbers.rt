//! The lists of a few mounts.

use arrayvec::ArrayVec;

/// How many lists there are at most.
pub(crate) const MOST_LISTS: usize = 16;

/// The numbers of the lists of a few mounts, none of them twice.
#[derive(Drop)]
pub(crate) struct ListNumbers {
    numbers: ArrayVec<u64, MOST_LISTS>,
}

impl ListNumbers {
    /// Returns that there are none. It takes no memory.
    pub(crate) fn new() -> ListNumbers {
        ListNumbers {
            numbers: ArrayVec::new(),
        }
    }

    /// Returns whether this number is there.
    pub(crate) fn has(&self, number: u64) -> bool {
        self.numbers.as_slice().contains(&number)
    }

    /// Adds this number, which is not there. Returns whether there was room for it.
    pub(crate) fn add(&mut self, number: u64) -> bool {
        self.numbers.try_push(number).is_ok()
    }

    /// Returns the numbers, in the order in which they were added.
    pub(crate) fn as_slice(&self) -> &[u64] {
        self.numbers.as_slice()
    }
}
