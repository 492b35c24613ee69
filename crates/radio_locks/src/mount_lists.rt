//! Which mounts have a book.

use crate::OutOfMemory;
use radio_values::MountName;
use std::alloc::Global;
use std::collections::BTreeMap;
use std::marker::Model;

/// The number of the list of each mount that has a book. It is where to look first, so no contract speaks of it.
#[derive(Drop)]
pub(crate) struct MountLists {
    numbers: BTreeMap<MountName, u64>,
}

impl Model for MountLists {
    ghost Value = { Unit {0} };

    ghost view = { λ _. tt };
}

impl MountLists {
    /// Returns that no mount has a book.
    pub(crate) fn new(alloc: Global) -> MountLists {
        MountLists {
            numbers: BTreeMap::new(alloc),
        }
    }

    /// Returns the number of the mount's list, if it has a book.
    pub(crate) fn get(&self, mount: &MountName) -> Option<u64> {
        self.numbers.get(mount).copied()
    }

    /// Sets the number of the mount's list. `OutOfMemory` if memory was refused; nothing has changed then.
    pub(crate) fn set(&mut self, mount: MountName, list: u64) -> Result<(), OutOfMemory> {
        self.numbers.insert(mount, list)?;
        Ok(())
    }

    /// Forgets that the mount has this list, if it has.
    pub(crate) fn forget(&mut self, mount: &MountName, list: u64) {
        if self.get(mount) == Some(list) {
            self.numbers.remove(mount);
        }
    }
}
