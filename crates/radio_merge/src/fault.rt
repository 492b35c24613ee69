//! Why lists are no history.

use crate::{OutOfMemory, Stamp};

/// Why the lists of a server are no legal history.
#[derive(Clone, Copy, Debug, PartialEq, Eq)]
pub enum MergeFault {
    /// No order of all lists has the entry at `got` after the one at `seen`, as a pass has their receipts. Both are zeros if
    /// it is no pass that is at fault.
    OutOfOrder { seen: Stamp, got: Stamp },
    /// A core that steps through the history gives another reply than the one at this place.
    Unlike(Stamp),
    /// Memory was refused.
    OutOfMemory,
}

impl From<OutOfMemory> for MergeFault {
    fn from(_: OutOfMemory) -> MergeFault {
        MergeFault::OutOfMemory
    }
}
