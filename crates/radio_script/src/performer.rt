//! Performers of deliveries.

ghost use Rattle.std.specs.Prelude.{◌≡◌, ◌++◌, ℕ, List, Option, None, Some, Err, OnOk};

use crate::{Delivery, PerformFault};

/// Performs deliveries, one after another, and gives the result of each.
pub trait Performer {
    ghost use Rattle.radio_script.specs.Runs.{Conduct};

    // From this performer the delivery yields this text, or None if it is refused with `Label`, and leaves
    // the performer after it.
    ghost performs: { Conduct Self };

    /// Performs a delivery, and appends its lines to the transcript. `Label` if it opens a label twice, names one
    /// that was not opened, or pulls for a mount that no relay feeds. `OutOfMemory` if memory was refused. There is
    /// no other error. After an `Err` the contract says nothing of the lines, and after `OutOfMemory` nothing of the
    /// performer: the script ends there.
    fn perform(&mut self, delivery: &Delivery, lines: &mut Vec<u8>) -> Result<(), PerformFault>
        ensures ok { OnOk result ((text : List ℕ) × (lines.new.items ≡ lines.old.items ++ text)
            × performs self.old delivery.now (Some text) self.new) }
        ensures label { result ≡ Err PerformFault.Label
            → performs self.old delivery.now None self.new };
}
