//! All passes held against the lists of a hall.

ghost use Rattle.std.specs.Prelude.{◌≡◌, length, IfOk, IfErr, List, sum_by};
ghost use Rattle.radio_chronicle.specs.History.{IsRun};
ghost use Rattle.radio_chronicle.specs.declared.line.ControlLine.{ControlLine as LineOf};
ghost use Rattle.radio_parts_mount.specs.declared.item.MountItem.{MountItem as ItemOf};
ghost use Rattle.radio_hall.specs.Settling.{IsSettled, Shows};

use crate::SettleFault;
use crate::family::settle_books;
use radio_book::{Entry, Kept, Origin, Pass};
use radio_locks::{Hall, HallBooks};
use std::alloc::Global;

/// Compares all passes of a hall with its lists, once the threads have been joined. Returns the one history of all lists. A new core of
/// the settings and lists with which the hall was opened steps through it with the same replies. The faults are those of
/// [`settle_books`]; after one the hall and the passes are gone.
// rule: Settled history
pub fn settle<H: Origin>(
    alloc: Global,
    hall: Hall<Kept, H>,
    passes: Vec<Pass<Kept, H>>,
) -> Result<Vec<Entry>, SettleFault>
    // it is a run from the opening state of the hall
    ensures run { IfOk result (λ history. IsRun H.opening history.items) }
    // it is a merge of the control's list and of those of the mounts. Each receipt is at its place, in the order of its pass,
    // and nothing else is in the history
    ensures settled { IfOk result (λ history. (lines : List LineOf) × (items : List (List ItemOf)) × IsSettled lines items passes.items history.items) }
    ensures total { IfOk result (λ history. length history.items ≡ sum_by length passes.items) }
    // a fault comes only if the lists and the passes show it
    ensures fault { IfErr result (λ fault. (lines : List LineOf) × (items : List (List ItemOf)) × Shows H.opening lines items passes.items fault) }
{
    let Ok(books) = hall.into_books() else {
        drop(passes);
        return Err(SettleFault::OutOfMemory);
    };
    let HallBooks {
        settings,
        lists,
        control,
        mounts,
    } = books;
    settle_books(alloc, control, mounts, passes, settings, lists)
}
