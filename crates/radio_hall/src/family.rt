//! All passes held against the books of the control and of all mounts.

ghost use Rattle.std.specs.Prelude.{◌≡◌, length, IfOk, IfErr, List, sum_by};
ghost use Rattle.radio_parts_station.specs.World.{opening};
ghost use Rattle.radio_chronicle.specs.History.{IsRun};
ghost use Rattle.radio_parts_mount.specs.declared.item.MountItem.{MountItem as ItemOf};
ghost use Rattle.radio_hall.specs.Settling.{IsSettled, Shows};

use crate::settling::settle_family;
use crate::{OutOfMemory, SettleFault};
use radio_access::Lists;
use radio_book::{Book, Entry, Kept, MountBook, Origin, Pass};
use radio_merge::{Family, MountList};
use radio_settings_values::Settings;
use std::alloc::Global;

/// Compares all passes with the lists of the control and of all mounts, once no thread calls any more. The mounts' parts are apart
/// from the control. Returns the one history of all lists. A new core of these settings and lists steps through it with the same
/// replies. The mounts' books are given in the order of their lists; a missing book counts as an empty list. The faults are those
/// of [`settle_family`]; `OutOfMemory` also if memory was refused for a mount's list. After a fault the books and the passes are
/// gone.
// rule: Settled history; Faults of settling
pub fn settle_books<H: Origin>(
    alloc: Global,
    control: Book<Kept, H>,
    mounts: Vec<Option<MountBook<Kept>>>,
    passes: Vec<Pass<Kept, H>>,
    settings: Settings,
    lists: Lists,
) -> Result<Vec<Entry>, SettleFault>
    // it is a run from the opening state
    ensures run { IfOk result (λ history. IsRun (opening settings lists) history.items) }
    // it is a merge of the control's list and of one list for each mount. Each receipt is at its place, in the order of its pass,
    // and nothing else is in the history
    ensures settled { IfOk result (λ history. (items : List (List ItemOf)) × (length items ≡ length mounts.items) × IsSettled control.lines items passes.items history.items) }
    ensures total { IfOk result (λ history. length history.items ≡ sum_by length passes.items) }
    // a fault comes only if the lists and the passes show it, and no fault before it in the order
    ensures fault { IfErr result (λ fault. (items : List (List ItemOf)) × Shows (opening settings lists) control.lines items passes.items fault) }
{
    match family_of_books(alloc, control, mounts) {
        Ok(family) => {
            let settled = settle_family(alloc, settings, lists, &family, passes.as_slice());
            drop(family);
            drop(passes);
            settled
        }
        Err(_) => {
            drop(passes);
            drop(settings);
            drop(lists);
            Err(SettleFault::OutOfMemory)
        }
    }
}

/// The lists of all books. `OutOfMemory` if memory was refused, now or for a list.
fn family_of_books<H: Origin>(
    alloc: Global,
    control: Book<Kept, H>,
    mounts: Vec<Option<MountBook<Kept>>>,
) -> Result<Family, OutOfMemory>
    ensures control { IfOk result (λ family. family.control.items ≡ control.lines) }
    ensures mounts { IfOk result (λ family. length family.mounts.items ≡ length mounts.items) }
{
    let mut control = control;
    match lists_of(alloc, &mut control, mounts) {
        Ok(mounts) => Ok(Family {
            control: control.into_lines(),
            mounts,
        }),
        Err(refused) => {
            drop(control);
            Err(refused)
        }
    }
}

/// The lists of the mounts' books. `OutOfMemory` if memory was refused, now or for a list.
fn lists_of<H: Origin>(
    alloc: Global,
    control: &mut Book<Kept, H>,
    mounts: Vec<Option<MountBook<Kept>>>,
) -> Result<Vec<MountList>, OutOfMemory>
    ensures lists { IfOk result (λ lists. length lists.items ≡ length mounts.items) }
    ensures same { control.new.lines ≡ control.old.lines }
{
    let mut lists = Vec::new(alloc);
    for book in mounts {
        lists.push(list_of(alloc, control, book)?)?;
    }
    Ok(lists)
}

/// The list of the mount's book; an empty one if there is no book. `OutOfMemory` if memory was refused, now or for the list.
fn list_of<H: Origin>(
    alloc: Global,
    control: &mut Book<Kept, H>,
    book: Option<MountBook<Kept>>,
) -> Result<MountList, OutOfMemory>
    ensures { control.new.lines ≡ control.old.lines }
{
    match book {
        Some(book) => Ok(MountList::new(control.items_of(book)?)),
        None => Ok(MountList::new(Vec::new(alloc))),
    }
}
