//! All lists as one history.

ghost use Rattle.std.specs.Prelude.{All, IfOk, List};
ghost use Rattle.radio_parts_station.specs.World.{opening};
ghost use Rattle.radio_chronicle.specs.History.{IsRun};
ghost use Rattle.radio_merge.specs.Merged.{IsMerge, IsSubsequence};
ghost use Rattle.radio_chronicle.specs.declared.stamp.Stamp.{Stamp as StampOf};

use crate::passes::are_in_order;
use crate::replaying::replay;
use crate::searching::find_order;
use crate::{Family, MergeFault, Stamp};
use radio_access::Lists;
use radio_events::Entry;
use radio_settings_values::Settings;
use std::alloc::Global;

/// Returns one history of all lists, through which a new core of these settings and lists steps with the same replies.
///
/// Each list keeps its order, and each control entry comes at its cuts. The entries of each pass, given by their places, keep the
/// order of the pass. `OutOfOrder` if no such order is found, `Unlike` if a reply differs, `OutOfMemory` if memory is refused.
pub fn merge(
    alloc: Global,
    settings: Settings,
    lists: Lists,
    family: &Family,
    passes: &[Vec<Stamp>],
) -> Result<Vec<Entry>, MergeFault>
    // it is a run from the opening state
    ensures run { IfOk result (λ history. IsRun (opening settings lists) history.items) }
    // it is a merge of the lists, and its order has each pass as a subsequence
    ensures merge { IfOk result (λ history. (order : List StampOf) × IsMerge family.now.control.items family.now.mounts.items order history.items
        × All (λ pass. IsSubsequence pass.items order) passes.now) }
{
    match find_order(alloc, family, passes) {
        Ok(order) => {
            let merged = merge_in(alloc, settings, lists, family, passes, order.as_slice());
            drop(order);
            merged
        }
        Err(fault) => {
            drop(settings);
            drop(lists);
            Err(fault)
        }
    }
}

/// The same in this order, which is checked.
fn merge_in(
    alloc: Global,
    settings: Settings,
    lists: Lists,
    family: &Family,
    passes: &[Vec<Stamp>],
    order: &[Stamp],
) -> Result<Vec<Entry>, MergeFault>
    ensures run { IfOk result (λ history. IsRun (opening settings lists) history.items) }
    ensures merge { IfOk result (λ history. IsMerge family.now.control.items family.now.mounts.items order.now history.items) }
    ensures passes { IfOk result (λ history. All (λ pass. IsSubsequence pass.items order.now) passes.now) }
{
    if !are_in_order(passes, order) {
        drop(settings);
        drop(lists);
        return Err(MergeFault::OutOfOrder {
            seen: Stamp { list: 0, serial: 0 },
            got: Stamp { list: 0, serial: 0 },
        });
    }
    replay(alloc, settings, lists, family, order)
}
