//! All passes held against the lists of a server.

ghost use Rattle.std.specs.Prelude.{◌≡◌, ◌+◌, length, IfOk, IfErr, OnOk, IsTrue, IsPermutation, sum_by};
ghost use Rattle.radio_parts_station.specs.World.{World, opening};
ghost use Rattle.radio_chronicle.specs.History.{IsRun};
ghost use Rattle.radio_merge.specs.declared.fault.MergeFault.{MergeFault as MergeFaultOf};
ghost use Rattle.radio_hall.specs.Settling.{AllRise, AllStand, IsCounted, IsEachOnce, IsSettled, MergesPasses, Shows, all_places, all_stamps, of_merge};

use crate::passes::{find_fall, find_strange, find_twins, sorted_stamps, stamps_of};
use crate::places::all_places;
use crate::{OutOfMemory, SettleFault};
use radio_access::Lists;
use radio_book::{Entry, Kept, Origin, Pass, Stamp};
use radio_merge::{Family, MergeFault, merge};
use radio_settings_values::Settings;
use std::alloc::Global;

/// Compares all passes of a server with its lists, once no thread calls any more. Returns the one history of all lists. A new
/// core of these settings and lists steps through it with the same replies.
///
/// It looks for the faults in the order in which [`SettleFault`] has them: in all receipts for the first, then in all for the next.
/// `OutOfOrder` comes from one pass and one list first, and later from the merge, which may also find `Unlike`.
/// `OutOfMemory` may come in place of each.
// rule: Settled history; Faults of settling
pub fn settle_family<H: Origin>(
    alloc: Global,
    settings: Settings,
    lists: Lists,
    family: &Family,
    passes: &[Pass<Kept, H>],
) -> Result<Vec<Entry>, SettleFault>
    // it is a run from the opening state
    ensures run { IfOk result (λ history. IsRun (opening settings lists) history.items) }
    // it is a merge of the lists; each receipt is at its place, in the order of its pass, and nothing else is there
    ensures settled { IfOk result (λ history. IsSettled family.now.control.items family.now.mounts.items passes.now history.items) }
    ensures total { IfOk result (λ history. length history.items ≡ sum_by length passes.now) }
    // a fault comes only if the lists and the passes show it, and no fault before it in the order
    ensures fault { IfErr result (λ fault. Shows (opening settings lists) family.now.control.items family.now.mounts.items passes.now fault) }
{
    match check_places(alloc, family, passes) {
        Ok(sorted) => settle_placed(alloc, settings, lists, family, passes, sorted),
        Err(fault) => {
            drop(settings);
            drop(lists);
            Err(fault)
        }
    }
}

/// Looks for the faults that places show; returns the places of all receipts, sorted.
fn check_places<H: Origin>(
    alloc: Global,
    family: &Family,
    passes: &[Pass<Kept, H>],
) -> Result<Vec<Stamp>, SettleFault>
    ensures sorted { IfOk result (λ sorted. IsPermutation (all_stamps passes.now) sorted.items) }
    ensures stand { OnOk result (AllStand family.now.control.items family.now.mounts.items passes.now) }
    ensures once { OnOk result (IsEachOnce (all_stamps passes.now)) }
    ensures rise { OnOk result (AllRise (length family.now.mounts.items + 1) passes.now) }
    ensures fault { (w : World) → IfErr result (λ fault. Shows w family.now.control.items family.now.mounts.items passes.now fault) }
{
    if let Some(at) = find_strange(family, passes) {
        return Err(SettleFault::Strange(at));
    }
    let Ok(sorted) = sorted_stamps(alloc, passes) else {
        return Err(SettleFault::OutOfMemory);
    };
    if let Some(at) = find_twins(sorted.as_slice()) {
        return Err(SettleFault::Twice(at));
    }
    if let Some((seen, got)) = find_fall(family.mounts.len() as u64 + 1, passes) {
        return Err(SettleFault::OutOfOrder { seen, got });
    }
    Ok(sorted)
}

/// The same as `settle_family`, if the places show no fault.
fn settle_placed<H: Origin>(
    alloc: Global,
    settings: Settings,
    lists: Lists,
    family: &Family,
    passes: &[Pass<Kept, H>],
    sorted: Vec<Stamp>,
) -> Result<Vec<Entry>, SettleFault>
    requires sorted { IsPermutation (all_stamps passes.now) sorted.items }
    requires stand { AllStand family.now.control.items family.now.mounts.items passes.now }
    requires once { IsEachOnce (all_stamps passes.now) }
    requires rise { AllRise (length family.now.mounts.items + 1) passes.now }
    ensures run { IfOk result (λ history. IsRun (opening settings lists) history.items) }
    ensures settled { IfOk result (λ history. IsSettled family.now.control.items family.now.mounts.items passes.now history.items) }
    ensures total { IfOk result (λ history. length history.items ≡ sum_by length passes.now) }
    ensures fault { IfErr result (λ fault. Shows (opening settings lists) family.now.control.items family.now.mounts.items passes.now fault) }
{
    match merge_all(alloc, settings, lists, family, passes) {
        Ok(history) => match check_count(alloc, family, sorted.as_slice(), history.len()) {
            Ok(()) => Ok(history),
            Err(fault) => {
                drop(history);
                Err(fault)
            }
        },
        Err(fault) => Err(fault),
    }
}

/// Merges all lists, in an order that keeps that of each pass.
fn merge_all<H: Origin>(
    alloc: Global,
    settings: Settings,
    lists: Lists,
    family: &Family,
    passes: &[Pass<Kept, H>],
) -> Result<Vec<Entry>, SettleFault>
    ensures run { IfOk result (λ history. IsRun (opening settings lists) history.items) }
    ensures merge { IfOk result (λ history. MergesPasses family.now.control.items family.now.mounts.items passes.now history.items) }
    ensures fault { IfErr result (λ fault. (cause : MergeFaultOf) × (fault ≡ of_merge cause)) }
{
    let Ok(stamps) = stamps_of(alloc, passes) else {
        drop(settings);
        drop(lists);
        return Err(SettleFault::from(MergeFault::OutOfMemory));
    };
    let merged = merge(alloc, settings, lists, family, stamps.as_slice());
    drop(stamps);
    match merged {
        Ok(history) => Ok(history),
        Err(fault) => Err(SettleFault::from(fault)),
    }
}

/// Compares the places of all receipts, sorted, with those of all entries, and counts the entries of the history.
fn check_count(
    alloc: Global,
    family: &Family,
    sorted: &[Stamp],
    entries: usize,
) -> Result<(), SettleFault>
    ensures same { OnOk result (sorted.now ≡ all_places family.now.control.items family.now.mounts.items) }
    ensures entries { OnOk result (entries ≡ length sorted.now) }
    ensures fault { IfErr result (λ fault. IsCounted (length (all_places family.now.control.items family.now.mounts.items)) (length sorted.now) fault) }
{
    let Ok(places) = all_places(alloc, family) else {
        return Err(SettleFault::OutOfMemory);
    };
    let counted = compare(sorted, places.as_slice(), entries);
    drop(places);
    counted
}

/// Compares both, and counts the entries of the history.
fn compare(sorted: &[Stamp], places: &[Stamp], entries: usize) -> Result<(), SettleFault>
    ensures same { OnOk result (sorted.now ≡ places.now) }
    ensures entries { OnOk result (entries ≡ length sorted.now) }
    ensures fault { IfErr result (λ fault. IsCounted (length places.now) (length sorted.now) fault) }
{
    if entries == sorted.len() && are_same(sorted, places) {
        return Ok(());
    }
    Err(SettleFault::Count {
        book: places.len() as u64,
        passes: sorted.len() as u64,
    })
}

/// Whether both have the same places in the same order.
fn are_same(some: &[Stamp], others: &[Stamp]) -> bool
    ensures { IsTrue result → some.now ≡ others.now }
{
    if some.len() != others.len() {
        return false;
    }
    for i in 0..some.len() {
        if !some[i].is(others[i]) {
            return false;
        }
    }
    true
}
