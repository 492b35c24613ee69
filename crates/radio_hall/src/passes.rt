//! The receipts of all passes, by their places.

ghost use Rattle.std.specs.Prelude.{◌≡◌, ◌<◌, ◌≤◌, ◌++◌, ℕ, All, Any, IfOk, IfNone, IfSome, OnOk, IsPermutation, map};
ghost use Rattle.std.specs.List.Sorted.{IsSorted};
ghost use Rattle.radio_hall.specs.Settling.{AllRise, AllStand, Falls, HasNoTwins, IsStrange, OneFalls, Rises, StandsIn, all_stamps, place_order, serials_in, stamps, times};

use crate::OutOfMemory;
use crate::places::stands_in;
use radio_book::{Kept, Origin, Pass, Receipt, Stamp};
use radio_merge::Family;
use std::alloc::Global;

/// Returns the place of the first receipt whose entry is not there.
pub(crate) fn find_strange<H: Origin>(family: &Family, passes: &[Pass<Kept, H>]) -> Option<Stamp>
    ensures none { IfNone result (AllStand family.now.control.items family.now.mounts.items passes.now) }
    ensures some { IfSome result (λ at. Any (λ pass. Any (IsStrange family.now.control.items family.now.mounts.items at) pass) passes.now) }
{
    for pass in passes {
        if let Some(at) = strange_in(family, pass.receipts()) {
            return Some(at);
        }
    }
    None
}

/// The place of the first of these receipts whose entry is not there.
fn strange_in(family: &Family, receipts: &[Receipt]) -> Option<Stamp>
    ensures none { IfNone result (All (StandsIn family.now.control.items family.now.mounts.items) receipts.now) }
    ensures some { IfSome result (λ at. Any (IsStrange family.now.control.items family.now.mounts.items at) receipts.now) }
{
    for receipt in receipts {
        if !stands_in(family, receipt) {
            return Some(receipt.stamp());
        }
    }
    None
}

/// Returns the places of each pass. `OutOfMemory` if memory was refused.
pub(crate) fn stamps_of<H: Origin>(
    alloc: Global,
    passes: &[Pass<Kept, H>],
) -> Result<Vec<Vec<Stamp>>, OutOfMemory>
    ensures { IfOk result (λ all. map (λ places. places.items) all.items ≡ map stamps passes.now) }
{
    let mut all = Vec::new(alloc);
    for pass in passes {
        let mut places = Vec::new(alloc);
        add_stamps(&mut places, pass.receipts())?;
        all.push(places)?;
    }
    Ok(all)
}

/// Returns the places of all receipts, sorted by list and serial. `OutOfMemory` if memory was refused.
pub(crate) fn sorted_stamps<H: Origin>(
    alloc: Global,
    passes: &[Pass<Kept, H>],
) -> Result<Vec<Stamp>, OutOfMemory>
    ensures permutation { IfOk result (λ sorted. IsPermutation (all_stamps passes.now) sorted.items) }
    ensures sorted { IfOk result (λ sorted. IsSorted place_order sorted.items) }
{
    let mut sorted = Vec::new(alloc);
    for pass in passes {
        add_stamps(&mut sorted, pass.receipts())?;
    }
    sorted.sort()?;
    Ok(sorted)
}

/// Adds the places of these receipts.
fn add_stamps(all: &mut Vec<Stamp>, receipts: &[Receipt]) -> Result<(), OutOfMemory>
    ensures { OnOk result (all.new.items ≡ all.old.items ++ stamps receipts.now) }
{
    for receipt in receipts {
        all.push(receipt.stamp())?;
    }
    Ok(())
}

/// Returns the first place that is next to its equal.
pub(crate) fn find_twins(sorted: &[Stamp]) -> Option<Stamp>
    ensures none { IfNone result (HasNoTwins sorted.now) }
    ensures some { IfSome result (λ at. 2 ≤ times at sorted.now) }
{
    for i in 1..sorted.len() {
        if sorted[i - 1].is(sorted[i]) {
            return Some(sorted[i]);
        }
    }
    None
}

/// Returns the first two receipts of a pass, one after the other in a list, of which the second is not behind the first. There
/// are so many lists.
pub(crate) fn find_fall<H: Origin>(lists: u64, passes: &[Pass<Kept, H>]) -> Option<(Stamp, Stamp)>
    ensures none { IfNone result (AllRise lists passes.now) }
    ensures some { IfSome result (λ pair. OneFalls pair.0 pair.1 passes.now) }
{
    for pass in passes {
        if let Some(pair) = fall_in(lists, pass.receipts()) {
            return Some(pair);
        }
    }
    None
}

/// The same of one pass.
fn fall_in(lists: u64, receipts: &[Receipt]) -> Option<(Stamp, Stamp)>
    ensures none { IfNone result ((list : ℕ) → list < lists → Rises 0 (serials_in list receipts.now)) }
    ensures some { IfSome result (λ pair. (pair.0.list ≡ pair.1.list) × Falls 0 pair.0.serial pair.1.serial (serials_in pair.1.list receipts.now)) }
{
    for list in 0..lists {
        if let Some((seen, got)) = fall_in_list(list, receipts) {
            return Some((Stamp { list, serial: seen }, Stamp { list, serial: got }));
        }
    }
    None
}

/// The same in one list: their serials.
fn fall_in_list(list: u64, receipts: &[Receipt]) -> Option<(u64, u64)>
    ensures none { IfNone result (Rises 0 (serials_in list receipts.now)) }
    ensures some { IfSome result (λ pair. Falls 0 pair.0 pair.1 (serials_in list receipts.now)) }
{
    let mut seen = 0;
    for receipt in receipts {
        let got = receipt.stamp();
        if got.list != list {
            continue;
        }
        if got.serial <= seen {
            return Some((seen, got.serial));
        }
        seen = got.serial;
    }
    None
}
