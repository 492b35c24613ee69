//! The entries of a server's lists, and their places.

ghost use Rattle.std.specs.Prelude.{◌≡◌, ◌↔◌, ◌++◌, slice_get, IsTrue, IfOk, OnOk};
ghost use Rattle.std.specs.Option.{option_and_then, option_copied};
ghost use Rattle.radio_chronicle.specs.Lines.{line_entry};
ghost use Rattle.radio_parts_mount.specs.Items.{own_entry};
ghost use Rattle.radio_hall.specs.Settling.{StandsIn, all_places, entry_at, own_at, own_places, places_of};

use crate::OutOfMemory;
use radio_book::{Entry, Receipt, Stamp};
use radio_merge::{ControlLine, Family, MountItem, MountList, is_same_event, is_same_reply};
use std::alloc::Global;

/// Whether the receipt's entry is at its place.
pub(crate) fn stands_in(family: &Family, receipt: &Receipt) -> bool
    ensures { IsTrue result ↔ StandsIn family.now.control.items family.now.mounts.items receipt.now }
{
    let at = receipt.stamp();
    if at.serial == 0 {
        return false;
    }
    let Some(entry) = entry_at(family, at) else {
        return false;
    };
    is_same_event(&entry.event, receipt.event()) && is_same_reply(&entry.reply, receipt.reply())
}

/// The entry at this place, if there is one.
fn entry_at(family: &Family, at: Stamp) -> Option<&Entry>
    ensures { option_copied result ≡ entry_at family.now.control.items family.now.mounts.items at }
{
    let place = at.serial.saturating_sub(1) as usize;
    if at.list == 0 {
        made_at(family.control.as_slice(), place)
    } else {
        own_in(family.mounts.as_slice(), (at.list - 1) as usize, place)
    }
}

/// The entry of the line at this place, counted from 0, if it is no cut.
fn made_at(lines: &[ControlLine], place: usize) -> Option<&Entry>
    ensures { option_copied result ≡ option_and_then line_entry (slice_get lines.now place) }
{
    lines.get(place)?.entry()
}

/// The own entry at this place of this list, both counted from 0.
fn own_in(mounts: &[MountList], mount: usize, place: usize) -> Option<&Entry>
    ensures { option_copied result ≡ option_and_then (own_at place) (slice_get mounts.now mount) }
{
    own_at(mounts.get(mount)?.as_slice(), place)
}

/// The own entry at this place, counted from 0.
fn own_at(items: &[MountItem], place: usize) -> Option<&Entry>
    ensures { option_copied result ≡ own_at place items.now }
{
    items.get(place)?.own_entry()
}

/// Returns the places of all entries that were given a receipt, in the order of the lists. `OutOfMemory` if memory was
/// refused.
pub(crate) fn all_places(alloc: Global, family: &Family) -> Result<Vec<Stamp>, OutOfMemory>
    ensures { IfOk result (λ places. places.items ≡ all_places family.now.control.items family.now.mounts.items) }
{
    let mut places = Vec::new(alloc);
    add_lines(&mut places, family.control.as_slice())?;
    add_lists(&mut places, family.mounts.as_slice())?;
    Ok(places)
}

/// Adds the places of the entries of the control's list.
fn add_lines(places: &mut Vec<Stamp>, lines: &[ControlLine]) -> Result<(), OutOfMemory>
    ensures { OnOk result (places.new.items ≡ places.old.items ++ places_of line_entry 0 0 lines.now) }
{
    for (before, line) in lines.iter().enumerate() {
        if line.entry().is_some() {
            places.push(Stamp {
                list: 0,
                serial: before as u64 + 1,
            })?;
        }
    }
    Ok(())
}

/// Adds the places of the own entries of all lists of mounts.
fn add_lists(places: &mut Vec<Stamp>, mounts: &[MountList]) -> Result<(), OutOfMemory>
    ensures { OnOk result (places.new.items ≡ places.old.items ++ own_places 0 mounts.now) }
{
    for (before, list) in mounts.iter().enumerate() {
        add_items(places, before as u64 + 1, list.as_slice())?;
    }
    Ok(())
}

/// Adds the places of the own entries of one list, which has this number.
fn add_items(places: &mut Vec<Stamp>, number: u64, items: &[MountItem]) -> Result<(), OutOfMemory>
    ensures { OnOk result (places.new.items ≡ places.old.items ++ places_of own_entry number 0 items.now) }
{
    for (before, item) in items.iter().enumerate() {
        if item.own_entry().is_some() {
            places.push(Stamp {
                list: number,
                serial: before as u64 + 1,
            })?;
        }
    }
    Ok(())
}
