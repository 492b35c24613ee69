//! The search for an order in which lists can be merged.
//!
//! Read [`find_order`] first. Nothing is proved of what it finds: `replay` checks the order, so a wrong one can only give a
//! fault.

use crate::positions::Positions;
use crate::{ControlLine, Family, MergeFault, OutOfMemory, Stamp};
use std::alloc::Global;

/// The state of the search.
#[derive(Drop)]
struct Search<'a> {
    family: &'a Family,
    passes: &'a [Vec<Stamp>],
    /// For each place of each list the pass that has its receipt, counted from 1; 0 if none has.
    owners: Vec<Vec<usize>>,
    /// How many receipts of each pass were taken.
    heads: Vec<usize>,
    positions: Positions<'a>,
    order: Vec<Stamp>,
}

/// Returns an order of all entries that keeps the order of each list and of each pass, with each control entry at its cuts.
///
/// It takes any entry that can be taken, again and again. That is enough, since what is asked are precedences alone: an entry
/// that can be taken now can still be taken later. An own entry behind a cut waits for the control entry that was lent its mount,
/// also if other control entries come before that. `OutOfOrder` if receipts are left when no entry can be taken any more.
pub(crate) fn find_order(
    alloc: Global,
    family: &Family,
    passes: &[Vec<Stamp>],
) -> Result<Vec<Stamp>, MergeFault> {
    let mut search = Search::new(alloc, family, passes)?;
    'taking: for _ in 0..u64::MAX {
        if !search.take_any()? {
            break;
        }
    }
    search.end()
}

impl<'a> Search<'a> {
    fn new(
        alloc: Global,
        family: &'a Family,
        passes: &'a [Vec<Stamp>],
    ) -> Result<Search<'a>, OutOfMemory> {
        let owners = owners_of(alloc, family, passes)?;
        let heads = vec![in alloc; 0usize; passes.len()]?;
        let positions = Positions::new(alloc, family)?;
        Ok(Search {
            family,
            passes,
            owners,
            heads,
            positions,
            order: Vec::new(alloc),
        })
    }

    /// Takes one entry, if one can be taken. Returns whether it did.
    fn take_any(&mut self) -> Result<bool, OutOfMemory> {
        self.order.reserve(1)?;
        'mounts: for mount in 0..self.family.mounts.len() {
            self.positions.skip(self.family, mount);
            if self.takes(self.next_own(mount)) {
                return Ok(true);
            }
        }
        let next = self.next_control();
        Ok(self.takes(next))
    }

    /// The place of the next item of a mount's list, if that is an own entry. It comes before the next control entry that was lent the
    /// mount.
    fn next_own(&self, mount: usize) -> Option<Stamp> {
        let (taken, item) = self.positions.next(self.family, mount)?;
        item.own_entry()?;
        let list = (mount as u64).checked_add(1)?;
        if next_cut(self.positions.control(), list) == Some(taken as u64) {
            return None;
        }
        Some(Stamp {
            list,
            serial: (taken as u64).checked_add(1)?,
        })
    }

    /// The place of the next control entry, if all its cuts are reached.
    fn next_control(&self) -> Option<Stamp> {
        let lines = self.positions.control();
        let before = self.family.control.len().saturating_sub(lines.len()) as u64;
        let mut past = 0u64;
        for line in lines {
            past = past.checked_add(1)?;
            match line {
                ControlLine::Cut { list, from, .. } => {
                    if self.positions.taken(list.checked_sub(1)? as usize)? as u64 != *from {
                        return None;
                    }
                }
                ControlLine::Made(_) => {
                    return Some(Stamp {
                        list: 0,
                        serial: before.checked_add(past)?,
                    });
                }
            }
        }
        None
    }

    /// Takes the entry of this place, unless its pass has another receipt before it. Returns whether it did.
    fn takes(&mut self, next: Option<Stamp>) -> bool {
        let Some(stamp) = next else {
            return false;
        };
        let owner = self.owner(stamp);
        if !self.is_first(owner, stamp) || self.positions.take(self.family, stamp).is_none() {
            return false;
        }
        self.go_on(owner);
        self.order.push(stamp).is_ok()
    }

    /// The pass that has the receipt of this place, counted from 1; 0 if none has.
    fn owner(&self, stamp: Stamp) -> usize {
        let Some(place) = stamp.serial.checked_sub(1) else {
            return 0;
        };
        match self.owners.get(stamp.list as usize) {
            Some(places) => places.get(place as usize).copied().unwrap_or(0),
            None => 0,
        }
    }

    /// Whether it is the next receipt of its pass, if it has one.
    fn is_first(&self, owner: usize, stamp: Stamp) -> bool {
        let Some(pass) = owner.checked_sub(1) else {
            return true;
        };
        match (self.passes.get(pass), self.heads.get(pass)) {
            (Some(stamps), Some(head)) => match stamps.get(*head) {
                Some(next) => next.is(stamp),
                None => false,
            },
            _ => false,
        }
    }

    /// One receipt more of this pass is taken.
    fn go_on(&mut self, owner: usize) {
        let Some(pass) = owner.checked_sub(1) else {
            return;
        };
        if let Some(head) = self.heads.get_mut(pass) {
            *head = head.saturating_add(1);
        }
    }

    /// The order, if all receipts were taken.
    fn end(self) -> Result<Vec<Stamp>, MergeFault> {
        let Search {
            family: _,
            passes,
            owners,
            heads,
            positions,
            order,
        } = self;
        let stuck = first_left(passes, heads.as_slice());
        drop(owners);
        drop(heads);
        drop(positions);
        match stuck {
            None => Ok(order),
            Some((seen, got)) => {
                drop(order);
                Err(MergeFault::OutOfOrder { seen, got })
            }
        }
    }
}

/// Returns the next cut of the list, if there is one.
fn next_cut(lines: &[ControlLine], list: u64) -> Option<u64> {
    for line in lines {
        match line {
            ControlLine::Cut {
                list: other,
                from,
                ..
            } if *other == list => return Some(*from),
            ControlLine::Cut { .. } | ControlLine::Made(_) => {}
        }
    }
    None
}

/// The first pass that has receipts left: its last taken receipt and its first one left.
fn first_left(passes: &[Vec<Stamp>], heads: &[usize]) -> Option<(Stamp, Stamp)> {
    for (i, pass) in passes.iter().enumerate() {
        let head = heads.get(i).copied().unwrap_or(0);
        if let Some(got) = pass.get(head) {
            return Some((last_taken(pass.as_slice(), head), *got));
        }
    }
    None
}

fn last_taken(pass: &[Stamp], head: usize) -> Stamp {
    let none = Stamp { list: 0, serial: 0 };
    match head.checked_sub(1) {
        Some(last) => pass.get(last).copied().unwrap_or(none),
        None => none,
    }
}

/// For each place of each list the pass that has its receipt, counted from 1; 0 if none has.
fn owners_of(
    alloc: Global,
    family: &Family,
    passes: &[Vec<Stamp>],
) -> Result<Vec<Vec<usize>>, OutOfMemory> {
    let mut owners = without_owners(alloc, family)?;
    note_owners(&mut owners, passes);
    Ok(owners)
}

/// A 0 for each place of each list.
fn without_owners(alloc: Global, family: &Family) -> Result<Vec<Vec<usize>>, OutOfMemory> {
    let mut owners = Vec::new(alloc);
    owners.push(vec![in alloc; 0usize; family.control.len()]?)?;
    for list in &family.mounts {
        owners.push(vec![in alloc; 0usize; list.len()]?)?;
    }
    Ok(owners)
}

fn note_owners(owners: &mut Vec<Vec<usize>>, passes: &[Vec<Stamp>]) {
    for (i, pass) in passes.iter().enumerate() {
        note_owner(owners, i.saturating_add(1), pass.as_slice());
    }
}

fn note_owner(owners: &mut Vec<Vec<usize>>, owner: usize, pass: &[Stamp]) {
    for stamp in pass {
        note_place(owners, owner, *stamp);
    }
}

fn note_place(owners: &mut Vec<Vec<usize>>, owner: usize, stamp: Stamp) {
    let Some(place) = stamp.serial.checked_sub(1) else {
        return;
    };
    if let Some(places) = owners.get_mut(stamp.list as usize) {
        if let Some(own) = places.get_mut(place as usize) {
            *own = owner;
        }
    }
}
