//! How far each list was taken.
//!
//! Read [`Positions::take`] first.

ghost use Rattle.std.specs.Prelude.{◌≡◌, ◌+◌, ◌-◌, ◌<◌, ◌^◌, [], ◌∷◌, ◌++◌, List, Some, true, IfOk, IfSome, IsTrue, length, map, slice_get, slice_set};
ghost use Rattle.radio_events.specs.declared.entry.Entry.{Entry as EntryOf};
ghost use Rattle.radio_chronicle.specs.declared.stamp.Stamp.{Stamp as StampOf};
ghost use Rattle.radio_merge.specs.Merged.{AtEnd, IsNext, Merged, PastCuts, beginning, one_further};

use crate::{ControlLine, Family, MountItem, OutOfMemory, Stamp};
use radio_events::Entry;
use std::alloc::Global;
use std::marker::Model;

/// How far each list was taken: what is left of the control's, and how many items of each mount's.
#[derive(Drop)]
pub(crate) struct Positions<'a> {
    control: &'a [ControlLine],
    mounts: Vec<usize>,
}

impl<'a> Model for Positions<'a> {
    ghost use Rattle.radio_merge.specs.Merged.{Positions};

    ghost Value = { Positions };

    ghost view = { λ f. record { control = f.control.now; mounts = f.mounts.items } };
}

impl<'a> Positions<'a> {
    /// Nothing is taken yet.
    pub(crate) fn new(alloc: Global, family: &'a Family) -> Result<Positions<'a>, OutOfMemory>
        ensures { IfOk result (λ positions. positions ≡ beginning family.now.control.items family.now.mounts.items) }
    {
        let mounts = vec![in alloc; 0usize; family.mounts.len()]?;
        Ok(Positions {
            control: family.control.as_slice(),
            mounts,
        })
    }

    /// What is left of the control's list.
    pub(crate) fn control(&self) -> &'a [ControlLine]
        ensures { result.now ≡ self.now.control }
    {
        self.control
    }

    /// How many items of a mount's list were taken.
    pub(crate) fn taken(&self, mount: usize) -> Option<usize> {
        self.mounts.get(mount).copied()
    }

    /// The next item of a mount's list, and how many were taken before it.
    pub(crate) fn next<'b>(
        &self,
        family: &'b Family,
        mount: usize,
    ) -> Option<(usize, &'b MountItem)>
        ensures next { IfSome result (λ r. IsNext family.now.mounts.items self.now mount r.0 r.1.now) }
        ensures fits { IfSome result (λ r. r.0 + 1 < 2 ^ 64) }
    {
        let taken = *self.mounts.get(mount)?;
        let list = family.mounts.get(mount)?;
        let item = list.item(taken)?;
        taken.checked_add(1)?;
        Some((taken, item))
    }

    /// One item more of the mount's list is taken.
    fn go_on(&mut self, mount: usize, taken: usize)
        requires reached { slice_get self.old.mounts mount ≡ Some taken }
        requires fits { taken + 1 < 2 ^ 64 }
        ensures { self.new ≡ one_further self.old mount taken }
    {
        let Some(reached) = self.mounts.get_mut(mount) else {
            unreachable!()
        };
        *reached = taken + 1;
    }

    /// Goes past the next item of a mount's list, if that is an end that a push made. Returns whether it was.
    fn skip_one(&mut self, family: &Family, mount: usize) -> bool
        ensures { (order : List StampOf) (history : List EntryOf)
            → Merged family.now.control.items family.now.mounts.items order history self.old
            → Merged family.now.control.items family.now.mounts.items order history self.new }
    {
        let Some((taken, item)) = self.next(family, mount) else {
            return false;
        };
        if !item.is_left_out() {
            return false;
        }
        self.go_on(mount, taken);
        true
    }

    /// Goes past all ends that come next in a mount's list and that pushes made.
    pub(crate) fn skip(&mut self, family: &Family, mount: usize)
        ensures { (order : List StampOf) (history : List EntryOf)
            → Merged family.now.control.items family.now.mounts.items order history self.old
            → Merged family.now.control.items family.now.mounts.items order history self.new }
    {
        'ends: for _ in 0..u64::MAX {
            if !self.skip_one(family, mount) {
                return;
            }
        }
    }

    /// The same in the lists of all mounts.
    pub(crate) fn skip_all(&mut self, family: &Family)
        ensures { (order : List StampOf) (history : List EntryOf)
            → Merged family.now.control.items family.now.mounts.items order history self.old
            → Merged family.now.control.items family.now.mounts.items order history self.new }
    {
        'mounts: for mount in 0..family.mounts.len() {
            self.skip(family, mount);
        }
    }

    /// Takes the entry at this place, if it can be taken next.
    pub(crate) fn take<'b>(&mut self, family: &'a Family, stamp: Stamp) -> Option<&'a Entry>
        ensures { IfSome result (λ entry. (order : List StampOf) (history : List EntryOf)
            → Merged family.now.control.items family.now.mounts.items order history self.old
            → Merged family.now.control.items family.now.mounts.items (order ++ stamp ∷ []) (history ++ entry.now ∷ []) self.new) }
    {
        match stamp.list.checked_sub(1) {
            Some(mount) => {
                self.skip(family, mount as usize);
                self.take_own(family, mount as usize, stamp.serial)
            }
            None => {
                self.skip_all(family);
                self.take_control(family, stamp.serial)
            }
        }
    }

    /// Takes the own entry at this place of a mount's list, if it is the next one.
    fn take_own(&mut self, family: &'a Family, mount: usize, serial: u64) -> Option<&'a Entry>
        ensures { IfSome result (λ entry. (order : List StampOf) (history : List EntryOf)
            → Merged family.now.control.items family.now.mounts.items order history self.old
            → Merged family.now.control.items family.now.mounts.items (order ++ record { list = mount + 1; serial = serial } ∷ []) (history ++ entry.now ∷ [])
            self.new) }
    {
        let (taken, item) = self.next(family, mount)?;
        if taken as u64 + 1 != serial {
            return None;
        }
        let entry = item.own_entry()?;
        self.go_on(mount, taken);
        Some(entry)
    }

    /// Takes the next control entry, if it has this place and its cuts are reached.
    fn take_control(&mut self, family: &'a Family, serial: u64) -> Option<&'a Entry>
        ensures { IfSome result (λ entry. (order : List StampOf) (history : List EntryOf)
            → Merged family.now.control.items family.now.mounts.items order history self.old
            → Merged family.now.control.items family.now.mounts.items (order ++ record { list = 0; serial = serial } ∷ []) (history ++ entry.now ∷ []) self.new) }
    {
        let (entry, rest) = past_cuts(self.control, &mut self.mounts)?;
        self.control = rest;
        if family.control.len().saturating_sub(rest.len()) as u64 != serial {
            return None;
        }
        Some(entry)
    }

    /// Goes past all ends that pushes made. Returns whether nothing is left of any list then.
    pub(crate) fn end(&mut self, family: &Family) -> bool
        ensures merged { (order : List StampOf) (history : List EntryOf)
            → Merged family.now.control.items family.now.mounts.items order history self.old
            → Merged family.now.control.items family.now.mounts.items order history self.new }
        ensures end { IsTrue result → AtEnd family.now.mounts.items self.new }
    {
        self.skip_all(family);
        self.control.is_empty() && are_whole(self.mounts.as_slice(), family)
    }
}

/// Whether all items of each mount's list were taken.
fn are_whole(taken: &[usize], family: &Family) -> bool
    ensures { IsTrue result → taken.now ≡ map length family.now.mounts.items }
{
    if taken.len() != family.mounts.len() {
        return false;
    }
    for (i, list) in family.mounts.iter().enumerate() {
        if taken.get(i).copied() != Some(list.len()) {
            return false;
        }
    }
    true
}

/// The next control entry behind its cuts, and the lines behind it. `None` if a cut is not reached.
fn past_cuts<'a>(
    lines: &'a [ControlLine],
    at: &mut Vec<usize>,
) -> Option<(&'a Entry, &'a [ControlLine])>
    ensures { IfSome result (λ r. PastCuts lines.now at.old.items r.0.now r.1.now at.new.items) }
{
    let (line, rest) = lines.split_first()?;
    match line {
        ControlLine::Made(entry) => Some((entry, rest)),
        ControlLine::Cut { list, from, to } => {
            if !goes_past(at, *list, *from as usize, *to as usize) {
                return None;
            }
            past_cuts(rest, at)
        }
    }
}

/// Goes on from `from` to `to` in this list, if so many were taken. Returns whether they were.
fn goes_past(at: &mut Vec<usize>, list: u64, from: usize, to: usize) -> bool
    ensures { IsTrue result → (0 < list) × (slice_get at.old.items (list - 1) ≡ Some from) × (at.new.items ≡ slice_set at.old.items (list - 1) to) }
{
    let Some(mount) = list.checked_sub(1) else {
        return false;
    };
    let Some(reached) = at.get_mut(mount as usize) else {
        return false;
    };
    if *reached != from {
        return false;
    }
    *reached = to;
    true
}
