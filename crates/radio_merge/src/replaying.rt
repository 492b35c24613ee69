//! A core that steps through the entries of an order.
//!
//! Read [`replay`] first.

ghost use Rattle.std.specs.Prelude.{◌≡◌, ◌∷◌, [], ◌++◌, List, IfOk, IfSome, OnOk};
ghost use Rattle.radio_parts_station.specs.World.{World, opening};
ghost use Rattle.radio_core.specs.Represents.{Represents};
ghost use Rattle.radio_parts.specs.Step.{reply_to, world_after};
ghost use Rattle.radio_chronicle.specs.History.{IsRun};
ghost use Rattle.radio_merge.specs.Merged.{IsMerge};
ghost use Rattle.radio_merge.specs.Replays.{IsSoFar};
ghost use Rattle.radio_chronicle.specs.declared.stamp.Stamp.{Stamp as StampOf};

use crate::positions::Positions;
use crate::same::is_same_reply;
use crate::{Family, MergeFault, OutOfMemory, Stamp};
use radio_access::Lists;
use radio_core::Core;
use radio_events::{Entry, Event};
use radio_settings_values::Settings;
use std::alloc::{AllocError, Global};

/// A core that has stepped through a history, and how far that has taken the lists.
#[derive(Drop)]
struct Stepping<'a> {
    family: &'a Family,
    positions: Positions<'a>,
    core: Core,
    history: Vec<Entry>,
}

/// Returns the entries at these places as a history, through which a new core of these settings and lists steps with the same
/// replies. `OutOfOrder` if one of them can't be taken when its turn comes, or an entry is left at the end.
pub(crate) fn replay(
    alloc: Global,
    settings: Settings,
    lists: Lists,
    family: &Family,
    order: &[Stamp],
) -> Result<Vec<Entry>, MergeFault>
    ensures run { IfOk result (λ history. IsRun (opening settings lists) history.items) }
    ensures merge { IfOk result (λ history. IsMerge family.now.control.items family.now.mounts.items order.now history.items) }
{
    let mut replay = Stepping::new(alloc, settings, lists, family)?;
    'stamps: for stamp in order {
        replay.step(stamp)?;
    }
    replay.end()
}

impl<'a> Stepping<'a> {
    /// A new core; nothing is taken yet.
    fn new(
        alloc: Global,
        settings: Settings,
        lists: Lists,
        family: &'a Family,
    ) -> Result<Stepping<'a>, OutOfMemory>
        ensures family { IfOk result (λ r. r.family.now ≡ family.now) }
        ensures so_far { IfOk result (λ r. IsSoFar (opening settings lists) family.now.control.items family.now.mounts.items [] r.core r.history.items r.positions) }
    {
        match Positions::new(alloc, family) {
            Ok(positions) => Ok(Stepping {
                family,
                positions,
                core: Core::new(alloc, settings, lists),
                history: Vec::new(alloc),
            }),
            Err(refused) => {
                drop(settings);
                drop(lists);
                Err(refused)
            }
        }
    }

    /// Takes the entry at this place, and steps the core by its event.
    fn step(&mut self, stamp: &Stamp) -> Result<(), MergeFault>
        ensures family { self.new.family.now ≡ self.old.family.now }
        ensures so_far { OnOk result ((opening : World) (order : List StampOf)
            → IsSoFar opening self.old.family.now.control.items self.old.family.now.mounts.items order self.old.core self.old.history.items self.old.positions
            → IsSoFar opening self.old.family.now.control.items self.old.family.now.mounts.items (order ++ stamp.now ∷ []) self.new.core self.new.history.items
            self.new.positions) }
    {
        let Some(entry) = self.positions.take(self.family, *stamp) else {
            return Err(out_of_order(*stamp));
        };
        self.history.reserve(1)?;
        match repeat(&mut self.core, entry)? {
            Some(again) => {
                self.history.push_reserved(again);
                Ok(())
            }
            None => Err(MergeFault::Unlike(*stamp)),
        }
    }

    /// The history, if all lists were taken to their ends.
    fn end(self) -> Result<Vec<Entry>, MergeFault>
        ensures same { IfOk result (λ history. history.items ≡ self.entry.history.items) }
        ensures merge { IfOk result (λ history. (opening : World) (order : List StampOf)
            → IsSoFar opening self.entry.family.now.control.items self.entry.family.now.mounts.items order self.entry.core self.entry.history.items self.entry.positions
            → IsMerge self.entry.family.now.control.items self.entry.family.now.mounts.items order history.items) }
    {
        let Stepping {
            family,
            mut positions,
            core,
            history,
        } = self;
        drop(core);
        if positions.end(family) {
            return Ok(history);
        }
        drop(history);
        Err(out_of_order(Stamp { list: 0, serial: 0 }))
    }
}

/// Steps the core by the event of an entry. Returns a copy of the entry, or `None` if the core gives another reply.
fn repeat(core: &mut Core, entry: &Entry) -> Result<Option<Entry>, OutOfMemory>
    ensures same { IfOk result (λ made. IfSome made (λ e. e ≡ entry.now)) }
    ensures step { IfOk result (λ made. IfSome made (λ e. (w : World) → Represents core.old w
        → (e.reply ≡ reply_to w e.event) × Represents core.new (world_after w e.event))) }
{
    let (event, copy) = twice(&entry.event)?;
    match core.step(copy) {
        Ok(reply) => {
            if is_same_reply(&reply, &entry.reply) {
                return Ok(Some(Entry { event, reply }));
            }
            drop(event);
            drop(reply);
            Ok(None)
        }
        Err(refused) => {
            drop(event);
            Err(refused)
        }
    }
}

/// Two copies of an event.
fn twice(event: &Event) -> Result<(Event, Event), OutOfMemory>
    ensures { IfOk result (λ copies. (copies.0 ≡ event.now) × (copies.1 ≡ event.now)) }
{
    let first = event.again()?;
    match event.again() {
        Ok(second) => Ok((first, second)),
        Err(refused) => {
            drop(first);
            Err(refused)
        }
    }
}

/// The fault of an entry that can't be taken.
fn out_of_order(got: Stamp) -> MergeFault {
    MergeFault::OutOfOrder {
        seen: Stamp { list: 0, serial: 0 },
        got,
    }
}
