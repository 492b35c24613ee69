//! The control, its list, and for how many ends room is reserved.

ghost use Rattle.std.specs.Prelude.{◌≡◌, ◌+◌, ◌-◌, ◌≤◌, ◌<◌, ◌^◌, ◌∷◌, [], ◌++◌, length, true, false, IsOk, IsSome, IfOk, IfSome, IfNone, OnOk, OnErr, vec_len, vec_capacity};
ghost use Rattle.radio_events.specs.Events.{entry, EventTakesNoMemory};
ghost use Rattle.radio_chronicle.specs.Stamps.{stamp};
ghost use Rattle.radio_book.specs.ControlLists.{AreWantedOver, AreWantedThere, IsMadeByEntries, IsOpening};
ghost use Rattle.radio_book.specs.LentParts.{IsControlAsBefore, IsControlStep, IsRefused};
ghost use Rattle.radio_book.specs.MountBooks.{lines_for, AreNoted};
ghost use Rattle.radio_book.specs.Newcomers.{is_arrival, room_for};
ghost use Rattle.radio_book.specs.Receipts.{receipt_of};

use crate::holdings::Holdings;
use crate::lending::{apart, lend_each, note_cuts, reaches_parts, step3_over, take_back_each};
use crate::reserved_ends::ReservedEnds;
use crate::{Chronicle, Entry, MountBook, Origin, OutOfMemory, Receipt, Stamp};
use radio_chronicle::{ControlLine, Notes, twice};
use radio_core::{Control, ListedPart};
use radio_events::{Event, Reply};
use radio_values::MountName;
use std::alloc::{AllocError, Global};
use std::marker::PhantomData;
use std::sync::ledger::Share;

/// The control and its list, and for how many ends room is reserved: two lines for each, a cut and an entry.
/// What no caller has of the ledger yet is cut into as many parts as there are passes left.
#[derive(Drop)]
pub(crate) struct Accounts<C: Chronicle, H: Origin> {
    pub(crate) control: Control,
    pub(crate) lines: Notes<ControlLine>,
    ends: ReservedEnds<H>,
    spare: Share<H>,
    pub(crate) passes_left: u64,
    of: PhantomData<C>,
    ghost keeps: { lines.keeps ≡ C.KEEPS },
    ghost room: { ends.reserved + ends.reserved ≤ lines.room },
    ghost fits: { ends.reserved + ends.reserved < 2 ^ 64 },
    ghost left: { spare.parts ≡ passes_left },
    ghost none: { spare.amount ≡ 0 },
    ghost by_entries: { ∥ IsMadeByEntries C.KEEPS H.opening lines.items control ∥₁ },
}

impl<C: Chronicle, H: Origin> Accounts<C, H> {
    #[tactic(auto, using(crate::proofs::HistoryLemmas::made_first))]
    pub(crate) fn new(
        alloc: Global,
        control: Control,
        ends: ReservedEnds<H>,
        spare: Share<H>,
        passes_left: u64,
    ) -> Accounts<C, H>
        requires opening { control ≡ H.opening }
        requires opened { IsOpening H.opening }
        requires none { ends.reserved ≡ 0 }
        requires spare { (spare.parts ≡ passes_left) × (spare.amount ≡ 0) }
        ensures control { result.control ≡ control }
        ensures lines { result.lines.items ≡ [] }
        ensures passes { result.passes_left ≡ passes_left }
    {
        Accounts {
            control,
            lines: Notes::new(alloc, C::KEEPS),
            ends,
            spare,
            passes_left,
            of: PhantomData,
        }
    }

    /// Empty holdings. `None` if all were taken.
    pub(crate) fn holdings(&mut self, alloc: Global) -> Option<Holdings<H>>
        ensures empty { IfSome result (λ holdings. holdings.receipts.items ≡ []) }
        ensures none { IfNone result (self.old.passes_left ≡ 0) }
        ensures left { self.new.passes_left ≡ self.old.passes_left - 1 }
        ensures same { (self.new.control ≡ self.old.control) × (self.new.lines ≡ self.old.lines) }
    {
        if self.passes_left == 0 {
            return None;
        }
        let share = self.spare.split_off(1, 0);
        self.passes_left -= 1;
        Some(Holdings::new(alloc, share))
    }

    /// Returns the mount's part, wherever it is; `None` if the mount has none. `OutOfMemory` if memory was refused.
    pub(crate) fn part_of(&mut self, book: MountBook<C>) -> Result<Option<ListedPart>, OutOfMemory>
        ensures { self.new.lines ≡ self.old.lines }
    {
        let (mount, part) = book.into_part();
        match part {
            Some(part) => Ok(Some(part)),
            None => self.control.take_out(&mount),
        }
    }

    /// Returns the mounts where somebody sits, which relays feed on demand, over the parts that are lent. `OutOfMemory` if memory
    /// was refused.
    pub(crate) fn wanted(
        &mut self,
        lent: &mut [MountBook<C>],
    ) -> Result<Vec<MountName>, OutOfMemory>
        ensures over { IfOk result (λ mounts. AreWantedOver lent.old self.old.control mounts.items) }
        ensures legal { IfOk result (λ mounts. ∥ AreWantedThere H.opening mounts.items ∥₁) }
        ensures lent { IsControlAsBefore lent.old self.old.control lent.new self.new.control }
        ensures lines { self.new.lines.items ≡ self.old.lines.items }
    {
        lend_each(&mut self.control, lent, true);
        let wanted = self.control.wanted();
        take_back_each(&mut self.control, lent);
        wanted
    }

    /// Its lines.
    pub(crate) fn into_lines(self) -> Vec<ControlLine>
        ensures { result.items ≡ self.lines.items }
    {
        let Accounts {
            control,
            lines,
            ends,
            spare,
            ..
        } = self;
        drop(control);
        drop(ends);
        drop(spare);
        lines.into_items()
    }

    /// One event over the parts that are lent, if nothing is stored. `OutOfMemory` if memory was refused; nothing has changed
    /// then, and the parts were lent and taken back.
    // rule: Legal history
    pub(crate) fn answer(
        &mut self,
        lent: &mut [MountBook<C>],
        event: Event,
    ) -> Result<Reply, OutOfMemory>
        requires { C.KEEPS ≡ false }
        ensures step { IfOk result (λ reply. IsControlStep lent.old self.old.control event reply lent.new self.new.control) }
        ensures lines { self.new.lines.items ≡ self.old.lines.items }
        ensures err { OnErr result (IsRefused lent.old self.old.control lent.new self.new.control) }
        ensures frees { EventTakesNoMemory event → IsOk result }
    {
        let is_reached = reaches_parts(&self.control, lent, &event);
        lend_each(&mut self.control, lent, is_reached);
        let stepped = self.control.step(event);
        take_back_each(&mut self.control, lent);
        stepped
    }

    /// One event over the parts that are lent, which is stored. `OutOfMemory` if memory was refused; nothing has changed then.
    pub(crate) fn note(
        &mut self,
        holdings: &mut Holdings<H>,
        lent: &mut [MountBook<C>],
        event: Event,
    ) -> Result<Reply, OutOfMemory>
        requires { C.KEEPS ≡ true }
        ensures step { IfOk result (λ reply. IsControlStep lent.old self.old.control event reply lent.new self.new.control) }
        ensures lines { IfOk result (λ reply. AreNoted self.old.lines.items lent.new (entry event reply) self.new.lines.items) }
        ensures receipts { IfOk result (λ reply. holdings.new.receipts.items
            ≡ holdings.old.receipts.items ++ receipt_of (stamp 0 (length self.new.lines.items)) event reply ∷ []) }
        ensures err { OnErr result (IsRefused lent.old self.old.control lent.new self.new.control) }
        ensures err_lines { OnErr result ((self.new.lines.items ≡ self.old.lines.items) × (holdings.new.receipts.items ≡ holdings.old.receipts.items)) }
        ensures frees { EventTakesNoMemory event → room_for holdings.old.present.items event ≡ 0 → length lent.old ≤ 1 → IsOk result }
    {
        match self.prepare(holdings, lent.len(), &event) {
            Ok((noted, held)) => self.note_in_room(holdings, lent, event, noted, held),
            Err(refused) => {
                drop(event);
                Err(refused)
            }
        }
    }

    /// Makes room for an event that is lent so many parts, and for the ends that are reserved then, and two copies of the event:
    /// for the list and for the pass. `OutOfMemory` if memory was refused.
    fn prepare(
        &mut self,
        holdings: &mut Holdings<H>,
        lent: usize,
        event: &Event,
    ) -> Result<(Event, Event), OutOfMemory>
        ensures copies { IfOk result (λ copies. (copies.0 ≡ event.now) × (copies.1 ≡ event.now)) }
        ensures some { OnOk result (0 < self.new.ends.reserved + room_for holdings.new.present.items event.now) }
        ensures lines { OnOk result (lines_for self.new.ends.reserved (room_for holdings.new.present.items event.now) lent ≤ self.new.lines.room) }
        ensures most { OnOk result (self.new.lines.room < 2 ^ 64) }
        ensures receipts { OnOk result
            (vec_len holdings.new.receipts + vec_len holdings.new.present + room_for holdings.new.present.items event.now
            ≤ vec_capacity holdings.new.receipts) }
        ensures present { OnOk result (is_arrival event.now ≡ true → vec_len holdings.new.present < vec_capacity holdings.new.present) }
        ensures frees { EventTakesNoMemory event.now → room_for holdings.old.present.items event.now ≡ 0 → lent ≤ 1 → IsOk result }
        ensures same { (self.new.control ≡ self.old.control) × (self.new.lines.items ≡ self.old.lines.items) }
        ensures held { (holdings.new.receipts.items ≡ holdings.old.receipts.items) × (holdings.new.present.items ≡ holdings.old.present.items) }
    {
        self.make_room(holdings, lent, event)?;
        twice(event)
    }

    /// Makes room for an event that is lent so many parts, and for the ends that are reserved then. `OutOfMemory` if memory was
    /// refused.
    fn make_room(
        &mut self,
        holdings: &mut Holdings<H>,
        lent: usize,
        event: &Event,
    ) -> Result<(), OutOfMemory>
        ensures some { OnOk result (0 < self.new.ends.reserved + room_for holdings.new.present.items event.now) }
        ensures lines { OnOk result (lines_for self.new.ends.reserved (room_for holdings.new.present.items event.now) lent ≤ self.new.lines.room) }
        ensures most { OnOk result (self.new.lines.room < 2 ^ 64) }
        ensures receipts { OnOk result
            (vec_len holdings.new.receipts + vec_len holdings.new.present + room_for holdings.new.present.items event.now
            ≤ vec_capacity holdings.new.receipts) }
        ensures present { OnOk result (is_arrival event.now ≡ true → vec_len holdings.new.present < vec_capacity holdings.new.present) }
        ensures frees { room_for holdings.old.present.items event.now ≡ 0 → lent ≤ 1 → IsOk result }
        ensures same { (self.new.control ≡ self.old.control) × (self.new.lines.items ≡ self.old.lines.items) }
        ensures held { (holdings.new.receipts.items ≡ holdings.old.receipts.items) × (holdings.new.present.items ≡ holdings.old.present.items) }
    {
        let more = holdings.room_for(event);
        holdings.audit(&mut self.ends);
        let Some(lines) = lines_for(self.ends.reserved, more, lent) else {
            return Err(AllocError);
        };
        self.lines.reserve(lines)?;
        holdings.reserve(more)
    }

    /// One event over the parts that are lent, which is stored, and for which there is room.
    fn note_in_room(
        &mut self,
        holdings: &mut Holdings<H>,
        lent: &mut [MountBook<C>],
        event: Event,
        noted: Event,
        held: Event,
    ) -> Result<Reply, OutOfMemory>
        requires keeps { C.KEEPS ≡ true }
        requires copies { (noted ≡ event) × (held ≡ event) }
        requires some { 0 < self.old.ends.reserved + room_for holdings.old.present.items event }
        requires lines { lines_for self.old.ends.reserved (room_for holdings.old.present.items event) (length lent.old) ≤ self.old.lines.room }
        requires most { self.old.lines.room < 2 ^ 64 }
        requires receipts { vec_len holdings.old.receipts + vec_len holdings.old.present + room_for holdings.old.present.items event
            ≤ vec_capacity holdings.old.receipts }
        requires present { is_arrival event ≡ true → vec_len holdings.old.present < vec_capacity holdings.old.present }
        ensures step { IfOk result (λ reply. IsControlStep lent.old self.old.control event reply lent.new self.new.control) }
        ensures lines { IfOk result (λ reply. AreNoted self.old.lines.items lent.new (entry event reply) self.new.lines.items) }
        ensures receipts { IfOk result (λ reply. holdings.new.receipts.items
            ≡ holdings.old.receipts.items ++ receipt_of (stamp 0 (length self.new.lines.items)) event reply ∷ []) }
        ensures err { OnErr result (IsControlAsBefore lent.old self.old.control lent.new self.new.control) }
        ensures err_lines { OnErr result ((self.new.lines.items ≡ self.old.lines.items) × (holdings.new.receipts.items ≡ holdings.old.receipts.items)) }
        ensures frees { EventTakesNoMemory event → IsOk result }
    {
        match step3_over(&mut self.control, lent, event) {
            Ok(replies) => {
                let (first, second, third) = apart(replies);
                note_cuts(&mut self.lines, lent);
                self.lines.note(ControlLine::Made(Entry {
                    event: noted,
                    reply: first,
                }));
                let stamp = Stamp {
                    list: 0,
                    serial: self.lines.len() as u64,
                };
                holdings.note(&mut self.ends, Receipt::new(stamp, held, second));
                Ok(third)
            }
            Err(refused) => {
                drop(noted);
                drop(held);
                Err(refused)
            }
        }
    }
}

/// Returns how many lines need room before an entry over `lent` parts: those of the entry and its cuts, and two for each
/// end. `reserved` ends are reserved, and `more` others may be.
fn lines_for(reserved: usize, more: usize, lent: usize) -> Option<usize>
    ensures value { IfSome result (λ lines. lines ≡ lines_for reserved more lent) }
    ensures some { more ≡ 0 → lent ≤ 1 → reserved + reserved < 2 ^ 64 → IsSome result }
{
    let ends = reserved.checked_add(more)?;
    ends.checked_add(ends)?.checked_add(lent.saturating_sub(1))
}
