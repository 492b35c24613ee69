//! The book of all that is not one mount's.

ghost use Rattle.std.specs.Prelude.{◌≡◌, ◌-◌, ◌≤◌, ◌^◌, ◌∷◌, [], ◌++◌, length, map, true, false, Some, IsOk, IfOk, IfSome, IfNone, OnErr};
ghost use Rattle.radio_parts_station.specs.World.{opening, standing_of};
ghost use Rattle.radio_events.specs.Events.{entry, EventTakesNoMemory};
ghost use Rattle.radio_chronicle.specs.Stamps.{stamp};
ghost use Rattle.radio_seats_rows.specs.Seats.{last_mount_of};
ghost use Rattle.radio_book.specs.ControlLists.{mount_fed, AreWantedOver, AreWantedThere, HasNoPass, IsControlReply, IsMadeByEntries, WasThere};
ghost use Rattle.radio_book.specs.LentParts.{IsControlAsBefore, IsControlStep, IsRefused};
ghost use Rattle.radio_book.specs.MountBooks.{mount_and_list, AreNoted};
ghost use Rattle.radio_book.specs.Newcomers.{is_here, leaver_of};
ghost use Rattle.radio_book.specs.Receipts.{receipt_of};
ghost use Rattle.radio_book.specs.declared.newcomer.Newcomer.{Newcomer};

use crate::accounts::Accounts;
use crate::reserved_ends::ReservedEnds;
use crate::{Chronicle, Kept, MountBook, Origin, OutOfMemory, Pass};
use radio_access::Lists;
use radio_chronicle::ControlLine;
use radio_core::{Control, ListedPart};
use radio_events::{Event, Reply};
use radio_parts_mount::MountItem;
use radio_parts_station::Standing;
use radio_settings_values::Settings;
use radio_values::MountName;
use std::alloc::{AllocError, Global};
use std::marker::Model;
use std::sync::ledger::Blank;

/// How many passes a book gives.
pub const PASSES: u64 = 1 << 32;

/// The control, to which mounts' parts are lent, with its list. Contracts see the control, the lines that are stored, and how
/// many passes are left.
pub struct Book<C: Chronicle, H: Origin> {
    alloc: Global,
    accounts: Accounts<C, H>,
}

impl<C: Chronicle, H: Origin> Drop for Book<C, H> {
    fn drop(self) {
        let Book { alloc: _, accounts } = self;
        drop(accounts);
    }
}

impl<C: Chronicle, H: Origin> Model for Book<C, H> {
    ghost use Rattle.std.specs.Coded.{codes};
    ghost use Rattle.radio_parts.specs.contracts.control.Control as the_control;
    ghost use Rattle.radio_book.specs.LentParts.{ControlState};

    ghost Value = { ControlState };

    ghost coded = { Prim.hlevel (codes, the_control.the_row.coded) };

    ghost view = { λ b. record { control = b.accounts.control; lines = b.accounts.lines.items; passes = b.accounts.passes_left } };
}

impl<C: Chronicle, H: Origin> Book<C, H> {
    /// Returns a book in which nothing has happened yet. It takes no memory.
    pub fn new(alloc: Global, settings: Settings, lists: Lists, blank: Blank) -> Book<C, H>
        requires opening { H.opening ≡ opening settings lists }
        requires ledger { (blank.name ≡ H.name) × (blank.parts ≡ H.parts) × (blank.parts ≡ 2 ^ 32) }
        ensures control { result.control ≡ opening settings lists }
        ensures lines { result.lines ≡ [] }
        ensures passes { result.passes ≡ 2 ^ 32 }
    {
        let (book, spare) = blank.open::<H>();
        let mut control = Control::new(alloc, settings, lists);
        if C::KEEPS {
            control.keep_lists();
        }
        Book {
            alloc,
            accounts: Accounts::new(alloc, control, ReservedEnds::new(book), spare, PASSES),
        }
    }

    /// Returns a pass with no receipt yet. `None` only once [`PASSES`] were taken.
    pub fn pass(&mut self) -> Option<Pass<C, H>>
        ensures empty { IfSome result (λ pass. pass ≡ []) }
        // there is one as long as one is left
        ensures none { IfNone result (self.old.passes ≡ 0) }
        ensures left { self.new ≡ record self.old { passes = self.old.passes - 1 } }
        // it says so of a book that its entries have made, whatever was called before
        ensures legal { IfNone result (∥ HasNoPass C.KEEPS H.opening ∥₁) }
    {
        let Some(holdings) = self.accounts.holdings(self.alloc) else {
            return None;
        };
        Some(Pass::new(self.alloc, holdings))
    }

    /// Applies one event over the parts that are lent, and returns the reply. Each part is put in the place of the
    /// one that the control has, and taken out again. If entries are stored, a cut of each list and the entry are, and
    /// the pass gains the receipt. If they are not, the event is not copied.
    ///
    /// `OutOfMemory` if memory was refused. The list and the pass are unchanged then, and so are the control and the
    /// parts, except that a listener that had lagged out of a part has lost its seat.
    // rule: Legal history; Receipts; Reserved ends
    pub fn apply(
        &mut self,
        pass: &mut Pass<C, H>,
        lent: &mut [MountBook<C>],
        event: Event,
    ) -> Result<Reply, OutOfMemory>
        // the reply is the control's over what it is lent
        ensures step { IfOk result (λ reply. IsControlStep lent.old self.old.control event reply lent.new self.new.control) }
        // it is that of a control that its entries have made, whatever was called before
        ensures legal { IfOk result (λ reply. ∥ IsControlReply H.opening event reply ∥₁) }
        // the same books in the same order
        ensures same { map mount_and_list lent.new ≡ map mount_and_list lent.old }
        // if entries are stored, the list grows by a cut for each book and the entry
        ensures lines { C.KEEPS ≡ true → IfOk result (λ reply. AreNoted self.old.lines lent.new (entry event reply) self.new.lines) }
        // and the pass gains the entry's receipt, which is at the list's end
        ensures pass { C.KEEPS ≡ true → IfOk result (λ reply. pass.new ≡ pass.old ++ receipt_of (stamp 0 (length self.new.lines)) event reply ∷ []) }
        // if they are not, nothing is noted
        ensures unkept { C.KEEPS ≡ false → (self.new.lines ≡ self.old.lines) × (pass.new ≡ pass.old) }
        ensures err { OnErr result (IsRefused lent.old self.old.control lent.new self.new.control) }
        ensures err_lines { OnErr result ((self.new.lines ≡ self.old.lines) × (pass.new ≡ pass.old)) }
        // the end of a client or relay that this pass let in and has not ended is never refused if it is lent one part
        ensures leave { (one : Newcomer) → leaver_of event ≡ Some one → is_here one pass.old ≡ true → length lent.old ≤ 1 → IsOk result }
        // if nothing is stored, the end of a session and of a connection, and the clock, are never refused
        ensures frees { C.KEEPS ≡ false → EventTakesNoMemory event → IsOk result }
    {
        if C::KEEPS {
            self.accounts.note(&mut pass.holdings, lent, event)
        } else {
            self.accounts.answer(lent, event)
        }
    }
}

impl<C: Chronicle, H: Origin> Book<C, H> {
    /// Returns the mounts where somebody sits, which relays feed on demand, in the order of their bytes, over the parts that are
    /// lent. It makes no entry. `OutOfMemory` if memory was refused.
    // rule: Pulls on demand
    pub fn wanted(&mut self, lent: &mut [MountBook<C>]) -> Result<Vec<MountName>, OutOfMemory>
        ensures over { IfOk result (λ mounts. AreWantedOver lent.old self.old.control mounts.items) }
        // they are those of a control that its entries have made, whatever was called before
        ensures legal { IfOk result (λ mounts. ∥ AreWantedThere H.opening mounts.items ∥₁) }
        // the same books in the same order
        ensures same { map mount_and_list lent.new ≡ map mount_and_list lent.old }
        ensures lent { IsControlAsBefore lent.old self.old.control lent.new self.new.control }
        ensures lines { self.new.lines ≡ self.old.lines }
    {
        self.accounts.wanted(lent)
    }

    /// Returns the settings.
    pub fn settings(&self) -> &Settings
        ensures { result.now ≡ self.now.control.station.settings }
    {
        self.accounts.control.settings()
    }

    /// Returns the mount where the listener of this number sits, or sat last, if there is one. It takes no memory.
    pub fn last_mount(&self, id: u64) -> Option<MountName>
        ensures control { result ≡ last_mount_of self.now.control.seats id }
        // as a control has it that its entries have made, whatever was called before
        ensures legal { ∥ WasThere H.opening id result ∥₁ }
    {
        self.accounts.control.last_mount(id).copied()
    }

    /// Returns the mount that the client or relay of this number feeds, or where it sits, or sat last, if there is one. It takes no
    /// memory.
    pub fn place_of(&self, id: u64) -> Option<MountName> {
        match self.fed_mount(id) {
            Some(mount) => Some(mount),
            None => self.last_mount(id),
        }
    }

    /// Returns the mount that the client or relay of this number feeds, if it feeds one. It takes no memory.
    pub fn fed_mount(&self, id: u64) -> Option<MountName>
        ensures { result ≡ mount_fed (standing_of self.now.control id) }
    {
        match self.accounts.control.standing(id) {
            Standing::Feeds(mount) => Some(mount),
            Standing::Unknown
            | Standing::Undecided(_)
            | Standing::Sits
            | Standing::Answered
            | Standing::Finished(_) => None,
        }
    }

    /// Some entries have made what all mounts have in common what it is, whatever was called; if entries are stored,
    /// they are those of the list. Runs no code.
    // rule: Legal history
    pub fn is_made_by_entries(&self)
        ensures { ∥ IsMadeByEntries C.KEEPS H.opening self.now.lines self.now.control ∥₁ }
    {
        let _accounts = &self.accounts;
    }
}

impl<H: Origin> Book<Kept, H> {
    /// Returns the items of the mount's list, when nobody calls any more; none if nothing has happened at the mount.
    ///
    /// `OutOfMemory` if memory was refused, now or earlier for the list.
    pub fn items_of(&mut self, book: MountBook<Kept>) -> Result<Vec<MountItem>, OutOfMemory>
        ensures same { self.new.lines ≡ self.old.lines }
    {
        let part = self.accounts.part_of(book)?;
        items_in(self.alloc, part)
    }

    /// Returns its lines, when nobody calls any more.
    pub fn into_lines(self) -> Vec<ControlLine>
        ensures { result.items ≡ self.lines }
    {
        let Book { alloc: _, accounts } = self;
        accounts.into_lines()
    }
}

/// Returns the items of the part's list; none if there is no part.
fn items_in(alloc: Global, part: Option<ListedPart>) -> Result<Vec<MountItem>, OutOfMemory> {
    let Some(part) = part else {
        return Ok(Vec::new(alloc));
    };
    match part.into_items() {
        Some(kept) => Ok(kept.items),
        None => Err(AllocError),
    }
}
