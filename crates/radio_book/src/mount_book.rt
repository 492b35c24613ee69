//! The book of a mount: its part, and what that does by itself.

ghost use Rattle.std.specs.Prelude.{◌≡◌, ◌+◌, ◌≤◌, ◌<◌, true, false, None, IfOk, IsTrue, OnErr, vec_len, vec_capacity};
ghost use Rattle.radio_book.specs.Clocks.{IsNotDue};
ghost use Rattle.radio_book.specs.LentParts.{IsBack, IsLentOrStays};
ghost use Rattle.radio_book.specs.MountBooks.{draw_in, noted_own, once_in, own_in, CanOwn, GivesBack, IsCut, IsDone, IsNotedIn, IsReplyHere};
ghost use Rattle.radio_events.specs.declared.event.Event.TheVariants.{Draw};
ghost use Rattle.radio_chronicle.specs.OwnSteps.{is_part_event, IsAlike};

use crate::holdings::Holdings;
use crate::last_blocks::{drop_old, last_block, last_block_of};
use crate::{Chronicle, Origin, OutOfMemory, Pass, Receipt, Stamp};
use radio_chronicle::{ControlLine, Twice, is_own, items_here, step_here, step_twice_here};
use radio_core::{Control, ListedPart, PartAnswer};
use radio_events::{Event, Reply};
use radio_parts_mount::{LAST_MOMENT, due_at};
use radio_values::MountName;
use std::alloc::Global;
use std::marker::{Model, PhantomData};

/// What a mount's book does with an event.
#[derive(Drop)]
pub enum Own {
    /// The mount's part has replied.
    Made(Reply),
    /// The client is not attached to the mount, or the control has the part; nothing has changed.
    Elsewhere(Event),
}

/// What is large of a mount's book. It is in an allocation of its own, so that a book moves for little into and out of its lock.
#[derive(Drop)]
struct BookParts {
    mount: MountName,
    part: Option<ListedPart>,
    /// What the control had in the place of the part that is lent: it goes back there, so that nothing has to be made anew.
    stand_in: Option<ListedPart>,
}

/// A mount's part, with the number of its list. Contracts see the part, unless the control has it.
pub struct MountBook<C: Chronicle> {
    alloc: Global,
    list: u64,
    moment: u64,
    queue: u64,
    /// How many items its list had when the part was lent last.
    items: u64,
    /// When the last block of its session had come when the part was put in the control last, in milliseconds.
    last_block: u64,
    /// What the control has in the place of the part that is here knows of a block that came then or later, in milliseconds.
    known_block: u64,
    parts: Box<BookParts>,
    of: PhantomData<C>,
}

impl<C: Chronicle> Drop for MountBook<C> {
    fn drop(self) {
        let (_, part) = self.into_part();
        drop(part);
    }
}

impl<C: Chronicle> Model for MountBook<C> {
    ghost use Rattle.radio_book.specs.MountBooks.{BookOfMount};

    ghost Value = { BookOfMount };

    ghost view = { λ b. record { mount = b.parts.value.mount; list = b.list; part = b.parts.value.part; moment = b.moment; queue = b.queue } };
}

impl<C: Chronicle> MountBook<C> {
    /// Returns the book of a mount whose part the control has, with no list yet. At least so many bytes of the mount's stream are
    /// kept. `OutOfMemory` if memory was refused.
    pub fn new(alloc: Global, mount: MountName, queue: u64) -> Result<MountBook<C>, OutOfMemory>
        ensures { IfOk result (λ book. book ≡ record { mount = mount; list = 0; part = None; moment = 0; queue = queue }) }
    {
        let parts = BookParts {
            mount,
            part: None,
            stand_in: None,
        };
        Ok(MountBook {
            alloc,
            list: 0,
            moment: 0,
            queue,
            items: 0,
            last_block: LAST_MOMENT,
            known_block: LAST_MOMENT,
            parts: Box::new(alloc, parts)?,
            of: PhantomData,
        })
    }

    /// Sets the number of its list, counted from 1.
    pub fn set_list(&mut self, list: u64)
        ensures { self.new ≡ record self.old { list = list } }
    {
        self.list = list;
    }

    /// Returns the mount.
    pub fn mount(&self) -> &MountName
        ensures { result.now ≡ self.now.mount }
    {
        &self.parts.mount
    }

    /// Returns the number of its list, counted from 1; 0 if it has none.
    pub fn list(&self) -> u64
        ensures { result ≡ self.now.list }
    {
        self.list
    }

    /// Makes it the book of this mount, if nothing has happened at its mount. Returns whether it is.
    pub fn reuse(&mut self, mount: MountName) -> bool
        ensures some { IsTrue result → (self.old.part ≡ None) × (self.new ≡ record self.old { mount = mount }) }
        ensures none { result ≡ false → self.new ≡ self.old }
    {
        if self.parts.part.is_some() || self.items > 0 {
            return false;
        }
        self.parts.mount = mount;
        true
    }

    /// Does what the event does if the mount's part can by itself: a draw of a listener that is attached to it, a block or a
    /// title of the source that feeds it. `OutOfMemory` if memory was refused; nothing has changed then.
    // rule: Legal history; Receipts
    pub fn apply<H: Origin>(
        &mut self,
        pass: &mut Pass<C, H>,
        event: Event,
    ) -> Result<Own, OutOfMemory>
        // an event to which the part does not reply comes back
        ensures back { IfOk result (λ own. GivesBack event own) }
        // the reply is the part's own, and the part is as it says then
        ensures done { CanOwn self.old event → IfOk result (λ own. IsDone self.old event own self.new) }
        // if entries are stored, the pass gains the receipt of a reply, at a place of the mount's list
        ensures pass { C.KEEPS ≡ true → IfOk result (λ own. IsNotedIn self.old.list event own pass.old pass.new) }
        // if they are not, nothing is noted
        ensures unkept { C.KEEPS ≡ false → pass.new ≡ pass.old }
        ensures err { CanOwn self.old event → OnErr result (self.new ≡ self.old) }
        ensures err_pass { OnErr result (pass.new ≡ pass.old) }
    {
        if C::KEEPS {
            return self.note(&mut pass.holdings, event);
        }
        if let Some((id, room)) = draw_in(&event) {
            drop(event);
            return self.answer_draw(id, room);
        }
        match step_here(
            self.alloc,
            &mut self.parts.part,
            self.moment,
            self.queue,
            event,
        ) {
            Ok(PartAnswer::Replied(reply)) => Ok(Own::Made(reply)),
            Ok(PartAnswer::Elsewhere(same)) => Ok(Own::Elsewhere(same)),
            Err(refused) => Err(refused),
        }
    }

    /// Draws for this client, which has room for so many bytes, if nothing is stored, as [`MountBook::apply`], but without an event.
    /// Returns the reply; `None` if the client is not attached to the mount, or the control has the part. `OutOfMemory` if memory
    /// was refused; nothing has changed then.
    // rule: Legal history
    pub fn draw(&mut self, id: u64, room: u32) -> Result<Option<Reply>, OutOfMemory>
        requires { C.KEEPS ≡ false }
        ensures done { CanOwn self.old (Draw id room) → IfOk result (λ reply. IsReplyHere self.old (Draw id room) reply self.new) }
        ensures err { OnErr result (self.new ≡ self.old) }
    {
        let Some(part) = &mut self.parts.part else {
            return Ok(None);
        };
        part.draw(self.alloc, id, room)
    }

    /// Puts the part, if it is here and the event reaches it, in the place of that which the control has. It takes no memory.
    pub(crate) fn lend(&mut self, control: &mut Control, is_reached: bool)
        ensures { IsLentOrStays is_reached self.old self.new control.old control.new }
    {
        self.items = self.item_count();
        if !is_reached {
            return;
        }
        let Some(part) = self.parts.part.take() else {
            return;
        };
        self.last_block = last_block(&part);
        match control.exchange(part) {
            Ok(there) => self.parts.stand_in = Some(there),
            Err(part) => self.parts.part = Some(part),
        }
    }

    /// Takes the part out of the control, unless it is here. If memory is refused the control keeps it, until it is lent again.
    pub(crate) fn take_back(&mut self, control: &mut Control)
        ensures { IsBack self.old self.new control.old control.new }
    {
        self.moment = control.time();
        let parts = &mut *self.parts;
        if parts.part.is_some() {
            return;
        }
        let timeout = control.settings().limits.source_timeout.get();
        drop_old(&mut parts.stand_in, self.last_block, self.moment, timeout);
        let stand_in = parts.stand_in.take();
        let known = last_block_of(&stand_in);
        parts.part = control.take_out_for(&parts.mount, stand_in);
        self.known_block = known.min(last_block_of(&parts.part));
    }

    /// Returns whether the session may be due at this moment, in milliseconds, by the part that is here, or as the control knows it.
    /// Sources have so many seconds.
    pub(crate) fn may_be_due(&self, timeout: u32, ms: u64) -> bool
        ensures { result ≡ false → IsNotDue timeout ms self.now }
    {
        let Some(part) = &self.parts.part else {
            return false;
        };
        due_at(timeout, self.known_block.min(last_block(part))) <= ms
    }

    /// Returns how many items its list has, or had when the part was lent.
    fn item_count(&self) -> u64 {
        match &self.parts.part {
            Some(part) => part.item_count(),
            None => self.items,
        }
    }

    /// Returns the line of what a control entry has made in the list.
    pub(crate) fn cut(&self) -> ControlLine
        ensures { IsCut self.now.list result }
    {
        ControlLine::Cut {
            list: self.list,
            from: self.items,
            to: self.item_count(),
        }
    }

    /// Returns the mount and its part, if that is here.
    pub(crate) fn into_part(self) -> (MountName, Option<ListedPart>)
        ensures { (result.0 ≡ self.mount) × (result.1 ≡ self.part) }
    {
        let MountBook {
            alloc: _,
            list: _,
            moment: _,
            queue: _,
            items: _,
            last_block: _,
            known_block: _,
            parts,
            of: _,
        } = self;
        let BookParts {
            mount,
            part,
            stand_in,
        } = Box::into_inner(parts);
        drop(stand_in);
        (mount, part)
    }

    /// Does what a draw does, if nothing is stored.
    fn answer_draw(&mut self, id: u64, room: u32) -> Result<Own, OutOfMemory>
        requires { C.KEEPS ≡ false }
        ensures back { IfOk result (λ own. GivesBack (Draw id room) own) }
        ensures done { CanOwn self.old (Draw id room) → IfOk result (λ own. IsDone self.old (Draw id room) own self.new) }
        ensures err { OnErr result (self.new ≡ self.old) }
    {
        match self.draw(id, room) {
            Ok(Some(reply)) => Ok(Own::Made(reply)),
            Ok(None) => Ok(Own::Elsewhere(Event::Draw { id, room })),
            Err(refused) => Err(refused),
        }
    }

    /// Does what the event does, which is stored.
    fn note<H: Origin>(
        &mut self,
        holdings: &mut Holdings<H>,
        event: Event,
    ) -> Result<Own, OutOfMemory>
        ensures back { IfOk result (λ own. GivesBack event own) }
        ensures done { CanOwn self.old event → IfOk result (λ own. IsDone self.old event own self.new) }
        ensures receipts { IfOk result (λ own. IsNotedIn self.old.list event own holdings.old.receipts.items holdings.new.receipts.items) }
        ensures err { CanOwn self.old event → OnErr result (self.new ≡ self.old) }
        ensures err_receipts { OnErr result (holdings.new.receipts.items ≡ holdings.old.receipts.items) }
    {
        if !is_own(&event) {
            return Ok(Own::Elsewhere(event));
        }
        if let Err(refused) = holdings.reserve(1) {
            drop(event);
            return Err(refused);
        }
        match event.again() {
            Ok(held) => self.note_copied(holdings, event, held),
            Err(refused) => {
                drop(event);
                Err(refused)
            }
        }
    }

    /// Does what the event does, of which `held` is a copy, and which is stored; the pass has room for its receipt.
    fn note_copied<H: Origin>(
        &mut self,
        holdings: &mut Holdings<H>,
        event: Event,
        held: Event,
    ) -> Result<Own, OutOfMemory>
        requires own { is_part_event event ≡ true }
        requires copy { held ≡ event }
        requires room { vec_len holdings.old.receipts + vec_len holdings.old.present < vec_capacity holdings.old.receipts }
        ensures back { IfOk result (λ own. GivesBack event own) }
        ensures done { CanOwn self.old event → IfOk result (λ own. IsDone self.old event own self.new) }
        ensures receipts { IfOk result (λ own. IsNotedIn self.old.list event own holdings.old.receipts.items holdings.new.receipts.items) }
        ensures err { CanOwn self.old event → OnErr result (self.new ≡ self.old) }
        ensures err_receipts { OnErr result (holdings.new.receipts.items ≡ holdings.old.receipts.items) }
    {
        let stamp = Stamp {
            list: self.list,
            serial: items_here(&self.parts.part).saturating_add(1),
        };
        let parts = &mut *self.parts;
        let stepped = step_twice_here(self.alloc, &mut parts.part, self.moment, self.queue, event);
        note_own(holdings, stamp, held, stepped)
    }
}

/// Returns who draws by the event, and how many bytes it has room for, if the event is a draw.
fn draw_in(event: &Event) -> Option<(u64, u32)>
    ensures { result ≡ draw_in event.now }
{
    match event {
        Event::Draw { id, room } => Some((*id, *room)),
        Event::Arrive { .. }
        | Event::Source(_)
        | Event::Push { .. }
        | Event::SourceEnd { .. }
        | Event::Title { .. }
        | Event::Listen(_)
        | Event::Command(_)
        | Event::Leave { .. }
        | Event::RelayUp { .. }
        | Event::RelayDown { .. }
        | Event::Clock { .. } => None,
    }
}

/// Returns what becomes of a part's answer to the event, of which `held` is a copy, if it is stored: the pass takes its receipt,
/// for which there is room.
fn note_own<H: Origin>(
    holdings: &mut Holdings<H>,
    stamp: Stamp,
    held: Event,
    stepped: Result<Twice, OutOfMemory>,
) -> Result<Own, OutOfMemory>
    requires own { is_part_event held ≡ true }
    requires alike { IfOk stepped (λ twice. IsAlike twice) }
    requires room { vec_len holdings.old.receipts + vec_len holdings.old.present < vec_capacity holdings.old.receipts }
    ensures value { result ≡ own_in held (once_in stepped) }
    ensures receipts { IfOk result (λ own. holdings.new.receipts.items ≡ noted_own stamp held own holdings.old.receipts.items) }
    ensures err { OnErr result (holdings.new.receipts.items ≡ holdings.old.receipts.items) }
{
    match stepped {
        Ok(Twice::Replied(again, reply)) => {
            holdings.note_own(Receipt::new(stamp, held, again));
            Ok(Own::Made(reply))
        }
        Ok(Twice::Elsewhere(event)) => {
            drop(event);
            Ok(Own::Elsewhere(held))
        }
        Err(refused) => {
            drop(held);
            Err(refused)
        }
    }
}
