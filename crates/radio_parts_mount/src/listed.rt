//! A part with the list of what happened to it.

ghost use Rattle.std.specs.Prelude.{◌≡◌, [], false, None, Some, find, filter, IsTrue, OnOk, OnErr, IfOk};
ghost use Rattle.std.specs.Option.{option_copied, option_map, option_map_or};
ghost use Rattle.radio_tables.specs.Lists.{Each};
ghost use Rattle.radio_attachments.specs.Rows.{is_attached, lags, AreInOrder};
ghost use Rattle.radio_parts_mount.specs.Kept.{longer_kept};
ghost use Rattle.radio_parts_mount.specs.StatePart.{end_in};
ghost use Rattle.radio_parts_mount.specs.Sessions.{with_title};
ghost use Rattle.radio_parts_mount.specs.Attached.{advanced_there, on_part, place_in, with_boxed, with_sitters, without_id, without_lagging};
ghost use Rattle.radio_parts_mount.specs.ByLists.{IsList, IsListIf};
ghost use Rattle.radio_parts_mount.specs.Parts.{with_session_changed, with_session_in};
ghost use Rattle.radio_parts_mount.specs.Steps.{part_answers, part_after, part_hands, part_heard, portion_reply, CanDraw, KeepsFor};

use crate::item::Attaching;
use crate::list::{KeptItems, PartList};
use crate::noting::{
    note_all_detached, note_begun, note_detached, note_lagging, note_own, note_title,
};
use crate::part::MountPart;
use crate::sitters::split_others;
use crate::step::PartAnswer;
use crate::{NewSession, OutOfMemory, Session};
use radio_attachments::{AttachmentTree, BoxedAttachment};
use radio_blocks::Block;
use radio_events::{Event, Reply};
use radio_seats::Seats;
use radio_tables::Row;
use radio_values::{MountName, Title};
use std::alloc::Global;
use std::marker::Model;
use std::mem;

/// A part with the list of what happened to it, if that is kept. Contracts see the part.
#[derive(Drop)]
pub struct ListedPart {
    part: MountPart,
    list: PartList,
    ghost told: { ∥ IsList list part.mount part.session part.attachments ∥₁ },
}

impl Model for ListedPart {
    ghost use Rattle.radio_parts_mount.specs.declared.part.MountPart.{MountPart};

    ghost Value = { MountPart };

    ghost view = { λ p. p.part };
}

impl Row for ListedPart {
    type Key = MountName;

    ghost use Rattle.radio_tables.proofs.KeyLaws.{name_is};
    ghost use Rattle.radio_parts_mount.specs.Parts.{is_part_of};

    ghost key = { λ part. part.mount };

    ghost has_key = { is_part_of };

    ghost has_key_is = { λ mount part. name_is mount part.mount };

    fn key(&self) -> MountName {
        self.part.mount
    }
}

impl ListedPart {
    /// Returns the part without a list.
    pub fn unlisted(part: MountPart) -> ListedPart
        ensures { result ≡ part }
    {
        ListedPart {
            part,
            list: PartList::unkept(),
        }
    }

    /// Returns the part of a mount that is not live, and to which nobody is attached, with a list in which nothing has
    /// happened. At least so many bytes of the mount's stream will be kept. It takes no memory.
    pub fn listed(alloc: Global, mount: MountName, queue: u64) -> ListedPart
        ensures { result ≡ record { mount = mount; session = None; attachments = []; lagged = [] } }
    {
        ListedPart {
            part: MountPart::new(mount),
            list: PartList::kept(alloc, queue),
        }
    }

    /// Returns the part.
    pub fn part(&self) -> &MountPart
        ensures { result.now ≡ self.now }
    {
        &self.part
    }

    /// Returns whether a list is kept.
    pub fn is_listed(&self) -> bool {
        self.list.is_kept()
    }

    /// Returns how many items the list has; 0 if none is kept.
    pub fn item_count(&self) -> u64 {
        self.list.item_count()
    }

    /// Returns the mount's session, if it is live.
    pub fn session(&self) -> Option<&Session>
        ensures { option_copied result ≡ self.now.session }
    {
        self.part.session.as_ref()
    }

    /// Returns the place up to which the listener has heard the mount's stream, if it is attached here.
    pub fn place(&self, id: u64) -> Option<u64>
        ensures { result ≡ place_in (find (is_attached id) self.now.attachments) }
    {
        self.part.place(id)
    }

    /// Returns whether a listener that is attached here may lag behind this end, both in bytes.
    pub fn may_lag(&self, end: u64, queue: u64) -> bool
        ensures none { result ≡ false → Each (λ row. lags end queue row ≡ false) self.now.attachments }
        ensures once { AreInOrder self.now.attachments }
    {
        self.part.attachments.may_lag(end, queue)
    }

    /// Returns what happened to the part, if that was kept.
    pub fn into_items(self) -> Option<KeptItems>
        // it replays by itself, and gives the part's session and who is attached
        ensures { ∥ IsListIf result self.mount self.session self.attachments ∥₁ }
    {
        let ListedPart { part, list, .. } = self;
        drop(part);
        list.into_items()
    }

    /// Takes out those who lagged out by an own step of the part.
    pub fn take_lagged(&mut self) -> AttachmentTree
        ensures lagged { result ≡ self.old.lagged }
        ensures part { self.new ≡ record self.old { lagged = [] } }
    {
        mem::replace(&mut self.part.lagged, AttachmentTree::new())
    }

    /// Puts these in the place of those who lagged out.
    pub fn set_lagged(&mut self, lagged: AttachmentTree)
        ensures { self.new ≡ record self.old { lagged = lagged } }
    {
        self.part.lagged = lagged;
    }

    /// Attaches the listener, if there is one.
    pub fn put(&mut self, boxed: Option<BoxedAttachment>)
        ensures { self.new ≡ on_part (with_boxed boxed) self.old }
    {
        let Some(boxed) = boxed else {
            return;
        };
        let row = boxed.row();
        self.part.attachments.put(boxed);
        self.list
            .attach(row.id, Attaching::Listener { place: row.place });
    }

    /// Detaches the listener, and returns its attachment, if it is attached here.
    pub fn take(&mut self, id: u64) -> Option<BoxedAttachment>
        ensures rest { self.new ≡ on_part (without_id id) self.old }
        ensures found { result ≡ find (is_attached id) self.old.attachments }
    {
        let boxed = self.part.attachments.take(id);
        if boxed.is_some() {
            note_detached(&mut self.list, &self.part.session, id);
        }
        boxed
    }

    /// Sets the place up to which the listener has heard the stream, if it is attached here. A list is given up, since an own
    /// step of the part does this alone.
    pub fn set_place(&mut self, id: u64, place: u64)
        ensures { self.new ≡ on_part (advanced_there id place) self.old }
    {
        self.part.attachments.set_place(id, place);
        self.list.give_up();
    }

    /// Takes out those who are further behind the end than a queue is long. A list is given up, since an own step of the part
    /// does this alone.
    pub fn take_lagging(&mut self, end: u64, queue: u64) -> AttachmentTree
        ensures rest { self.new ≡ on_part (without_lagging end queue) self.old }
        ensures lagging { result ≡ filter (lags end queue) self.old.attachments }
    {
        let lagging = self.part.attachments.take_lagging(end, queue);
        self.list.give_up();
        lagging
    }

    /// Detaches whoever does not sit at the mount.
    pub fn detach_others(&mut self, seats: &Seats, mount: &MountName)
        ensures { self.new ≡ on_part (with_sitters seats.now.seats mount.now) self.old }
    {
        let others = split_others(&mut self.part.attachments, seats, mount);
        note_all_detached(&mut self.list, &self.part.session, others);
    }

    /// Adds a block to the stream of the mount's session, as [`MountPart::receive`] does. A list is given up, since an own step
    /// of the part does this alone.
    pub fn receive(&mut self, block: &Block, moment: u64, limit: u64) -> Result<u64, OutOfMemory>
        ensures ok { OnOk result (self.new ≡ with_session_changed (longer_kept limit block.now moment) self.old) }
        ensures end { IfOk result (λ end. end ≡ end_in self.new.session) }
        ensures err { OnErr result (self.new ≡ self.old) }
    {
        let end = self.part.receive(block, moment, limit)?;
        self.list.give_up();
        Ok(end)
    }

    /// Begins this session.
    pub fn begin(&mut self, session: NewSession)
        ensures { self.new ≡ with_session_in (Some session) self.old }
    {
        let session = session.into_session();
        if !is_free_for(&self.part, &session) {
            self.part.session = Some(session);
            self.list.give_up();
            return;
        }
        note_begun(&mut self.list, &session);
        self.part.session = Some(session);
    }

    /// Ends the session, if the mount is live.
    pub fn end(&mut self)
        ensures { self.new ≡ with_session_in None self.old }
    {
        let Some(session) = self.part.session.take() else {
            return;
        };
        self.list.detach(session.number, false);
        drop(session);
    }

    /// Exchanges the title of the session, if the mount is live.
    // rule: Title of a session
    pub fn swap_title(&mut self, title: &mut Option<Title>)
        ensures part { self.new ≡ with_session_changed (with_title title.old) self.old }
        ensures title { title.new ≡ option_map_or (λ session. session.title) self.old.session title.old }
    {
        let Some(session) = &mut self.part.session else {
            return;
        };
        mem::swap(title, &mut session.title);
        note_title(&mut self.list, &session.title);
    }

    /// Does what the event does, as [`MountPart::step`], and notes it if a list is kept. `OutOfMemory` if memory was refused;
    /// nothing has changed then.
    pub fn step(
        &mut self,
        alloc: Global,
        moment: u64,
        queue: u64,
        event: Event,
    ) -> Result<PartAnswer, OutOfMemory>
        ensures answer { CanDraw self.old event → IfOk result (λ answer. answer ≡ part_answers self.old event) }
        ensures ok { CanDraw self.old event → OnOk result (self.new ≡ part_after queue moment self.old event) }
        ensures err { OnErr result (self.new ≡ self.old) }
    {
        if !self.list.is_kept() {
            return self.part.step(alloc, moment, queue, event);
        }
        self.step_listed(alloc, moment, queue, event)
    }

    /// Draws for the listener, as [`MountPart::draw`]. A list is given up, since only [`ListedPart::step`] notes a draw.
    /// `OutOfMemory` if memory was refused; nothing has changed then.
    pub fn draw(&mut self, alloc: Global, id: u64, room: u32) -> Result<Option<Reply>, OutOfMemory>
        ensures reply { KeepsFor id self.old → IfOk result (λ reply. reply ≡ option_map portion_reply (part_hands self.old id room)) }
        ensures ok { KeepsFor id self.old → OnOk result (self.new ≡ part_heard self.old id room) }
        ensures err { OnErr result (self.new ≡ self.old) }
    {
        self.list.give_up();
        self.part.draw(alloc, id, room)
    }

    /// The same as [`ListedPart::step`] if a list is kept.
    #[cold]
    fn step_listed(
        &mut self,
        alloc: Global,
        moment: u64,
        queue: u64,
        event: Event,
    ) -> Result<PartAnswer, OutOfMemory>
        ensures answer { CanDraw self.old event → IfOk result (λ answer. answer ≡ part_answers self.old event) }
        ensures ok { CanDraw self.old event → OnOk result (self.new ≡ part_after queue moment self.old event) }
        ensures err { OnErr result (self.new ≡ self.old) }
    {
        if !self.part.can_draw(&event) {
            self.list.give_up();
            return self.part.step(alloc, moment, queue, event);
        }
        match event.again() {
            Ok(copy) => self.step_noting(alloc, moment, queue, event, copy),
            Err(refused) => {
                drop(event);
                Err(refused)
            }
        }
    }

    /// Does what the event does, and notes it with its copy.
    fn step_noting(
        &mut self,
        alloc: Global,
        moment: u64,
        queue: u64,
        event: Event,
        copy: Event,
    ) -> Result<PartAnswer, OutOfMemory>
        requires copy { copy ≡ event }
        requires can { CanDraw self.old event }
        ensures answer { IfOk result (λ answer. answer ≡ part_answers self.old event) }
        ensures ok { OnOk result (self.new ≡ part_after queue moment self.old event) }
        ensures err { OnErr result (self.new ≡ self.old) }
    {
        match self.part.step(alloc, moment, queue, event) {
            Ok(PartAnswer::Replied(reply)) => {
                note_own(&mut self.list, moment, queue, copy, &reply);
                note_lagging(&mut self.list, &self.part.lagged);
                Ok(PartAnswer::Replied(reply))
            }
            Ok(PartAnswer::Elsewhere(event)) => {
                drop(copy);
                Ok(PartAnswer::Elsewhere(event))
            }
            Err(refused) => {
                drop(copy);
                Err(refused)
            }
        }
    }
}

/// Returns whether the session is of the part's mount, and that is not live.
fn is_free_for(part: &MountPart, session: &Session) -> bool
    ensures free { IsTrue result → part.now.session ≡ None }
    ensures mount { IsTrue result → part.now.mount ≡ session.now.mount }
{
    part.session.is_none() && *session.mount.get() == part.mount
}
