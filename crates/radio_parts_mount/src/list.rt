//! The list of what happened to a part.
//!
//! Only tests keep lists. A list for which memory is refused is given up, so that no call is refused for it.

ghost use Rattle.std.specs.Prelude.{◌≡◌, ◌<◌, [], None, Some, List, Option, IsTrue, is_some, vec_len, vec_capacity};
ghost use Rattle.std.specs.Option.{option_map};
ghost use Rattle.radio_attachments.specs.declared.attachment.Attachment.{Attachment as AttachmentOf};
ghost use Rattle.radio_events.specs.Events.{client_in};
ghost use Rattle.radio_parts_mount.specs.Sessions.{Session as SessionOf, with_title};
ghost use Rattle.radio_parts_mount.specs.Items.{is_lagged};
ghost use Rattle.radio_parts_mount.specs.Steps.{part_answers};
ghost use Rattle.radio_parts_mount.specs.declared.step.PartAnswer.TheVariants.{Replied};
ghost use Rattle.radio_parts_mount.specs.ByLists.{after_own, attached_with, attached_without, grant_of, part_of, session_with, session_without, IsList, IsListOf};

use crate::item::{Attaching, MountItem};
use radio_attachments::AttachmentTree;
use radio_events::Entry;
use radio_policy::Rule;
use radio_values::Title;
use std::alloc::Global;

/// A client that is attached to a mount, with the place of its `Attach` in the mount's list, counted from 1.
#[derive(Clone, Copy, Debug)]
pub struct Grant {
    /// The number of the client.
    pub id: u64,
    /// The place.
    pub place: u64,
}

/// What happened to a part, item by item.
#[derive(Drop)]
pub struct KeptItems {
    /// The items.
    pub items: Vec<MountItem>,
    /// Who has a grant.
    pub grants: Vec<Grant>,
    /// How many bytes of the stream are kept at least.
    pub queue: u64,
}

/// What happened to a part, if that is kept.
#[derive(Drop)]
pub struct PartList {
    pub(crate) kept: Option<KeptItems>,
}

impl KeptItems {
    /// Notes that the client is attached.
    fn attach(&mut self, id: u64, attached: Attaching)
        requires items { vec_len self.old.items < vec_capacity self.old.items }
        requires grants { vec_len self.old.grants < vec_capacity self.old.grants }
        requires free { grant_of self.old.grants.items id ≡ None }
        ensures { (mount : _) (session : Option SessionOf) (attachments : List AttachmentOf)
            → IsListOf self.old.queue mount self.old.items.items self.old.grants.items session attachments
            → IsListOf self.new.queue mount self.new.items.items self.new.grants.items (session_with mount id attached session) (attached_with id attached attachments) }
    {
        self.items.push_reserved(MountItem::Attach { id, attached });
        let place = self.items.len() as u64;
        self.grants.push_reserved(Grant { id, place });
    }

    /// Notes that the client's grant is over: it lagged, or the control detached it.
    fn detach(&mut self, id: u64, grant: u64, has_lagged: bool)
        requires items { vec_len self.old.items < vec_capacity self.old.items }
        requires has { grant_of self.old.grants.items id ≡ Some grant }
        ensures { (mount : _) (session : Option SessionOf) (attachments : List AttachmentOf)
            → IsListOf self.old.queue mount self.old.items.items self.old.grants.items session attachments
            → IsListOf self.new.queue mount self.new.items.items self.new.grants.items (session_without id has_lagged session)
            (attached_without id has_lagged session attachments) }
    {
        let rule = lagged_if(has_lagged);
        self.items
            .push_reserved(MountItem::Detach { id, grant, rule });
        self.grants.retain(|grant| grant.id != id);
    }

    /// Notes that a command has set the title.
    fn set_title(&mut self, title: Title)
        requires items { vec_len self.old.items < vec_capacity self.old.items }
        ensures { (mount : _) (session : Option SessionOf) (attachments : List AttachmentOf)
            → IsListOf self.old.queue mount self.old.items.items self.old.grants.items session attachments
            → IsListOf self.new.queue mount self.new.items.items self.new.grants.items (option_map (with_title (Some title)) session) attachments }
    {
        self.items.push_reserved(MountItem::Titled(title));
    }

    /// Notes an own entry of the client.
    fn own(&mut self, id: u64, grant: u64, moment: u64, entry: Entry)
        requires items { vec_len self.old.items < vec_capacity self.old.items }
        requires client { client_in entry.event ≡ Some id }
        requires has { grant_of self.old.grants.items id ≡ Some grant }
        ensures { (mount : _) (session : Option SessionOf) (attachments : List AttachmentOf)
            → IsListOf self.old.queue mount self.old.items.items self.old.grants.items session attachments
            → part_answers (part_of mount session attachments) entry.event ≡ Replied entry.reply
            → IsListOf self.new.queue mount self.new.items.items self.new.grants.items
            (after_own self.old.queue mount moment session attachments entry.event).session
            (after_own self.old.queue mount moment session attachments entry.event).attachments }
    {
        self.items.push_reserved(MountItem::Own {
            grant,
            moment,
            entry,
        });
    }

    /// Returns the grant of the client, if it has one.
    fn grant(&self, id: u64) -> Option<u64>
        ensures { result ≡ grant_of self.now.grants.items id }
    {
        let Some(grant) = self.grants.iter().find(|grant| grant.id == id) else {
            return None;
        };
        Some(grant.place)
    }

    /// Makes room for one more item and one more grant, and returns whether there is.
    fn has_room(&mut self) -> bool
        ensures items { IsTrue result → vec_len self.new.items < vec_capacity self.new.items }
        ensures grants { IsTrue result → vec_len self.new.grants < vec_capacity self.new.grants }
        ensures same { (self.new.items.items ≡ self.old.items.items) × (self.new.grants.items ≡ self.old.grants.items) × (self.new.queue ≡ self.old.queue) }
    {
        self.items.reserve(1).is_ok() && self.grants.reserve(1).is_ok()
    }
}

/// Returns the rule by which a push finishes listeners, if it was a push.
fn lagged_if(has_lagged: bool) -> Option<Rule>
    ensures { is_lagged result ≡ has_lagged }
{
    if has_lagged { Some(Rule::Lagged) } else { None }
}

impl PartList {
    /// Returns a list that keeps nothing. It takes no memory.
    pub(crate) fn unkept() -> PartList
        ensures { result.kept ≡ None }
    {
        PartList { kept: None }
    }

    /// Returns a list in which nothing has happened. It takes no memory.
    pub(crate) fn kept(alloc: Global, queue: u64) -> PartList
        ensures { (mount : _) → IsList result mount None [] }
    {
        PartList {
            kept: Some(KeptItems {
                items: Vec::new(alloc),
                grants: Vec::new(alloc),
                queue,
            }),
        }
    }

    /// Returns the items, if they are kept.
    pub(crate) fn into_items(self) -> Option<KeptItems>
        ensures { result ≡ self.kept }
    {
        let PartList { kept } = self;
        kept
    }

    /// Returns whether items are kept.
    pub(crate) fn is_kept(&self) -> bool
        ensures { result ≡ is_some self.now.kept }
    {
        self.kept.is_some()
    }

    /// Keeps nothing any more.
    pub(crate) fn give_up(&mut self)
        ensures { self.new.kept ≡ None }
    {
        // each draw calls it, and has nothing to give up
        if self.kept.is_some() {
            self.kept = None;
        }
    }

    /// Returns how many items are kept; 0 if none are.
    pub(crate) fn item_count(&self) -> u64 {
        match &self.kept {
            Some(kept) => kept.items.len() as u64,
            None => 0,
        }
    }

    /// Returns how many grants there are.
    pub(crate) fn grant_count(&self) -> usize {
        match &self.kept {
            Some(kept) => kept.grants.len(),
            None => 0,
        }
    }

    /// Returns the number of the first client with a grant that is among these.
    pub(crate) fn first_granted(&self, among: &AttachmentTree) -> Option<u64> {
        let Some(kept) = &self.kept else {
            return None;
        };
        let Some(grant) = kept
            .grants
            .iter()
            .find(|grant| among.get(grant.id).is_some())
        else {
            return None;
        };
        Some(grant.id)
    }

    /// Notes that the client is attached.
    pub(crate) fn attach(&mut self, id: u64, attached: Attaching)
        ensures { (mount : _) (session : Option SessionOf) (attachments : List AttachmentOf) → IsList self.old mount session attachments
            → IsList self.new mount (session_with mount id attached session) (attached_with id attached attachments) }
    {
        let Some(kept) = &mut self.kept else {
            drop(attached);
            return;
        };
        if kept.grant(id).is_some() || !kept.has_room() {
            drop(attached);
            self.kept = None;
            return;
        }
        kept.attach(id, attached);
    }

    /// Notes that the client's grant is over: it lagged, or the control detached it.
    pub(crate) fn detach(&mut self, id: u64, has_lagged: bool)
        ensures { (mount : _) (session : Option SessionOf) (attachments : List AttachmentOf) → IsList self.old mount session attachments
            → IsList self.new mount (session_without id has_lagged session) (attached_without id has_lagged session attachments) }
    {
        let Some(kept) = &mut self.kept else {
            return;
        };
        let Some(grant) = kept.grant(id) else {
            self.kept = None;
            return;
        };
        if !kept.has_room() {
            self.kept = None;
            return;
        }
        kept.detach(id, grant, has_lagged);
    }

    /// Notes that a command has set the title.
    pub(crate) fn set_title(&mut self, title: Title)
        ensures { (mount : _) (session : Option SessionOf) (attachments : List AttachmentOf) → IsList self.old mount session attachments
            → IsList self.new mount (option_map (with_title (Some title)) session) attachments }
    {
        let Some(kept) = &mut self.kept else {
            drop(title);
            return;
        };
        if !kept.has_room() {
            drop(title);
            self.kept = None;
            return;
        }
        kept.set_title(title);
    }

    /// Notes an own entry of the client.
    pub(crate) fn own(&mut self, id: u64, moment: u64, queue: u64, entry: Entry)
        requires { client_in entry.event ≡ Some id }
        ensures { (mount : _) (session : Option SessionOf) (attachments : List AttachmentOf) → IsList self.old mount session attachments
            → part_answers (part_of mount session attachments) entry.event ≡ Replied entry.reply
            → IsList self.new mount (after_own queue mount moment session attachments entry.event).session
            (after_own queue mount moment session attachments entry.event).attachments }
    {
        let Some(kept) = &mut self.kept else {
            drop(entry);
            return;
        };
        let Some(grant) = kept.grant(id) else {
            drop(entry);
            self.kept = None;
            return;
        };
        if kept.queue != queue || !kept.has_room() {
            drop(entry);
            self.kept = None;
            return;
        }
        kept.own(id, grant, moment, entry);
    }
}
