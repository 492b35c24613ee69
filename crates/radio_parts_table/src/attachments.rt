//! Who is attached to each mount.

ghost use Rattle.std.specs.Prelude.{◌≡◌, ◌||◌, find, filter, true, false, None, Some, if◌then◌else◌, ℕ, OnOk, OnErr};
ghost use Rattle.std.specs.Option.{option_copied, option_map};
ghost use Rattle.radio_parts_mount.specs.Sessions.{session_of};
ghost use Rattle.std.specs.Str.{bytes_eq};
ghost use Rattle.radio_tables.specs.Lists.{update_first, Each};
ghost use Rattle.radio_attachments.specs.Rows.{at_place, lags, AreInOrder};
ghost use Rattle.radio_seats_rows.specs.Seats.{sits_at};
ghost use Rattle.radio_fallback.specs.Heard.{OthersStay, IsAt, GoesOver};
ghost use Rattle.radio_parts_table.specs.Attached.{is_of_mount, found_in, attachments_in, places_in, with_attached};
ghost use Rattle.radio_parts_mount.specs.Attached.{without_id, with_boxed, without_lagging};
ghost use Rattle.radio_parts_table.specs.Parts.{has_part};

use crate::OutOfMemory;
use crate::attached::{Advances, DetachesOthers, Puts, Takes, TakesLagging};
use crate::parts::MountParts;
use radio_attachments::{AttachmentTree, BoxedAttachment};
use radio_blocks::Place;
use radio_fallback::Attachments;
use radio_parts_mount::Session;
use radio_seats::Seats;
use radio_values::MountName;

impl MountParts {
    /// Returns the place up to which the listener has heard the mount's stream, if it is attached
    /// there.
    pub fn place(&self, mount: &MountName, id: u64) -> Option<u64>
        ensures { result ≡ places_in self.now.attached mount.now id }
    {
        let Some(part) = self.parts.get(mount) else {
            return None;
        };
        part.place(id)
    }

    /// Returns the place up to which the listener has heard the mount's stream, if it is attached
    /// there, and the mount's session, if it is live. The mount is looked up once.
    pub fn place_and_session(&self, mount: &MountName, id: u64) -> (Option<u64>, Option<&Session>)
        ensures place { result.0 ≡ places_in self.now.attached mount.now id }
        ensures session { option_copied result.1 ≡ session_of self.now.live mount.now }
    {
        // the parts are in the order of their mounts
        let _ = self.parts.len();
        let Some(part) = self.parts.get(mount) else {
            return (None, None);
        };
        (part.place(id), part.session())
    }

    /// Makes it possible to attach listeners to the mount. `OutOfMemory` if memory was refused;
    /// nothing has changed then.
    pub fn prepare(&mut self, mount: &MountName) -> Result<(), OutOfMemory>
        ensures parts { OnOk result ((other : _) → has_part self.new.attached other ≡ (has_part self.old.attached other || bytes_eq mount.now other)) }
        ensures places { (other : _) (id : ℕ) → places_in self.new.attached other id ≡ places_in self.old.attached other id }
        ensures err { OnErr result (self.new ≡ self.old) }
        ensures live { self.new.live ≡ self.old.live }
    {
        if self.has_part(mount) {
            return Ok(());
        }
        let part = self.new_part(*mount);
        self.parts.insert(part)?;
        Ok(())
    }

    /// Returns whether a listener can be attached to the mount.
    fn has_part(&self, mount: &MountName) -> bool
        ensures { result ≡ has_part self.now.attached mount.now }
    {
        self.parts.get(mount).is_some()
    }

    /// Removes the mount's part if the mount is not live, nobody is attached there, and no list is kept of it. It takes no
    /// memory.
    pub fn release(&mut self, mount: &MountName)
        ensures places { (other : _) (id : ℕ) → places_in self.new.attached other id ≡ places_in self.old.attached other id }
        ensures parts { (other : _) → bytes_eq mount.now other ≡ false → has_part self.new.attached other ≡ has_part self.old.attached other }
        ensures live { self.new.live ≡ self.old.live }
    {
        // the parts are in the order of their mounts
        let _ = self.parts.len();
        let Some(part) = self.parts.get(mount) else {
            return;
        };
        if part.is_listed() {
            return;
        }
        if part.part().session.is_none() && part.part().attachments.is_empty() {
            drop(self.parts.remove(mount));
        }
    }

    /// Attaches the listener to the mount. It takes no memory.
    pub fn attach(&mut self, mount: &MountName, boxed: BoxedAttachment)
        ensures others { OthersStay (places_in self.old.attached) (places_in self.new.attached) boxed.id }
        ensures there { has_part self.old.attached mount.now ≡ true → places_in self.new.attached mount.now boxed.id ≡ Some boxed.place }
        ensures elsewhere { (other : _) → bytes_eq mount.now other ≡ false → places_in self.new.attached other boxed.id ≡ places_in self.old.attached other boxed.id }
        ensures parts { (other : _) → has_part self.new.attached other ≡ has_part self.old.attached other }
        ensures live { self.new.live ≡ self.old.live }
    {
        self.put(mount, Some(boxed));
    }

    /// Sets the place up to which the listener has heard the mount's stream. Nothing changes if it is
    /// not attached there. It takes no memory.
    pub fn advance(&mut self, id: u64, mount: &MountName, place: Place)
        ensures others { OthersStay (places_in self.old.attached) (places_in self.new.attached) id }
        ensures there { IsAt (places_in self.new.attached mount.now id) place }
        ensures over { GoesOver (places_in self.old.attached) (places_in self.new.attached) id mount.now mount.now }
        ensures parts { (other : _) → has_part self.new.attached other ≡ has_part self.old.attached other }
        ensures live { self.new.live ≡ self.old.live }
    {
        let place = place.bytes_before();
        self.parts.change(mount, &Advances { id, place });
    }

    /// Detaches from the mount whoever does not sit there. It takes no memory. The time grows as the
    /// number of listeners that are attached there.
    pub fn detach_others(&mut self, mount: &MountName, seats: &Seats)
        ensures there { (id : ℕ) → places_in self.new.attached mount.now id ≡ (if sits_at seats.now.seats id mount.now then places_in self.old.attached mount.now id else None) }
        ensures elsewhere { (other : _) (id : ℕ) → bytes_eq mount.now other ≡ false → places_in self.new.attached other id ≡ places_in self.old.attached other id }
        ensures parts { (other : _) → has_part self.new.attached other ≡ has_part self.old.attached other }
        ensures live { self.new.live ≡ self.old.live }
    {
        self.parts.change(mount, &DetachesOthers { seats, mount });
    }

    /// Takes out the mount's attachments whose places are further behind this end than a queue is
    /// long, both in bytes. It takes no memory. It looks at none of them while the least place that is
    /// known there is within the queue.
    pub fn take_lagging(&mut self, mount: &MountName, end: u64, queue: u64) -> AttachmentTree
        ensures rest { self.new ≡ with_attached (update_first (is_of_mount mount.now) (without_lagging end queue) self.old.attached) self.old }
        ensures lagging { result ≡ filter (lags end queue) (attachments_in (find (is_of_mount mount.now) self.old.attached)) }
        // each number is there once
        ensures once { AreInOrder (attachments_in (find (is_of_mount mount.now) self.old.attached)) }
    {
        if !self.may_lag(mount, end, queue) {
            return AttachmentTree::new();
        }
        let mut takes = TakesLagging {
            end,
            queue,
            lagging: AttachmentTree::new(),
        };
        self.parts.swap(mount, &mut takes);
        let TakesLagging { lagging, .. } = takes;
        lagging
    }

    /// Returns whether a listener that is attached to the mount may lag behind this end.
    fn may_lag(&self, mount: &MountName, end: u64, queue: u64) -> bool
        ensures none { result ≡ false → Each (λ row. lags end queue row ≡ false) (attachments_in (find (is_of_mount mount.now) self.now.attached)) }
        ensures once { AreInOrder (attachments_in (find (is_of_mount mount.now) self.now.attached)) }
    {
        match self.parts.get(mount) {
            Some(part) => part.may_lag(end, queue),
            None => false,
        }
    }

    /// Moves the listener's attachment from one mount to this place of the other's stream. It takes
    /// no memory.
    fn reattach(&mut self, id: u64, from: &MountName, to: &MountName, place: Place)
        ensures others { OthersStay (places_in self.old.attached) (places_in self.new.attached) id }
        ensures there { IsAt (places_in self.new.attached to.now id) place }
        ensures over { has_part self.old.attached to.now ≡ true → GoesOver (places_in self.old.attached) (places_in self.new.attached) id from.now to.now }
        ensures parts { (mount : _) → has_part self.new.attached mount ≡ has_part self.old.attached mount }
        ensures live { self.new.live ≡ self.old.live }
    {
        let boxed = self.take(from, id);
        // one of its own that was there
        drop(self.take(to, id));
        self.put(to, at_place(boxed, place.bytes_before()));
    }

    /// Takes the listener's attachment out of the mount's, with its memory.
    fn take(&mut self, mount: &MountName, id: u64) -> Option<BoxedAttachment>
        ensures rest { self.new ≡ with_attached (update_first (is_of_mount mount.now) (without_id id) self.old.attached) self.old }
        ensures found { result ≡ found_in id (find (is_of_mount mount.now) self.old.attached) }
    {
        let mut takes = Takes { id, boxed: None };
        self.parts.swap(mount, &mut takes);
        let Takes { id: _, boxed } = takes;
        boxed
    }

    /// Puts the attachment among the mount's.
    fn put(&mut self, mount: &MountName, boxed: Option<BoxedAttachment>)
        ensures { self.new ≡ with_attached (update_first (is_of_mount mount.now) (with_boxed boxed) self.old.attached) self.old }
    {
        let mut puts = Puts { boxed };
        self.parts.swap(mount, &mut puts);
    }
}

/// Returns the attachment at this place.
fn at_place(boxed: Option<BoxedAttachment>, place: u64) -> Option<BoxedAttachment>
    ensures { result ≡ option_map (at_place place) boxed }
{
    let Some(mut boxed) = boxed else {
        return None;
    };
    boxed.set_place(place);
    Some(boxed)
}

impl Attachments for MountParts {
    ghost use Rattle.radio_parts_table.specs.Attached.{places_in};
    ghost use Rattle.radio_parts_table.specs.Parts.{has_part};

    ghost places = { λ parts. places_in parts.attached };

    ghost has_part = { λ parts. has_part parts.attached };

    ghost live = { λ parts. parts.live };

    // rule: Moved to the end
    fn shift(&mut self, id: u64, from: &MountName, to: &MountName) -> Place {
        let end = self.stream_end(to);
        self.reattach(id, from, to, end);
        end
    }

    fn detach(&mut self, id: u64, from: &MountName) {
        drop(self.take(from, id));
    }
}
