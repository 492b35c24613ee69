//! The table of listeners, and the attachments of each mount.

ghost use Rattle.std.specs.Prelude.{◌≡◌, ◌||◌, ◌&&◌, ◌==◌, ◌<◌, if◌then◌else◌, [], true, not, map, None, Some, OnOk, OnErr, MatchOption};
ghost use Rattle.std.specs.Str.{bytes_eq};
ghost use Rattle.radio_seats_rows.specs.SeatTable.{is_prepared};
ghost use Rattle.radio_seats_rows.specs.Guests.{passes_in, passes_at};
ghost use Rattle.radio_seats_rows.specs.Rests.{how_many};
ghost use Rattle.radio_seats_rows.specs.Seats.{named_at, sits_at, with_seat, with_place, with_end, with_ended, with_session_at, without_listener, AreByNumber};
ghost use Rattle.radio_policy.specs.declared.rule.Rule.{Rule as RuleOf};
ghost use Rattle.radio_parts_mount.specs.Timeouts.{lags_behind};
ghost use Rattle.radio_fallback.specs.Carry.{carried};
ghost use Rattle.radio_fallback.specs.Walk.{with_ends};
ghost use Rattle.radio_parts_mount.specs.StatePart.{ends_in};
ghost use Rattle.radio_parts_table.specs.Losses.{ended_if_lost};
ghost use Rattle.radio_fallback.specs.Heard.{OthersStay, GoesOff};
ghost use Rattle.radio_parts_table.specs.Attached.{places_in};
ghost use Rattle.radio_parts_mount.specs.Attached.{is_among};
ghost use Rattle.radio_parts_table.specs.Parts.{has_part};

use crate::{MountParts, OutOfMemory};
use radio_attachments::{Attachment, AttachmentTree, BoxedAttachment};
use radio_blocks::Place;
use radio_fallback::{Attachments, Carried, Move, View, carry};
use radio_policy::Rule;
use radio_seats::Seats;
use radio_seats_rows::{Seat, SeatTest};
use radio_values::MountName;
use std::alloc::Global;
use std::marker::Model;

/// The listeners, and the parts of the mounts: the table says who sits where, the parts' attachments
/// say how far each listener has heard, and their sessions what there is to hear. Contracts see a
/// table with these places, and the sessions.
pub struct Listeners {
    pub(crate) seats: Seats,
    pub(crate) parts: MountParts,
    /// All parts have been here since they were made: attached to each mount is who sits there.
    pub(crate) is_whole: bool,
}

impl Drop for Listeners {
    fn drop(self) {
        let Listeners {
            seats,
            parts,
            is_whole: _,
        } = self;
        drop(seats);
        drop(parts);
    }
}

impl Model for Listeners {
    ghost use Rattle.radio_parts_table.specs.Listening.{Listening, listening, AreAttached};

    ghost Value = { Listening };

    ghost view = { λ l. listening l.parts l.seats };

    ghost invariant = { λ l. AreAttached l.is_whole l.parts.attached l.seats };
}

impl Listeners {
    /// Returns no listeners, and no mounts. It takes no memory.
    pub fn new(alloc: Global) -> Listeners
        ensures { result ≡ record { prepared = []; seats = []; live = [] } }
    {
        Listeners {
            seats: Seats::new(alloc),
            parts: MountParts::new(alloc),
            is_whole: true,
        }
    }

    /// Each part that is made from now on keeps a list of what happens to it. Of a stream at least so many bytes will be kept.
    pub fn keep_lists(&mut self, alloc: Global, queue: u64)
        ensures { self.new ≡ self.old }
    {
        self.parts.keep_lists(alloc, queue);
    }

    /// Prepares the mount: listeners can be seated there from now on. Nothing changes if it was
    /// prepared before. `OutOfMemory` if memory was refused; nothing has changed then.
    pub fn prepare(&mut self, mount: &MountName) -> Result<(), OutOfMemory>
        ensures prepared { OnOk result ((other : _) → is_prepared self.new.prepared other ≡ (is_prepared self.old.prepared other || bytes_eq mount.now other)) }
        ensures seats { self.new.seats ≡ self.old.seats }
        ensures live { self.new.live ≡ self.old.live }
        ensures err { OnErr result (self.new ≡ self.old) }
    {
        self.parts.prepare(mount)?;
        self.seats.prepare(mount)
    }

    /// Releases the mount if no listener sits there or sat there last: it is prepared no more. It
    /// takes no memory.
    pub fn release(&mut self, mount: &MountName)
        ensures prepared { (other : _) → is_prepared self.new.prepared other
            ≡ (is_prepared self.old.prepared other && not (bytes_eq mount.now other && (named_at self.old.seats mount.now == 0))) }
        ensures seats { self.new.seats ≡ self.old.seats }
        ensures live { self.new.live ≡ self.old.live }
    {
        self.seats.release(mount);
        if !self.seats.is_prepared(mount) {
            self.parts.release(mount);
        }
    }

    /// Gives the client this seat, which is all that is left of one it had before. `OutOfMemory` if
    /// memory was refused; nothing has changed then.
    pub fn add(&mut self, alloc: Global, id: u64, seat: Seat) -> Result<(), OutOfMemory>
        requires { is_prepared self.old.prepared seat.mount ≡ true }
        ensures ok { OnOk result (self.new ≡ record self.old { seats = with_seat self.old.seats id seat }) }
        ensures err { OnErr result (self.new ≡ self.old) }
    {
        let mount = seat.mount;
        let place = seat.place.bytes_before();
        let boxed = BoxedAttachment::new(alloc, Attachment { id, place })?;
        // the listeners are in the order of their numbers
        let _ = self.seats.len();
        let last = self.seats.last_mount(id).copied();
        self.seats.add(id, seat)?;
        detach_from(&mut self.parts, id, last);
        self.parts.attach(&mount, boxed);
        Ok(())
    }

    /// Gives all who sit at the mount this session, each at the place where it is. It takes no
    /// memory.
    pub fn give_session(&mut self, mount: &MountName, session: u64)
        ensures { self.new ≡ record self.old { seats = with_session_at self.old.seats mount.now session } }
    {
        self.seats.give_session(mount, session);
    }

    /// Sets the place up to which the listener has heard the stream. Nothing changes if it has no
    /// seat. It takes no memory.
    pub fn advance(&mut self, id: u64, place: Place)
        ensures { self.new ≡ record self.old { seats = with_place self.old.seats id place } }
    {
        // the listeners are in the order of their numbers
        let _ = self.seats.len();
        let Some(seat) = self.seats.seat(id) else {
            return;
        };
        self.parts.advance(id, seat.mount, place);
        note_place(&mut self.seats, self.is_whole, id, place);
    }

    /// Sets the place up to which the listener, which sits at this mount, has heard the stream. It
    /// takes no memory.
    pub fn advance_at(&mut self, mount: &MountName, id: u64, place: Place)
        requires { sits_at self.old.seats id mount.now ≡ true }
        ensures { self.new ≡ record self.old { seats = with_place self.old.seats id place } }
    {
        // the listeners are in the order of their numbers
        let _ = self.seats.len();
        self.parts.advance(id, mount, place);
        note_place(&mut self.seats, self.is_whole, id, place);
    }

    /// Ends the listener's seat by the rule. Nothing changes if it has none. It takes no memory.
    pub fn end(&mut self, id: u64, rule: Rule)
        ensures { self.new ≡ record self.old { seats = with_end self.old.seats id rule } }
    {
        // the listeners are in the order of their numbers
        let _ = self.seats.len();
        let Some(seat) = self.seats.seat(id) else {
            return;
        };
        self.parts.detach(id, seat.mount);
        self.seats.end(id, rule);
    }

    /// Removes the listener. It takes no memory.
    pub fn remove(&mut self, id: u64)
        ensures { self.new ≡ record self.old { seats = without_listener self.old.seats id } }
    {
        let last = self.seats.last_mount(id).copied();
        detach_from(&mut self.parts, id, last);
        self.seats.remove(id);
    }

    /// Ends by the rule the seats at the mount that pass the test, and returns how many they are. It
    /// takes no memory.
    pub fn finish_at_if<T: SeatTest>(&mut self, mount: &MountName, test: &T, rule: Rule) -> u64
        ensures seats { self.new ≡ record self.old { seats = with_ended self.old.seats (passes_at mount.now (T.passes test.now)) rule } }
        ensures count { result ≡ how_many (passes_at mount.now (T.passes test.now)) self.old.seats }
    {
        let count = self.seats.finish_at_if(mount, test, rule);
        // the listeners are in the order of their numbers
        let _ = self.seats.len();
        self.parts.detach_others(mount, &self.seats);
        count
    }

    /// Ends by the rule the seats that pass the test. It takes no memory. The listeners are looked at
    /// once if nobody passes.
    pub fn finish_if<T: SeatTest>(&mut self, test: &T, rule: Rule)
        ensures { self.new ≡ record self.old { seats = with_ended self.old.seats (passes_in (T.passes test.now)) rule } }
    {
        'mounts: while let Some(mount) = self.first_mount_where(test) {
            let _ = self.finish_at_if(&mount, test, rule);
        }
    }

    /// Returns the mount of the first listener whose seat passes the test.
    fn first_mount_where<T: SeatTest>(&self, test: &T) -> Option<MountName>
        ensures { MatchOption result (how_many (passes_in (T.passes test.now)) self.now.seats ≡ 0)
            (λ mount. 0 < how_many (passes_at mount (T.passes test.now)) self.now.seats) }
    {
        self.seats.first_mount_where(test)
    }

    /// Ends by the rule the seats at the mount whose places are further behind this end of its stream
    /// than a queue is long, both in bytes. It takes no memory.
    pub fn end_lagging(&mut self, mount: &MountName, end: u64, queue: u64)
        ensures { self.new ≡ record self.old { seats = with_ended self.old.seats (lags_behind mount.now end queue) RuleOf.Lagged } }
    {
        if !self.is_whole {
            self.end_lagging_sitters(mount, end, queue);
            return;
        }
        let lagging = self.parts.take_lagging(mount, end, queue);
        end_each(&mut self.seats, lagging);
    }

    /// Carries listeners along with a move, to the ends of their mounts' streams, and returns how many.
    /// It takes no memory.
    pub fn carry_along<V: View>(&mut self, view: &V, moving: &Move) -> Carried
        requires { (mount : _) → (V.sight view.now).is_live mount ≡ true → is_prepared self.old.prepared mount ≡ true }
        ensures seats { self.new ≡ record self.old { seats = (carried (with_ends (V.sight view.now) (ends_in self.old.live)) moving.now self.old.seats).seats } }
        ensures counts { result ≡ (carried (with_ends (V.sight view.now) (ends_in self.old.live)) moving.now self.old.seats).counts }
    {
        carry(view, &mut self.parts, &mut self.seats, moving)
    }
}

/// Notes the place with the listener's seat, unless all parts are here: then its attachment has it. It
/// takes no memory.
fn note_place(seats: &mut Seats, is_whole: bool, id: u64, place: Place)
    ensures { seats.new ≡ record seats.old { seats = (if is_whole then seats.old.seats else with_place seats.old.seats id place) } }
{
    if !is_whole {
        seats.advance(id, place);
    }
}

/// Ends the seat of each listener that is attached here, because it lags. It takes no memory.
pub(crate) fn end_each(seats: &mut Seats, lagging: AttachmentTree)
    ensures seats { seats.new ≡ record seats.old { seats = map (ended_if_lost (is_among lagging) RuleOf.Lagged) seats.old.seats } }
    ensures rising { AreByNumber seats.old.seats }
{
    let mut lagging = lagging;
    // the listeners are in the order of their numbers
    let _ = seats.len();
    'lagging: while let Some(boxed) = lagging.take_first() {
        end_one(seats, boxed.row().id);
        drop(boxed);
    }
}

/// Ends the listener's seat, because it lags. It takes no memory.
fn end_one(seats: &mut Seats, id: u64)
    ensures { seats.new ≡ record seats.old { seats = map (ended_if_lost (λ n. n == id) RuleOf.Lagged) seats.old.seats } }
{
    // the listeners are in the order of their numbers
    let _ = seats.len();
    seats.end(id, Rule::Lagged);
}

/// Detaches the listener from the mount, if one is given. It takes no memory.
fn detach_from(parts: &mut MountParts, id: u64, mount: Option<MountName>)
    ensures others { OthersStay (places_in parts.old.attached) (places_in parts.new.attached) id }
    ensures off { (from : _) → mount ≡ Some from → GoesOff (places_in parts.old.attached) (places_in parts.new.attached) id from }
    ensures none { mount ≡ None → parts.new ≡ parts.old }
    ensures live { parts.new.live ≡ parts.old.live }
    ensures parts { (other : _) → has_part parts.new.attached other ≡ has_part parts.old.attached other }
{
    if let Some(mount) = mount {
        parts.detach(id, &mount);
    }
}
