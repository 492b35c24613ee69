//! What the listeners are asked.

ghost use Rattle.std.specs.Prelude.{◌≡◌, length, map, None, Some, unwrap_or, IfOk, MatchOption};
ghost use Rattle.std.specs.Option.{option_copied, option_map};
ghost use Rattle.radio_seats_rows.specs.Guests.{first_moment, seat_of_guest};
ghost use Rattle.radio_seats_rows.specs.Seats.{listener_of, seat_of, last_mount_of, count_at, AreByNumber};
ghost use Rattle.radio_seats.specs.Lent.{lent_seat, standing_in};
ghost use Rattle.radio_seats.specs.Listed.{lent_guest, guests_at};
ghost use Rattle.radio_fallback.specs.Walk.{found_at, landing};
ghost use Rattle.radio_parts_mount.specs.Sessions.{session_of};

use crate::{Listeners, OutOfMemory};
use radio_blocks::Place;
use radio_creds::Pair;
use radio_fallback::{View, Walk, walk_from};
use radio_parts_mount::Session;
use radio_seats::{LentListener, LentSeat, ListenerStanding};
use radio_seats_rows::GuestMoment;
use radio_values::MountName;
use std::alloc::Global;

/// A listener's seat, and what it hears.
#[derive(Clone, Copy)]
pub struct Hearing<'a> {
    /// The seat.
    pub seat: LentSeat<'a>,
    /// The session of its mount, if that is live.
    pub session: Option<&'a Session>,
}

impl Listeners {
    /// Returns how many listeners there are, with those who have finished.
    pub fn len(&self) -> usize
        ensures { result ≡ length self.now.seats }
    {
        self.seats.len()
    }

    /// Returns the listener's seat, if it has one.
    pub fn seat(&self, id: u64) -> Option<LentSeat<'_>>
        ensures { option_map lent_seat result ≡ seat_of self.now.seats id }
    {
        let Some(seat) = self.seats.seat(id) else {
            return None;
        };
        let heard = self.parts.place(seat.mount, id);
        Some(seat_at(seat, heard))
    }

    /// Returns the listener's seat, if it has one, and the session of its mount, if that is live. The
    /// mount is looked up once.
    pub fn hearing(&self, id: u64) -> Option<Hearing<'_>>
        ensures { MatchOption result (seat_of self.now.seats id ≡ None)
            (λ hearing. (seat_of self.now.seats id ≡ Some (lent_seat hearing.seat)) × (option_copied hearing.session ≡ session_of self.now.live hearing.seat.mount.now)) }
    {
        let Some(seat) = self.seats.seat(id) else {
            return None;
        };
        let (heard, session) = self.parts.place_and_session(seat.mount, id);
        Some(Hearing {
            seat: seat_at(seat, heard),
            session,
        })
    }

    /// Returns the standing of the listener of this number, if there is one.
    pub fn standing(&self, id: u64) -> Option<ListenerStanding>
        ensures { result ≡ standing_in (listener_of self.now.seats id) }
    {
        self.seats.standing(id)
    }

    /// Returns the mount where the listener sits, or sat last if it has finished; `None` if there is
    /// no such listener.
    pub fn last_mount(&self, id: u64) -> Option<&MountName>
        ensures { option_copied result ≡ last_mount_of self.now.seats id }
    {
        self.seats.last_mount(id)
    }

    /// Returns how many sit at the mount.
    pub fn count(&self, mount: &MountName) -> u64
        ensures count { result ≡ count_at self.now.seats mount.now }
        // the listeners are in the order of their numbers, so that each is counted once
        ensures rising { AreByNumber self.now.seats }
    {
        self.seats.count(mount)
    }

    /// Returns the first of these moments of those who have seats; the last one if nobody has. The
    /// time grows as the number of listeners.
    pub fn first_moment<M: GuestMoment>(&self, moment: &M, last: u64) -> u64
        ensures { result ≡ first_moment (M.gives moment.now) last self.now.seats }
    {
        self.seats.first_moment(moment, last)
    }

    /// Returns who sits at the mount, in the order of their numbers. The time grows as the number of
    /// listeners. `OutOfMemory` if memory was refused.
    pub fn guests_at(
        &self,
        alloc: Global,
        mount: &MountName,
    ) -> Result<Vec<LentListener<'_>>, OutOfMemory>
        ensures { IfOk result (λ found. map lent_guest found.items ≡ guests_at self.now.seats mount.now) }
    {
        self.seats.guests_at(alloc, mount)
    }

    /// Walks from the mount, for one who sends this pair, or none, and does not sit yet, as
    /// [`walk_from`] does.
    pub fn walk_from<V: View>(&self, view: &V, mount: &MountName, pair: Option<&Pair>) -> Walk
        ensures first { result.first ≡ found_at (V.sight view.now) self.now.seats mount.now (option_copied pair.entry) }
        ensures landing { result.landing ≡ landing (V.sight view.now) self.now.seats (option_copied pair.entry) mount.now }
    {
        walk_from(view, &self.seats, mount, pair)
    }
}

/// Returns the seat at the place of its attachment, if there is one.
fn seat_at(seat: LentSeat<'_>, attached: Option<u64>) -> LentSeat<'_>
    ensures { lent_seat result ≡ seat_of_guest (unwrap_or attached seat.entry.place) seat.entry.mount.now seat.entry.session seat.entry.guest.now }
{
    LentSeat {
        place: place_of(attached, seat.place),
        ..seat
    }
}

/// Returns the place of the attachment, if there is one; else the other place.
fn place_of(attached: Option<u64>, other: Place) -> Place
    ensures { result ≡ unwrap_or attached other }
{
    match attached {
        Some(place) => Place::new(place),
        None => other,
    }
}
