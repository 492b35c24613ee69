//! How a move carries listeners along.

ghost use Rattle.std.specs.Prelude.{◌≡◌, ◌+◌, ◌<◌, ◌^◌, true, IsSome, Some};
ghost use Rattle.radio_seats_rows.specs.SeatTable.{is_prepared};
ghost use Rattle.radio_seats_rows.specs.Seats.{AreByNumber, listener_of, last_mount_of};
ghost use Rattle.radio_fallback.specs.Carry.{turn_of, carry_after_move, carried};
ghost use Rattle.radio_fallback.specs.Heard.{heard, OthersStay, IsAt, Fits, GoesOver, GoesOff};
ghost use Rattle.radio_fallback.specs.Walk.{with_ends};
ghost use Rattle.radio_parts_mount.specs.StatePart.{ends_in};

use crate::moves::MoveEffect;
use crate::walker::Walker;
use crate::{Attachments, Carried, Move, View};
use radio_blocks::Place;
use radio_seats::{LentSeat, Seats};
use radio_values::MountName;

/// Moves the listeners that the move concerns, one after another in the order of their numbers.
/// Each goes by the state that the earlier ones left, in which its own seat does not count against
/// it. A listener that goes to a mount goes on at the end of its stream. It takes no memory. It
/// looks at each listener of the station once.
// rule: Refused memory; End of a session; Turns of a move; Move clients
pub fn carry<V: View, A: Attachments>(
    view: &V,
    attached: &mut A,
    seats: &mut Seats,
    moving: &Move,
) -> Carried
    // live mounts are prepared, and have parts
    requires prepared { (mount : _) → (V.sight view.now).is_live mount ≡ true → is_prepared seats.old.prepared mount ≡ true }
    requires parts { (mount : _) → (V.sight view.now).is_live mount ≡ true → A.has_part attached.old mount ≡ true }
    ensures seats { seats.new ≡ record seats.old { seats = (carried (with_ends (V.sight view.now) (ends_in (A.live attached.old))) moving.now seats.old.seats).seats } }
    ensures counts { result ≡ (carried (with_ends (V.sight view.now) (ends_in (A.live attached.old))) moving.now seats.old.seats).counts }
    // with the places that the attachments have, they are the definition's too
    ensures heard { heard (A.places attached.new) seats.new.seats ≡ (carried (with_ends (V.sight view.now) (ends_in (A.live attached.old))) moving.now (heard (A.places attached.old) seats.old.seats)).seats }
    ensures heard_counts { result ≡ (carried (with_ends (V.sight view.now) (ends_in (A.live attached.old))) moving.now (heard (A.places attached.old) seats.old.seats)).counts }
    // if attached to each mount is who sits there, and nobody else, that holds afterwards
    ensures fits { Fits (A.places attached.old) seats.old.seats → Fits (A.places attached.new) seats.new.seats }
    ensures parts { (mount : _) → A.has_part attached.new mount ≡ A.has_part attached.old mount }
    ensures live { A.live attached.new ≡ A.live attached.old }
{
    // so many fit
    let _ = seats.len();
    let mut counts = Carried { moved: 0, ended: 0 };
    let mut last = None;
    'listeners: while let Some(id) = seats.next(last) {
        counts = take_turn(view, attached, seats, moving, id, counts);
        last = Some(id);
    }
    counts
}

/// One listener has its turn, and is counted.
fn take_turn<V: View, A: Attachments>(
    view: &V,
    attached: &mut A,
    seats: &mut Seats,
    moving: &Move,
    id: u64,
    counts: Carried,
) -> Carried
    requires prepared { (mount : _) → (V.sight view.now).is_live mount ≡ true → is_prepared seats.old.prepared mount ≡ true }
    requires parts { (mount : _) → (V.sight view.now).is_live mount ≡ true → A.has_part attached.old mount ≡ true }
    requires room { counts.moved + counts.ended + 1 < 2 ^ 64 }
    requires rising { AreByNumber seats.old.seats }
    ensures seats { seats.new ≡ record seats.old { seats = (carry_after_move (with_ends (V.sight view.now) (ends_in (A.live attached.old))) id (record { seats = seats.old.seats; counts = counts }) (turn_of (with_ends (V.sight view.now) (ends_in (A.live attached.old))) moving.now seats.old.seats id)).seats } }
    ensures counts { result ≡ (carry_after_move (with_ends (V.sight view.now) (ends_in (A.live attached.old))) id (record { seats = seats.old.seats; counts = counts }) (turn_of (with_ends (V.sight view.now) (ends_in (A.live attached.old))) moving.now seats.old.seats id)).counts }
    ensures heard { heard (A.places attached.new) seats.new.seats ≡ (carry_after_move (with_ends (V.sight view.now) (ends_in (A.live attached.old))) id (record { seats = heard (A.places attached.old) seats.old.seats; counts = counts }) (turn_of (with_ends (V.sight view.now) (ends_in (A.live attached.old))) moving.now (heard (A.places attached.old) seats.old.seats) id)).seats }
    ensures fits { Fits (A.places attached.old) seats.old.seats → Fits (A.places attached.new) seats.new.seats }
    ensures parts { (mount : _) → A.has_part attached.new mount ≡ A.has_part attached.old mount }
    ensures live { A.live attached.new ≡ A.live attached.old }
{
    match turn_of(view, seats, moving, id) {
        MoveEffect::Stays => counts,
        MoveEffect::GoesTo(mount) => {
            let session = view.session_number(&mount);
            let place = attach_elsewhere(attached, seats, id, &mount);
            seats.shift(id, &mount, session, place);
            Carried {
                moved: counts.moved + 1,
                ended: counts.ended,
            }
        }
        MoveEffect::IsOut(rule) => {
            detach(attached, seats, id);
            seats.end(id, rule);
            Carried {
                moved: counts.moved,
                ended: counts.ended + 1,
            }
        }
    }
}

/// Returns what its turn makes of the listener in this state.
// rule: Turns of a move
fn turn_of<V: View>(view: &V, seats: &Seats, moving: &Move, id: u64) -> MoveEffect
    ensures { result ≡ turn_of (V.sight view.now) moving.now seats.now.seats id }
{
    let Some(seat) = seats.seat(id) else {
        return MoveEffect::Stays;
    };
    let LentSeat { mount, guest, .. } = seat;
    if !moving.concerns(mount, guest.home.get()) {
        return MoveEffect::Stays;
    }
    let pair = guest.pair.as_ref();
    let walker = Walker {
        view,
        seats,
        own: Some(id),
    };
    moving.turn(&walker, pair)
}

/// Moves the listener's attachment from where it sits to the end of this mount's stream, and returns
/// that place. Nothing changes if there is no such listener, and the place is 0 then.
fn attach_elsewhere<A: Attachments>(
    attached: &mut A,
    seats: &Seats,
    id: u64,
    to: &MountName,
) -> Place
    ensures end { IsSome (listener_of seats.now.seats id) → result ≡ ends_in (A.live attached.old) to.now }
    ensures others { OthersStay (A.places attached.old) (A.places attached.new) id }
    ensures there { IsSome (listener_of seats.now.seats id) → IsAt (A.places attached.new to.now id) (ends_in (A.live attached.old) to.now) }
    ensures over { (from : _) → last_mount_of seats.now.seats id ≡ Some from → A.has_part attached.old to.now ≡ true
        → GoesOver (A.places attached.old) (A.places attached.new) id from to.now }
    ensures parts { (mount : _) → A.has_part attached.new mount ≡ A.has_part attached.old mount }
    ensures live { A.live attached.new ≡ A.live attached.old }
{
    match seats.last_mount(id) {
        Some(from) => attached.shift(id, from, to),
        None => Place::new(0),
    }
}

/// Detaches the listener from where it sits, or sat last.
fn detach<A: Attachments>(attached: &mut A, seats: &Seats, id: u64)
    ensures others { OthersStay (A.places attached.old) (A.places attached.new) id }
    ensures off { (from : _) → last_mount_of seats.now.seats id ≡ Some from → GoesOff (A.places attached.old) (A.places attached.new) id from }
    ensures parts { (mount : _) → A.has_part attached.new mount ≡ A.has_part attached.old mount }
    ensures live { A.live attached.new ≡ A.live attached.old }
{
    if let Some(from) = seats.last_mount(id) {
        attached.detach(id, from);
    }
}
