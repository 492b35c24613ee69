//! The listeners' seats.

ghost use Rattle.std.specs.Prelude.{◌≡◌, IfOk};

use radio_addr::Peer;
use radio_blocks::Place;
use radio_creds::basic;
use radio_policy::Rule;
use radio_seats::{KeptName, ListenerStanding, OutOfMemory, Seat, Seats};
use radio_settings::MountName;
use std::alloc::{AllocGlobal, Global};

/// What the user `ann` sends.
const ANN: &[u8] = b"Basic YW5uOmFiYw==";

/// What the user `anna` sends, whose name begins with the other's.
const ANNA: &[u8] = b"Basic YW5uYTphYmM=";

/// A seat at the mount, of a listener that asked for it and sent this, at the place 4 of session 1.
fn seat_at(alloc: Global, mount: &MountName, sent: &[u8]) -> Result<Seat, OutOfMemory>
    ensures { IfOk result (λ seat. seat.mount ≡ mount.now) }
{
    Ok(Seat {
        place: Place::new(4),
        mount: *mount,
        session: 1,
        home: KeptName::new(alloc, *mount)?,
        peer: Peer::of_v4(0x0a00_0001),
        pair: basic(alloc, sent)?,
        interval: None,
        since: 0,
    })
}

/// The client of this number sits at the mount from now on, as the user `ann`. Nothing changes if memory is refused.
pub fn come(
    alloc: Global,
    seats: &mut Seats,
    mount: &MountName,
    id: u64,
) -> Result<(), OutOfMemory> {
    come_as(alloc, seats, mount, id, ANN)
}

/// The client of this number, which sent this, sits at the mount from now on. Nothing changes if memory is refused.
fn come_as(
    alloc: Global,
    seats: &mut Seats,
    mount: &MountName,
    id: u64,
    sent: &[u8],
) -> Result<(), OutOfMemory> {
    let seat = seat_at(alloc, mount, sent)?;
    match seats.prepare(mount) {
        Ok(()) => seats.add(id, seat),
        Err(refused) => {
            drop(seat);
            Err(refused)
        }
    }
}

/// Whether the client sits at the mount, in this session, at this place of the stream.
pub fn sits_at(seats: &Seats, id: u64, mount: &MountName, session: u64, place: u64) -> bool {
    match seats.seat(id) {
        Some(seat) => {
            *seat.mount == *mount && seat.session == session && seat.place == Place::new(place)
        }
        None => false,
    }
}

/// Whether the client has lost its seat by the rule.
pub fn has_lost(seats: &Seats, id: u64, rule: Rule) -> bool {
    match seats.standing(id) {
        Some(ListenerStanding::HasLost(by)) => by == rule,
        Some(ListenerStanding::HasSeat) | None => false,
    }
}

/// A listener that has come sits there, and is counted.
fn are_there(seats: &Seats, one: &MountName, other: &MountName) -> bool {
    let is_counted = seats.count(one) == 2 && seats.count(other) == 1;
    let has_user = seats.user_at(one, b"ann") && !seats.user_at(one, b"bob");
    is_counted && has_user && sits_at(seats, 3, one, 1, 4) && sits_at(seats, 4, other, 1, 4)
}

/// A listener that loses its seat is not counted, and is forgotten in the end.
fn loses_seat(seats: &mut Seats, one: &MountName) -> bool {
    seats.end(3, Rule::Killed);
    let has_lost = has_lost(seats, 3, Rule::Killed) && seats.count(one) == 0;
    seats.remove(3);
    has_lost && seats.standing(3).is_none()
}

/// Three listeners come; one of them moves, and another loses its seat. Returns whether each is where it should be.
fn are_seated(alloc: Global, one: &MountName, other: &MountName) -> Result<bool, OutOfMemory> {
    let mut seats = Seats::new(alloc);
    come(alloc, &mut seats, one, 3)?;
    come(alloc, &mut seats, one, 5)?;
    come(alloc, &mut seats, other, 4)?;
    let are_there = are_there(&seats, one, other);
    seats.prepare(other)?;
    seats.shift(5, other, 2, Place::new(7));
    let has_moved = sits_at(&seats, 5, other, 2, 7) && seats.count(other) == 2;
    Ok(are_there && has_moved && loses_seat(&mut seats, one))
}

/// Whether these two users sit at the mount, the one whose name is the beginning of the other's first. Who has a name before
/// or between theirs does not.
fn are_users(seats: &Seats, mount: &MountName, has_ann: bool, has_anna: bool) -> bool {
    let has_others = seats.user_at(mount, b"")
        || seats.user_at(mount, b"an")
        || seats.user_at(mount, b"ann:");
    seats.user_at(mount, b"ann") == has_ann
        && seats.user_at(mount, b"anna") == has_anna
        && !has_others
}

/// One user sits at two mounts, and another at the second. The first loses the seat there, and leaves the other mount. Whether
/// each user is found at each mount as long as somebody sits there who sent it.
fn are_users_apart(alloc: Global, one: &MountName, other: &MountName) -> Result<bool, OutOfMemory> {
    let mut seats = Seats::new(alloc);
    come_as(alloc, &mut seats, one, 3, ANN)?;
    come_as(alloc, &mut seats, other, 4, ANNA)?;
    let are_apart = are_users(&seats, one, true, false) && are_users(&seats, other, false, true);
    come_as(alloc, &mut seats, other, 5, ANN)?;
    let are_both = are_users(&seats, one, true, false) && are_users(&seats, other, true, true);
    seats.end(5, Rule::Killed);
    let has_lost = are_users(&seats, one, true, false) && are_users(&seats, other, false, true);
    seats.remove(3);
    let has_left = are_users(&seats, one, false, false) && are_users(&seats, other, false, true);
    Ok(are_apart && are_both && has_lost && has_left)
}

/// Returns the numbers of the listeners that sit at the mount.
fn are_listed(alloc: Global, mount: &MountName) -> Result<bool, OutOfMemory> {
    let mut seats = Seats::new(alloc);
    come(alloc, &mut seats, mount, 9)?;
    come(alloc, &mut seats, mount, 7)?;
    let guests = seats.guests_at(alloc, mount)?;
    match guests.as_slice() {
        [first, second] => Ok(first.id == 7 && second.id == 9),
        _ => Ok(false),
    }
}

#[test]
fn seats_of_mounts(rt: HostRuntime) {
    let (Some(one), Some(other)) = (MountName::read(b"/a"), MountName::read(b"/b")) else {
        assert!(rt; false);
        return;
    };
    assert!(rt; are_seated(rt.alloc(), &one, &other) == Ok(true));
    assert!(rt; are_users_apart(rt.alloc(), &one, &other) == Ok(true));
    assert!(rt; are_listed(rt.alloc(), &one) == Ok(true));
}
