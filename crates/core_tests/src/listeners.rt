//! Listeners with their attachments: calls with ample memory, and what is found after each. A body
//! that gives up for want of memory is proved under any contract.

use radio_addr::Peer;
use radio_blocks::Place;
use radio_parts_table::Listeners;
use radio_policy::Rule;
use radio_seats_rows::{Guest, KeptName, OutOfMemory, Seat, SeatTest};
use radio_values::MountName;
use std::alloc::{AllocGlobal, Global};

/// How many come, half of them to each mount: the tree of a mount has several levels.
const MANY: u64 = 40;

/// The place at which the listener of this number begins, in bytes.
const START: u64 = 100;

/// A listener came at this moment or before.
#[derive(Drop)]
struct CameBy {
    moment: u64,
}

impl SeatTest for CameBy {
    ghost use Rattle.std.specs.Prelude.{nat_le};

    ghost passes = { λ test guest. nat_le guest.since test.moment };

    fn passes(&self, guest: &Guest) -> bool {
        guest.since <= self.moment
    }
}

/// The listener of this number sits down at the mount, at the moment of its number.
fn come(
    alloc: Global,
    listeners: &mut Listeners,
    mount: &MountName,
    id: u64,
) -> Result<(), OutOfMemory> {
    let seat = Seat {
        place: Place::new(START.saturating_mul(id)),
        mount: *mount,
        session: 1,
        home: KeptName::new(alloc, *mount)?,
        peer: Peer::of_v4(0x0a00_0001),
        pair: None,
        interval: None,
        since: id,
    };
    match listeners.prepare(mount) {
        Ok(()) => listeners.add(alloc, id, seat),
        Err(refused) => {
            drop(seat);
            Err(refused)
        }
    }
}

/// Listeners of even numbers sit down at the one mount, and those of odd numbers at the other.
fn all_come(
    alloc: Global,
    listeners: &mut Listeners,
    even: &MountName,
    odd: &MountName,
) -> Result<(), OutOfMemory> {
    for id in 0..MANY {
        let mount = if id % 2 == 0 { even } else { odd };
        come(alloc, listeners, mount, id)?;
    }
    Ok(())
}

/// Whether the listener sits, in this session, and has read so far.
fn has_read(listeners: &Listeners, id: u64, session: u64, place: u64) -> bool {
    match listeners.seat(id) {
        Some(seat) => seat.session == session && seat.place.bytes_before() == place,
        None => false,
    }
}

/// A listener that lags loses its seat, and one that has read more keeps it.
fn laggards_end(listeners: &mut Listeners, even: &MountName) -> bool {
    listeners.advance(6, Place::new(5_000));
    listeners.end_lagging(even, 5_100, 1_000);
    listeners.count(even) == 1 && has_read(listeners, 6, 1, 5_000)
}

/// A session that begins leaves each listener at its place.
fn session_begins(listeners: &mut Listeners, odd: &MountName) -> bool {
    listeners.give_session(odd, 9);
    has_read(listeners, 7, 9, 700) && has_read(listeners, 39, 9, 3_900)
}

/// The listeners that have come by then end, at one mount and then everywhere.
fn tests_end(listeners: &mut Listeners, even: &MountName, odd: &MountName) -> bool {
    let ended = listeners.finish_at_if(odd, &CameBy { moment: 20 }, Rule::Killed);
    listeners.finish_if(&CameBy { moment: 30 }, Rule::TimeOver);
    ended == 10 && listeners.count(even) == 0 && listeners.count(odd) == 5
}

/// Each listener leaves, and none is left.
fn all_leave(listeners: &mut Listeners, even: &MountName, odd: &MountName) -> bool {
    listeners.end(31, Rule::Killed);
    for id in 0..MANY {
        listeners.remove(id);
    }
    listeners.release(even);
    listeners.release(odd);
    listeners.len() == 0
}

fn are_kept(alloc: Global, even: &MountName, odd: &MountName) -> Result<bool, OutOfMemory> {
    let mut listeners = Listeners::new(alloc);
    all_come(alloc, &mut listeners, even, odd)?;
    let kept = laggards_end(&mut listeners, even)
        && session_begins(&mut listeners, odd)
        && tests_end(&mut listeners, even, odd);
    let guests = listeners.guests_at(alloc, odd)?.len();
    Ok(kept && guests == 5 && all_leave(&mut listeners, even, odd))
}

#[test]
fn listeners_keep_their_places(rt: HostRuntime) {
    let (Some(even), Some(odd)) = (
        MountName::read(b"/even".as_slice()),
        MountName::read(b"/odd".as_slice()),
    ) else {
        assert!(rt; false);
        return;
    };
    let kept = are_kept(rt.alloc(), &even, &odd);
    assert!(rt; matches!(kept, Ok(true)));
}
