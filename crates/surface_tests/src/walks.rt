//! The mount at which a walk lands, and the listeners that a move carries along.

use crate::seats::{come, has_lost, sits_at};
use radio_core::MountParts;
use radio_creds::Pair;
use radio_fallback::asking::{Who, landing};
use radio_fallback::{Landing, Move, View, carry, walk_from};
use radio_policy::Rule;
use radio_seats::{OutOfMemory, Seats};
use radio_settings::MountName;
use std::alloc::{AllocGlobal, Global};

/// A server with one live mount, which has room for one listener, and to which all other mounts fall back.
#[derive(Drop)]
struct OneLive {
    live: MountName,
}

impl View for OneLive {
    ghost use Rattle.std.specs.Prelude.{true, false, Some};
    ghost use Rattle.std.specs.Str.{bytes_eq};

    ghost sight = { λ view. record {
      is_live = λ mount. bytes_eq view.live mount;
      limit = λ _. Some 1;
      lets_in = λ _ _. true;
      allows_duplicates = λ _. true;
      fallback = λ _. Some view.live;
      hands_on_when_full = λ _. false;
      stream_end = λ _. record { session = 8; place = 0 };
    } };

    fn is_live(&self, mount: &MountName) -> bool {
        self.live == *mount
    }

    fn limit(&self, _mount: &MountName) -> Option<u32> {
        Some(1)
    }

    fn lets_in(&self, _mount: &MountName, _pair: Option<&Pair>) -> bool {
        true
    }

    fn allows_duplicates(&self, _mount: &MountName) -> bool {
        true
    }

    fn fallback(&self, _mount: &MountName) -> Option<MountName> {
        Some(self.live)
    }

    fn hands_on_when_full(&self, _mount: &MountName) -> bool {
        false
    }

    fn session_number(&self, _mount: &MountName) -> u64 {
        8
    }
}

/// Whether a walk from the mount lands at that one.
fn lands_at(view: &OneLive, seats: &Seats, from: &MountName, at: &MountName) -> bool {
    let landing = walk_from(view, seats, from, None).landing;
    match landing {
        Landing::Lands(mount) => mount == *at,
        Landing::Stops(_) => false,
    }
}

/// Whether a walk from the mount is stopped by the rule, and what it found there was live.
fn stops_by(view: &OneLive, seats: &Seats, from: &MountName, rule: Rule) -> bool {
    let walk = walk_from(view, seats, from, None);
    walk.first.is_live && walk.landing.stop() == Some(rule)
}

/// Whether the client of this number, which sends no pair, lands at the live mount.
fn lands(view: &OneLive, seats: &Seats, id: Option<u64>) -> bool {
    let who = Who { id, pair: None };
    landing(view, seats, &who, &view.live).stop().is_none()
}

/// A seat at the live mount counts against other clients, and not against its own.
fn is_left_out(alloc: Global, view: &OneLive) -> Result<bool, OutOfMemory> {
    let mut seats = Seats::new(alloc);
    come(alloc, &mut seats, &view.live, 3)?;
    Ok(lands(view, &seats, Some(3)) && !lands(view, &seats, None))
}

/// A walk lands at the live mount, from there and from the other one, until somebody sits there.
fn are_walked(alloc: Global, view: &OneLive, other: &MountName) -> Result<bool, OutOfMemory> {
    let mut seats = Seats::new(alloc);
    let lands = lands_at(view, &seats, &view.live, &view.live)
        && lands_at(view, &seats, other, &view.live);
    come(alloc, &mut seats, &view.live, 3)?;
    Ok(lands && stops_by(view, &seats, &view.live, Rule::MountFull))
}

/// The session of the other mount ends, where the clients 3 and 4 sit. Returns whether the first goes on at the live mount,
/// which is full for the second.
fn are_carried(alloc: Global, view: &OneLive, other: &MountName) -> Result<bool, OutOfMemory> {
    let mut parts = MountParts::new(alloc);
    let mut seats = Seats::new(alloc);
    come(alloc, &mut seats, other, 3)?;
    come(alloc, &mut seats, other, 4)?;
    parts.prepare(&view.live)?;
    seats.prepare(&view.live)?;
    let carried = carry(view, &mut parts, &mut seats, &Move::Ended(*other));
    Ok(
        carried.moved == 1
            && carried.ended == 1
            && sits_at(&seats, 3, &view.live, 8, 0)
            && has_lost(&seats, 4, Rule::MountFull),
    )
}

#[test]
fn walks_and_moves(rt: HostRuntime) {
    let (Some(live), Some(other)) = (MountName::read(b"/a"), MountName::read(b"/b")) else {
        assert!(rt; false);
        return;
    };
    let view = OneLive { live };
    assert!(rt; are_walked(rt.alloc(), &view, &other) == Ok(true));
    assert!(rt; is_left_out(rt.alloc(), &view) == Ok(true));
    assert!(rt; are_carried(rt.alloc(), &view, &other) == Ok(true));
}
