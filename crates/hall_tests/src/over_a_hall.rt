//! A worker over a hall: another caller that sets a title, and a gate that asks for the lock.

use crate::halls::{HallCaller, PassCaller, Visit, is_well_visited};
use radio_book::{Kept, Origin, Pass};
use radio_locks::Hall;
use radio_serving::{Gate, Turn};
use std::alloc::Global;
use std::cell::Cell;
use std::sync::Wait;
use test_calls::{Callee, title_event};
use test_stations::{HEARD, INTERVAL, LATE_LISTENER, Look, NIGHT, SOURCE, Station, Step, TITLED};

/// The source's mount has this title from now on. Whether it has: it has not if memory is refused.
fn sets_title<H: Origin, R: Wait>(
    rt: &R,
    alloc: Global,
    hall: &Hall<Kept, H>,
    pass: &mut Pass<Kept, H>,
) -> bool {
    match title_event(alloc, 1, b"Night") {
        Ok(event) => {
            let mut caller = PassCaller { rt, hall, pass };
            caller.call(event).is_some()
        }
        Err(_) => false,
    }
}

/// A worker over a hall, with a pass and no connection.
type HallStation<'a, R, H> = Station<HallCaller<'a, R, H>>;

fn open_station<'a, H: Origin, R: Wait>(
    rt: &'a R,
    alloc: Global,
    hall: &'a Hall<Kept, H>,
) -> Option<HallStation<'a, R, H>> {
    let pass = hall.pass(rt)?;
    Some(Station::new(alloc, HallCaller::new(alloc, rt, hall, pass)))
}

/// Adds the worker's pass, when it serves no more. Whether there was memory for it.
fn adds_pass<H: Origin, R: Wait>(
    station: HallStation<R, H>,
    passes: &mut Vec<Pass<Kept, H>>,
) -> bool {
    let pass = station.into_server().into_pass();
    passes.push(pass).is_ok()
}

/// A source is served.
const SERVED: &[Step] = &[Step::Comes(SOURCE, 0), Step::Turns(1, 1, 2)];

/// A listener comes then, and gets the title.
const HEARS_NIGHT: &[Step] = &[
    Step::Comes(TITLED, 2),
    Step::Turns(3, 1, 1),
    Step::Shows(1, Look::Took(NIGHT)),
];

/// A worker whose pass is added, and whether the title came that the other caller set.
fn is_heard<H: Origin, R: Wait>(
    rt: &R,
    alloc: Global,
    hall: &Hall<Kept, H>,
    other: &mut Pass<Kept, H>,
    passes: &mut Vec<Pass<Kept, H>>,
) -> bool {
    let Some(mut station) = open_station(rt, alloc, hall) else {
        return false;
    };
    let is_heard = station.plays(SERVED)
        && sets_title(rt, alloc, hall, other)
        && station.plays(HEARS_NIGHT);
    adds_pass(station, passes) && is_heard
}

/// The same with a pass of another caller, which sets the title. That pass is added too.
pub fn is_title_heard<H: Origin, R: Wait>(
    rt: &R,
    alloc: Global,
    hall: &Hall<Kept, H>,
    passes: &mut Vec<Pass<Kept, H>>,
) -> bool {
    let Some(mut other) = hall.pass(rt) else {
        return false;
    };
    let is_heard = is_heard(rt, alloc, hall, &mut other, passes);
    passes.push(other).is_ok() && is_heard
}

#[test]
fn title_between_bytes(rt: HostRuntime) {
    assert!(rt; is_well_visited(&rt, INTERVAL, Visit::Titling));
}

/// A gate at which the hall is asked for a pass before and after each write, without waiting for its
/// lock.
#[derive(Drop)]
struct Knocking<'a, H: Origin> {
    hall: &'a Hall<Kept, H>,
    knocks: Cell<u64>,
    /// Whether the lock was ever held.
    was_held: Cell<bool>,
}

impl<'a, H: Origin> Knocking<'a, H> {
    fn knock(&self) {
        self.knocks.set(self.knocks.get().saturating_add(1));
        match self.hall.try_pass() {
            Some(pass) => drop(pass),
            None => self.was_held.set(true),
        }
    }
}

impl<'a, H: Origin> Gate for Knocking<'a, H> {
    fn hold(&self, _id: u64) {
        self.knock();
    }

    fn let_go(&self, _id: u64) {
        self.knock();
    }
}

/// Whether the hall's lock is free round the two writes of these turns: to a source, and to a
/// listener.
fn is_free_in_turns<H: Origin, R: Wait>(
    hall: &Hall<Kept, H>,
    station: &mut HallStation<R, H>,
) -> bool {
    let gate = Knocking {
        hall,
        knocks: Cell::new(0),
        was_held: Cell::new(false),
    };
    for ms in 1..5 {
        let turn = Turn {
            ms,
            news: true,
            clock_ms: 0,
        };
        station.turn(&gate, turn);
    }
    gate.knocks.get() == 4 && !gate.was_held.get()
}

/// A source and a listener come.
const BOTH_COME: &[Step] = &[Step::Comes(SOURCE, 0), Step::Comes(LATE_LISTENER, 0)];

fn is_free_for_both<H: Origin, R: Wait>(
    hall: &Hall<Kept, H>,
    station: &mut HallStation<R, H>,
) -> bool {
    station.plays(BOTH_COME)
        && is_free_in_turns(hall, station)
        && station.shows(1, Look::Took(HEARD))
}

/// They are served through a gate that knocks, by a worker whose pass is added.
pub fn is_lock_free<H: Origin, R: Wait>(
    rt: &R,
    alloc: Global,
    hall: &Hall<Kept, H>,
    passes: &mut Vec<Pass<Kept, H>>,
) -> bool {
    let Some(mut station) = open_station(rt, alloc, hall) else {
        return false;
    };
    let is_free = is_free_for_both(hall, &mut station);
    adds_pass(station, passes) && is_free
}

/// The test looks for a held lock without waiting for it, so it ends whichever thread holds the lock.
// rule: Writes outside the lock
// only tested: Writes outside the lock: all of it
#[test]
fn the_lock_is_free_while_writing(rt: HostRuntime) {
    assert!(rt; is_well_visited(&rt, "", Visit::Knocking));
}
