//! Failing and slow connections over a hall that stores its entries. A client whose connection is over has left, in
//! the history too. All passes settle, also if a call was refused.

use crate::halls::{HallCaller, Visit, is_well_visited};
use radio_book::{Entry, Kept, Origin, Pass};
use radio_events::Event;
use radio_locks::Hall;
use radio_serving::Server;
use std::alloc::Global;
use std::sync::Wait;
use std::thread::Threads;
use std::time::Clock;
use test_calls::SHORT_QUEUE;
use test_stations::{
    BEHIND_A_SOURCE, Beside, CLOSED, CLOSES_WHILE_OWED, Failure, KEPT, LAGS, LINE_CALLS,
    LONG_TIMEOUT, PLAIN, Refusing, Station, Step, failing, is_refused,
};

/// What is played at a worker over the hall.
#[derive(Clone, Copy)]
pub enum Row {
    /// These steps.
    Steps(&'static [Step]),
    /// One whose line fails so at that call, among others.
    Failing(&'static Beside, Failure, u64),
    /// A source and a listener, and the worker is refused memory at that call.
    Refused(u64),
}

/// A row, and whose leaving is in the history then, in this order.
#[derive(Clone, Copy)]
pub struct KeptRow {
    pub row: Row,
    pub left: Option<&'static [u64]>,
}

impl Row {
    fn is_played<S: Server + Drop>(self, station: &mut Station<S>) -> bool {
        match self {
            Row::Steps(steps) => station.plays(steps),
            Row::Failing(beside, failure, call) => {
                beside.is_played(station, failing(beside.failing, failure, call))
            }
            Row::Refused(_) => is_refused(station),
        }
    }

    /// At which call the worker is refused memory.
    fn refuses_at(self) -> u64 {
        match self {
            Row::Refused(call) => call,
            Row::Steps(_) | Row::Failing(..) => u64::MAX,
        }
    }
}

impl KeptRow {
    /// Returns whether the clients that have left in the history are those that should have.
    pub fn leaves(self, history: &[Entry]) -> bool {
        match self.left {
            Some(ids) => have_left(history, ids),
            None => true,
        }
    }
}

/// Returns the client that leaves by an event.
fn leaver(event: &Event) -> Option<u64> {
    match event {
        Event::Leave { id } => Some(*id),
        _ => None,
    }
}

/// Returns whether the clients that have left are these, in this order.
fn have_left(history: &[Entry], ids: &[u64]) -> bool {
    let mut count = 0;
    for entry in history {
        if let Some(id) = leaver(&entry.event) {
            if ids.get(count) != Some(&id) {
                return false;
            }
            count += 1;
        }
    }
    count == ids.len()
}

/// Whether a row is played by a worker over a hall, whose pass is added.
pub fn is_row_played<H: Origin, R: Wait>(
    rt: &R,
    alloc: Global,
    hall: &Hall<Kept, H>,
    passes: &mut Vec<Pass<Kept, H>>,
    kept: KeptRow,
) -> bool {
    match hall.pass(rt) {
        Some(pass) => is_played_by(
            alloc,
            HallCaller::new(alloc, rt, hall, pass),
            passes,
            kept.row,
        ),
        None => false,
    }
}

/// A caller of a hall that is refused memory at one call.
type RefusedCaller<'a, R, H> = Refusing<HallCaller<'a, R, H>>;

/// Returns whether a row is played by a worker that asks this caller, whose pass is added.
fn is_played_by<H: Origin, R: Wait>(
    alloc: Global,
    caller: HallCaller<'_, R, H>,
    passes: &mut Vec<Pass<Kept, H>>,
    row: Row,
) -> bool {
    let mut station = Station::new(alloc, Refusing::new(caller, row.refuses_at()));
    let is_played = row.is_played(&mut station);
    adds_pass(station.into_server(), passes) && is_played
}

/// Adds the pass of this caller. Whether there was memory for it.
fn adds_pass<H: Origin, R: Wait>(
    caller: RefusedCaller<'_, R, H>,
    passes: &mut Vec<Pass<Kept, H>>,
) -> bool {
    let pass = caller.into_server().into_pass();
    passes.push(pass).is_ok()
}

/// Whether these steps are played at a hall with these settings more, and these have left then.
fn are_kept<R: AllocGlobal + Threads + Wait + Clock + Sync>(
    rt: &R,
    more: &str,
    steps: &'static [Step],
    left: &'static [u64],
) -> bool {
    let kept = KeptRow {
        row: Row::Steps(steps),
        left: Some(left),
    };
    is_well_visited(rt, more, Visit::Row(kept))
}

/// Whether these have left wherever that line fails.
fn have_left_at_each_call<R: AllocGlobal + Threads + Wait + Clock + Sync>(
    rt: &R,
    beside: &'static Beside,
    failure: Failure,
    left: &'static [u64],
) -> bool {
    for call in 0..LINE_CALLS {
        let kept = KeptRow {
            row: Row::Failing(beside, failure, call),
            left: Some(left),
        };
        if !is_well_visited(rt, beside.settings, Visit::Row(kept)) {
            return false;
        }
    }
    true
}

/// Returns whether the passes settle if the worker was refused memory at that call.
fn settles_refused<R: AllocGlobal + Threads + Wait + Clock + Sync>(rt: &R, call: u64) -> bool {
    let kept = KeptRow {
        row: Row::Refused(call),
        left: None,
    };
    is_well_visited(rt, "", Visit::Row(kept))
}

// rule: Lingering; Closed by the peer
#[test]
fn who_fails_has_left_the_station(rt: HostRuntime) {
    assert!(rt; have_left_at_each_call(&rt, PLAIN, Failure::Fault, &[2]));
    assert!(rt; have_left_at_each_call(&rt, PLAIN, Failure::Closing, &[2]));
    assert!(rt; have_left_at_each_call(&rt, BEHIND_A_SOURCE, Failure::Fault, &[1, 2]));
}

/// A slow client stays while it stalls. It has left if it has stalled, lags, or closes while something is pending.
// rule: Lingering
#[test]
fn who_is_slow_has_left_the_station(rt: HostRuntime) {
    assert!(rt; are_kept(&rt, LONG_TIMEOUT, KEPT, &[]));
    assert!(rt; are_kept(&rt, LONG_TIMEOUT, CLOSED, &[2]));
    assert!(rt; are_kept(&rt, SHORT_QUEUE, LAGS, &[2]));
    assert!(rt; are_kept(&rt, "", CLOSES_WHILE_OWED, &[2]));
}

/// The passes settle if the worker was refused memory, at each call.
// rule: Refused memory; Reserved ends
#[test]
fn a_refused_call_settles(rt: HostRuntime) {
    for call in 0..LINE_CALLS {
        assert!(rt; settles_refused(&rt, call));
    }
}
