//! Workers in threads of their own over one hall. They take lines in memory from an intake.

mod seats;

ghost use Rattle.std.specs.Prelude.{◌≡◌, All};
ghost use Rattle.radio_workers.specs.Passes.{all_parts};

use crate::halls::{PassCaller, Visit, is_well_visited};
use crate::workers::seats::{MemoryPost, add_passes, seats_for};
use radio_book::{Entry, Kept, Origin, Pass};
use radio_events::{Event, Reply};
use radio_locks::{Hall, OutOfMemory};
use radio_serving::{Gate, WebAnswers};
use radio_workers::{Intake, IntakePass, ROOM, WorkerSlot, Workplace, run_workers};
use std::alloc::Global;
use std::sync::Wait;
use std::sync::atomic::{AtomicBool, AtomicU64, Ordering};
use std::thread;
use std::thread::Threads;
use std::time::{Clock, Duration};
use test_calls::{Callee, DATA, arrival, push_event, source_event};
use test_stations::{LISTENER, Manners, MemoryLine, SILENT, SOURCE, TITLED};

/// How often a thread sleeps for a millisecond before it gives up.
const MOST_SLEEPS: u64 = 10_000;

/// A gate at which the first write is held until so many others were made.
#[derive(Drop)]
struct HoldsFirst<'a, R: Clock> {
    rt: &'a R,
    others: u64,
    was_first: AtomicBool,
    made: AtomicU64,
    has_seen_others: AtomicBool,
}

impl<'a, R: Clock> HoldsFirst<'a, R> {
    /// Waits until the others were made. Whether they were.
    fn waits(&self) -> bool {
        for _ in 0..MOST_SLEEPS {
            if self.made.load(Ordering::SeqCst) >= self.others {
                return true;
            }
            thread::sleep(self.rt, Duration::from_millis(1));
        }
        false
    }
}

impl<'a, R: Clock> Gate for HoldsFirst<'a, R> {
    fn hold(&self, _id: u64) {
        if !self.was_first.swap(true, Ordering::SeqCst) {
            self.has_seen_others.store(self.waits(), Ordering::SeqCst);
        }
    }

    fn let_go(&self, _id: u64) {
        self.made.fetch_add(1, Ordering::SeqCst);
    }
}

/// The connections that come, and how they are served.
#[derive(Clone, Copy)]
pub struct Rush {
    /// What the connections that come do, one after another.
    comers: &'static [Manners],
    /// Whether a caller feeds a mount before they come.
    is_fed: bool,
    /// How often they all come.
    times: u32,
    /// Whether four workers serve them, or two.
    are_four: bool,
    /// How many turns each worker makes.
    turns: u64,
    /// How many other writes are made while the first is held.
    others: u64,
}

impl Rush {
    /// All come. Whether there was room for them.
    fn fill<R: Wait>(self, rt: &R, intake: &Intake<Manners>, pass: &mut IntakePass<Manners>) -> bool
        requires own { pass.old.intake ≡ intake.now }
        ensures own { pass.new.intake ≡ intake.now }
        ensures parts { pass.new.parts ≡ pass.old.parts }
    {
        'times: for _ in 0..self.times {
            if !put_all(rt, intake, pass, self.comers) {
                return false;
            }
        }
        true
    }

    /// Returns whether the history is that of all that came: each client has arrived, and has left. A source stays.
    pub fn leaves(self, history: &[Entry]) -> bool {
        let comers = self.comers.len().saturating_mul(self.times as usize);
        count(history, Wanted::Arrival) == comers.saturating_add(self.is_fed as usize)
            && count(history, Wanted::Leaving) == comers
    }
}

/// These come. Whether there was room for all.
fn put_all<R: Wait>(
    rt: &R,
    intake: &Intake<Manners>,
    pass: &mut IntakePass<Manners>,
    comers: &[Manners],
) -> bool
    requires own { pass.old.intake ≡ intake.now }
    ensures own { pass.new.intake ≡ intake.now }
    ensures parts { pass.new.parts ≡ pass.old.parts }
{
    'comers: for comer in comers {
        if intake.put(rt, pass, *comer).is_err() {
            return false;
        }
    }
    true
}

/// What is looked for in a history.
#[derive(Clone, Copy)]
enum Wanted {
    /// A client was admitted.
    Arrival,
    /// A client has left.
    Leaving,
}

impl Wanted {
    fn is(self, entry: &Entry) -> bool {
        match self {
            Wanted::Arrival => matches!(entry.reply, Reply::Arrived(_)),
            Wanted::Leaving => matches!(entry.event, Event::Leave { .. }),
        }
    }
}

/// In how many entries that is.
fn count(history: &[Entry], wanted: Wanted) -> usize {
    let mut count = 0usize;
    for entry in history {
        if wanted.is(entry) {
            count = count.saturating_add(1);
        }
    }
    count
}

/// The first client feeds `/a`. Whether it is let in.
fn feed<C: Callee>(alloc: Global, callee: &mut C) -> Result<bool, OutOfMemory> {
    let came = callee.call(arrival()) == Some(1);
    let feeds = callee.call(source_event(alloc, 1, "/a")?).is_some();
    let pushes = callee.call(push_event(alloc, 1, DATA)?).is_some();
    Ok(came && feeds && pushes)
}

/// The same through a pass that is added.
fn is_fed<H: Origin, R: Wait>(
    rt: &R,
    alloc: Global,
    hall: &Hall<Kept, H>,
    passes: &mut Vec<Pass<Kept, H>>,
) -> bool {
    let Some(mut pass) = hall.pass(rt) else {
        return false;
    };
    let is_fed = feed(
        alloc,
        &mut PassCaller {
            rt,
            hall,
            pass: &mut pass,
        },
    );
    passes.push(pass).is_ok() && is_fed == Ok(true)
}

/// Returns whether all that come are taken and served, each worker with a pass that is added, while the first write is held.
pub fn are_served<H: Origin + Send + Sync, R: Threads + Wait + Clock + Sync>(
    rt: &R,
    alloc: Global,
    hall: &Hall<Kept, H>,
    passes: &mut Vec<Pass<Kept, H>>,
    rush: Rush,
) -> bool {
    if rush.is_fed && !is_fed(rt, alloc, hall, passes) {
        return false;
    }
    match Intake::new(alloc) {
        Ok((intake, mut pass)) => is_staffed(rt, alloc, hall, &intake, &mut pass, passes, rush),
        Err(_) => false,
    }
}

/// Returns whether there are seats for the workers. They serve all that come through this intake, and their passes are added
/// then.
fn is_staffed<H: Origin + Send + Sync, R: Threads + Wait + Clock + Sync>(
    rt: &R,
    alloc: Global,
    hall: &Hall<Kept, H>,
    intake: &Intake<Manners>,
    pass: &mut IntakePass<Manners>,
    passes: &mut Vec<Pass<Kept, H>>,
    rush: Rush,
) -> bool
    requires own { pass.old.intake ≡ intake.now }
    requires parts { pass.old.parts ≡ all_parts }
{
    match seats_for(rt, alloc, hall, intake, pass, rush.are_four) {
        Ok(mut seats) => {
            let workers = seats.as_mut_slice();
            let is_emptied = is_emptied(rt, alloc, hall, intake, pass, workers, rush);
            add_passes(seats, passes) && is_emptied
        }
        Err(_) => false,
    }
}

/// All come, and the workers at these seats work. Whether there was room for all, the other writes were made while the first
/// was held, and nobody is left in the intake.
fn is_emptied<H: Origin + Send + Sync, R: Threads + Wait + Clock + Sync>(
    rt: &R,
    alloc: Global,
    hall: &Hall<Kept, H>,
    intake: &Intake<Manners>,
    pass: &mut IntakePass<Manners>,
    seats: &mut [WorkerSlot<Pass<Kept, H>, Manners, MemoryPost>],
    rush: Rush,
) -> bool
    requires own { pass.old.intake ≡ intake.now }
    requires seats { All (λ seat. seat.intake_pass.intake ≡ intake.now) seats.old }
{
    let is_filled = rush.fill(rt, intake, pass);
    let has_seen_others = work(rt, alloc, hall, intake, seats, rush);
    let is_empty = intake.take(rt, pass).is_none();
    is_filled && has_seen_others && is_empty
}

/// The workers work. Whether the other writes were made while the first was held.
fn work<H: Origin + Send + Sync, R: Threads + Wait + Clock + Sync>(
    rt: &R,
    alloc: Global,
    hall: &Hall<Kept, H>,
    intake: &Intake<Manners>,
    seats: &mut [WorkerSlot<Pass<Kept, H>, Manners, MemoryPost>],
    rush: Rush,
) -> bool
    requires seats { All (λ seat. seat.intake_pass.intake ≡ intake.now) seats.old }
{
    let gate = HoldsFirst {
        rt,
        others: rush.others,
        was_first: AtomicBool::new(false),
        made: AtomicU64::new(0),
        has_seen_others: AtomicBool::new(false),
    };
    let place = Workplace {
        server: hall,
        intake,
        gate: &gate,
        web: WebAnswers::none(),
        log_polls: true,
        patience_s: 10,
        turns: rush.turns,
    };
    run_workers::<R, Hall<Kept, H>, Manners, MemoryLine, MemoryPost, HoldsFirst<'_, R>>(
        rt, alloc, &place, seats,
    );
    drop(place);
    gate.has_seen_others.load(Ordering::SeqCst)
}

/// A client that asks for a mount that does not exist, and then closes.
const DENIED: Manners = Manners {
    gives: &[b"GET /none HTTP/1.0\r\n\r\n"],
    closes_at: 1,
    ..SILENT
};

/// The same, and the write of its answer fails.
const FAILS: Manners = Manners {
    gives: &[b"GET /none HTTP/1.0\r\n\r\n"],
    fails_at: 1,
    ..SILENT
};

/// A mount is fed, and two listeners come.
const TWO: Rush = Rush {
    comers: &[LISTENER],
    is_fed: true,
    times: 2,
    are_four: false,
    turns: 100,
    others: 1,
};

/// While the first write to one listener is held, the other is served.
// rule: Order of calls; Writes outside the lock
#[test]
fn two_served_at_once(rt: HostRuntime) {
    assert!(rt; is_well_visited(&rt, "", Visit::Rush(TWO)));
}

/// The same, and the held write fails then.
#[test]
fn a_held_listener_that_fails_holds_nobody(rt: HostRuntime) {
    let rush = Rush {
        comers: &[Manners {
            fails_at: 1,
            ..LISTENER
        }],
        ..TWO
    };
    assert!(rt; is_well_visited(&rt, "", Visit::Rush(rush)));
}

/// Six come, and five are served while the write to the first is held.
const SIX: Rush = Rush {
    comers: &[DENIED, DENIED],
    is_fed: false,
    times: 3,
    are_four: false,
    turns: 20,
    others: 5,
};

/// While a write is held, the hall serves all others.
// rule: Writes outside the lock
#[test]
fn a_held_write_holds_nobody(rt: HostRuntime) {
    assert!(rt; is_well_visited(&rt, "", Visit::Rush(SIX)));
}

/// The same, and the writes fail. A client that was cut off has left.
// rule: Writes outside the lock
#[test]
fn a_held_write_that_fails_holds_nobody(rt: HostRuntime) {
    let rush = Rush {
        comers: &[FAILS, FAILS],
        ..SIX
    };
    assert!(rt; is_well_visited(&rt, "", Visit::Rush(rush)));
}

/// Four workers serve sources, listeners and others, which all leave at the end. Their passes settle.
// rule: Settled history; Order of calls; End of a worker
#[test]
fn four_workers(rt: HostRuntime) {
    let rush = Rush {
        comers: &[SOURCE, LISTENER, TITLED, DENIED],
        is_fed: false,
        times: 8,
        are_four: true,
        turns: 50,
        others: 0,
    };
    assert!(rt; is_well_visited(&rt, "", Visit::Rush(rush)));
}

/// A full intake is emptied. Each client that came was admitted, and has left.
// rule: Newcomers
#[test]
fn a_full_intake(rt: HostRuntime) {
    let rush = Rush {
        comers: &[DENIED],
        is_fed: false,
        times: ROOM as u32,
        are_four: true,
        turns: 1100,
        others: 0,
    };
    assert!(rt; is_well_visited(&rt, "[limits]\nclients = 1024\n", Visit::Rush(rush)));
}
