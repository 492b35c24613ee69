//! Several callers at one hall. Of three threads one feeds a mount, one draws for a listener, and one moves that listener to another
//! mount and back. Callers one after another: a listener draws that was finished, or that lags.

use crate::freezing::{Meanwhile, is_answered};
use crate::halls::{Visit, is_well_visited, takes_pass};
use crate::scattered::scatter_together;
use radio_book::{Kept, Origin, OutOfMemory, Pass, Receipt};
use radio_events::{Asked, Command, Event, Reply, SharedServer};
use radio_locks::Hall;
use radio_policy::Rule;
use radio_values::MountName;
use std::alloc::Global;
use std::sync::Wait;
use std::sync::atomic::{AtomicBool, Ordering};
use std::thread::{Threads, for_each_mut};
use std::time::Clock;
use test_calls::{
    RING, SHORT_QUEUE, arrival, command_event, draw, killing, listen_event, moving, number_given,
    push_event, source_event,
};

/// How often the listener is moved there and back.
const MOVES: u32 = 50;

/// After how many calls a thread gives up.
const MOST_CALLS: u32 = 20_000;

/// The source of `/a`, that of `/b`, and the listener.
const SOURCE_A: u64 = 1;

const SOURCE_B: u64 = 2;

pub const LISTENER: u64 = 3;

/// What is done by several callers.
#[derive(Clone, Copy)]
pub enum Together {
    /// A listener is moved while it draws and its mount is fed.
    Moves,
    /// Calls are made as dice have them.
    Scattered,
    /// The same, and commands set fallbacks too.
    ScatteredWithFallbacks,
    /// The lock of `/a` is held while a listener of `/b` draws.
    FreezesMount,
    /// The lock of `/a` is held while a client asks to listen to `/b`.
    FreezesBesideWalk,
    /// The control's lock is held while a listener of `/b` draws.
    FreezesControl,
    /// A listener that draws is finished by another caller's command.
    Kills,
    /// A listener lags by a block, and draws before the control was lent its mount.
    Lags,
}

impl Together {
    /// How many passes there are: one of the first caller, and one for each thread or caller after that.
    fn passes(self) -> u32 {
        match self {
            Together::Moves | Together::Scattered | Together::ScatteredWithFallbacks => 4,
            Together::FreezesMount
            | Together::FreezesBesideWalk
            | Together::FreezesControl
            | Together::Kills
            | Together::Lags => 3,
        }
    }
}

/// The receipt of a call.
fn apply<H: Origin, R: Wait>(
    rt: &R,
    hall: &Hall<Kept, H>,
    pass: &mut Pass<Kept, H>,
    event: Result<Event, OutOfMemory>,
) -> Result<Receipt, OutOfMemory> {
    hall.apply(rt, pass, event?)
}

/// Two sources feed `/a` and `/b`, and a listener hears the mount of this path.
fn come<H: Origin, R: Wait>(
    rt: &R,
    alloc: Global,
    hall: &Hall<Kept, H>,
    pass: &mut Pass<Kept, H>,
    path: &str,
) -> bool {
    for _ in 0..LISTENER {
        if !asks(rt, hall, pass, Ok(arrival())) {
            return false;
        }
    }
    asks(rt, hall, pass, source_event(alloc, SOURCE_A, "/a"))
        && asks(rt, hall, pass, source_event(alloc, SOURCE_B, "/b"))
        && asks(rt, hall, pass, listen_event(alloc, LISTENER, path))
}

/// Whether the call was replied to.
pub fn asks<S: SharedServer, R: Wait>(
    rt: &R,
    server: &S,
    pass: &mut S::Pass,
    event: Result<Event, OutOfMemory>,
) -> bool {
    let Ok(event) = event else {
        return false;
    };
    match server.apply(rt, pass, event) {
        Ok(reply) => {
            drop(reply);
            true
        }
        Err(_) => false,
    }
}

/// Returns the number of a client that arrives now.
fn comes<S: SharedServer, R: Wait>(rt: &R, server: &S, pass: &mut S::Pass) -> Option<u64> {
    match server.apply(rt, pass, arrival()) {
        Ok(reply) => {
            let number = number_given(&reply);
            drop(reply);
            Some(number)
        }
        Err(_) => None,
    }
}

/// An admin comes, gives the command and leaves.
fn commands<S: SharedServer, R: Wait>(
    rt: &R,
    alloc: Global,
    server: &S,
    pass: &mut S::Pass,
    asked: Asked,
) -> bool {
    let Some(id) = comes(rt, server, pass) else {
        drop(asked);
        return false;
    };
    asks(rt, server, pass, command_event(alloc, id, asked))
        && asks(rt, server, pass, Ok(Event::Leave { id }))
}

/// What a thread does again and again.
#[derive(Clone, Copy)]
enum Again {
    /// It feeds `/a`.
    Feeds,
    /// It draws for the listener.
    Draws,
}

impl Again {
    fn event(self, alloc: Global) -> Result<Event, OutOfMemory> {
        match self {
            Again::Feeds => push_event(alloc, SOURCE_A, b"abcd"),
            Again::Draws => Ok(draw(LISTENER)),
        }
    }
}

/// Does this until the listener is moved no more.
fn repeat<S: SharedServer, R: Wait>(
    rt: &R,
    alloc: Global,
    hall: &S,
    pass: &mut S::Pass,
    is_over: &AtomicBool,
    again: Again,
) {
    for _ in 0..MOST_CALLS {
        if is_over.load(Ordering::SeqCst) {
            return;
        }
        let _ = asks(rt, hall, pass, again.event(alloc));
    }
}

/// Moves the listener to `/b` and back, so often.
fn moves<S: SharedServer, R: Wait>(
    rt: &R,
    alloc: Global,
    hall: &S,
    pass: &mut S::Pass,
    is_over: &AtomicBool,
) {
    for _ in 0..MOVES {
        let _ = commands(rt, alloc, hall, pass, moving("/a", "/b"));
        let _ = commands(rt, alloc, hall, pass, moving("/b", "/a"));
    }
    is_over.store(true, Ordering::SeqCst);
}

/// What the thread of this number does: the first feeds, the second draws, the third moves the listener.
fn act<S: SharedServer, R: Wait>(
    rt: &R,
    alloc: Global,
    hall: &S,
    pass: &mut S::Pass,
    is_over: &AtomicBool,
    number: usize,
) {
    match number {
        0 => repeat(rt, alloc, hall, pass, is_over, Again::Feeds),
        1 => repeat(rt, alloc, hall, pass, is_over, Again::Draws),
        _ => moves(rt, alloc, hall, pass, is_over),
    }
}

/// Three threads with a pass each do so.
fn run_three<R, S>(rt: &R, alloc: Global, hall: &S, passes: &mut [S::Pass])
where
    R: Threads + Wait + Sync,
    S: SharedServer + Sync,
    S::Pass: Send,
{
    let count = passes.len();
    if count == 0 {
        return;
    }
    let is_over = AtomicBool::new(false);
    for_each_mut(
        rt,
        passes,
        count,
        &|number, pass| act(rt, alloc, hall, pass, &is_over, number),
    );
}

/// Whether the reply says that the listener was finished by this rule, and has no data.
fn is_finished_by(drawn: Result<Receipt, OutOfMemory>, rule: Rule) -> bool {
    match drawn {
        Ok(receipt) => match receipt.into_reply() {
            Reply::Finished(by) => by == rule,
            other => {
                drop(other);
                false
            }
        },
        Err(_) => false,
    }
}

/// The listener draws by one pass, a command by another finishes it, and it draws again.
fn is_finished<H: Origin, R: Wait>(
    rt: &R,
    alloc: Global,
    hall: &Hall<Kept, H>,
    passes: &mut [Pass<Kept, H>],
) -> bool {
    match passes {
        [first, second, ..] => {
            asks(rt, hall, first, Ok(draw(LISTENER)))
                && commands(rt, alloc, hall, second, killing("/a", LISTENER))
                && is_finished_by(apply(rt, hall, first, Ok(draw(LISTENER))), Rule::Killed)
        }
        _ => false,
    }
}

/// A block by one pass that is longer than the queue leaves the listener behind, and another draws for it.
fn is_left_behind<H: Origin, R: Wait>(
    rt: &R,
    alloc: Global,
    hall: &Hall<Kept, H>,
    passes: &mut [Pass<Kept, H>],
) -> bool {
    match passes {
        [first, second, ..] => {
            asks(rt, hall, first, push_event(alloc, SOURCE_A, b"0123456789a"))
                && is_finished_by(apply(rt, hall, second, Ok(draw(LISTENER))), Rule::Lagged)
        }
        _ => false,
    }
}

/// Does it, by passes that are added. Whether it went as it is to go.
pub fn are_together<H: Origin + Send + Sync, R: Threads + Wait + Clock + Sync>(
    rt: &R,
    alloc: Global,
    hall: &Hall<Kept, H>,
    passes: &mut Vec<Pass<Kept, H>>,
    together: Together,
) -> bool {
    for _ in 0..together.passes() {
        if !takes_pass(rt, hall, passes) {
            return false;
        }
    }
    let Some((first, others)) = passes.as_mut_slice().split_first_mut() else {
        return false;
    };
    match together {
        Together::Moves => {
            let come = come(rt, alloc, hall, first, "/a");
            run_three(rt, alloc, hall, others);
            come
        }
        Together::Scattered => {
            scatter_together(rt, alloc, hall, others, false);
            true
        }
        Together::ScatteredWithFallbacks => {
            scatter_together(rt, alloc, hall, others, true);
            true
        }
        Together::FreezesMount => {
            come(rt, alloc, hall, first, "/b")
                && is_answered(
                    rt,
                    alloc,
                    hall,
                    others,
                    MountName::read(b"/a"),
                    Meanwhile::Draws,
                )
        }
        Together::FreezesBesideWalk => {
            come(rt, alloc, hall, first, "/b")
                && asks(rt, hall, first, Ok(arrival()))
                && is_answered(
                    rt,
                    alloc,
                    hall,
                    others,
                    MountName::read(b"/a"),
                    Meanwhile::Hears,
                )
        }
        Together::FreezesControl => {
            come(rt, alloc, hall, first, "/b")
                && is_answered(rt, alloc, hall, others, None, Meanwhile::Draws)
        }
        Together::Kills => {
            come(rt, alloc, hall, first, "/a") && is_finished(rt, alloc, hall, others)
        }
        Together::Lags => {
            come(rt, alloc, hall, first, "/a") && is_left_behind(rt, alloc, hall, others)
        }
    }
}

#[test]
fn moved_between_threads(rt: HostRuntime) {
    assert!(rt; is_well_visited(&rt, "", Visit::Together(Together::Moves)));
}

#[test]
fn scattered_between_threads(rt: HostRuntime) {
    assert!(rt; is_well_visited(&rt, RING, Visit::Together(Together::Scattered)));
    assert!(rt; is_well_visited(&rt, RING, Visit::Together(Together::ScatteredWithFallbacks)));
}

#[test]
fn freeze(rt: HostRuntime) {
    assert!(rt; is_well_visited(&rt, "", Visit::Together(Together::FreezesMount)));
    assert!(rt; is_well_visited(&rt, "", Visit::Together(Together::FreezesBesideWalk)));
    assert!(rt; is_well_visited(&rt, "", Visit::Together(Together::FreezesControl)));
}

#[test]
fn lags_before_the_control_knows(rt: HostRuntime) {
    assert!(rt; is_well_visited(&rt, SHORT_QUEUE, Visit::Together(Together::Lags)));
}

#[test]
fn draws_with_an_old_grant(rt: HostRuntime) {
    assert!(rt; is_well_visited(&rt, "", Visit::Together(Together::Kills)));
}
