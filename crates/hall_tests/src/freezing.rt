//! A lock that is held while a listener of another mount draws, or a client asks to listen to that mount.

use crate::moving::{LISTENER, asks};
use radio_book::{Kept, Origin, OutOfMemory, Pass};
use radio_connections::Gate;
use radio_events::{Event, SharedServer};
use radio_locks::Hall;
use radio_values::MountName;
use std::alloc::Global;
use std::sync::Wait;
use std::sync::atomic::{AtomicBool, Ordering};
use std::thread;
use std::thread::{Threads, for_each_mut};
use std::time::{Clock, Duration};
use test_calls::{draw, listen_event};

/// How often a thread sleeps for a millisecond before it gives up.
const MOST_SLEEPS: u32 = 10_000;

/// A gate that is held until the others have let it go, or a while has passed.
#[derive(Drop)]
struct Frozen<'a, R: Clock> {
    rt: &'a R,
    alloc: Global,
    meanwhile: Meanwhile,
    is_held: AtomicBool,
    may_go: AtomicBool,
    has_waited: AtomicBool,
}

impl<R: Clock> Frozen<'_, R> {
    /// Whether the flag is set before a while has passed.
    fn waits_for(&self, flag: &AtomicBool) -> bool {
        for _ in 0..MOST_SLEEPS {
            if flag.load(Ordering::SeqCst) {
                return true;
            }
            thread::sleep(self.rt, Duration::from_millis(1));
        }
        false
    }
}

impl<R: Clock> Gate for Frozen<'_, R> {
    fn hold(&self, _id: u64) {
        self.is_held.store(true, Ordering::SeqCst);
        self.has_waited
            .store(self.waits_for(&self.may_go), Ordering::SeqCst);
    }

    fn let_go(&self, _id: u64) {}
}

/// A server of which a lock can be held meanwhile.
trait Lockable: SharedServer {
    /// Holds the lock of this mount, or the control's, through this gate.
    fn hold_lock<R: Wait, G: Gate>(&self, rt: &R, mount: Option<MountName>, gate: &G);
}

impl<H: Origin> Lockable for Hall<Kept, H> {
    fn hold_lock<R: Wait, G: Gate>(&self, rt: &R, mount: Option<MountName>, gate: &G) {
        self.freeze(rt, mount, gate);
    }
}

/// What is done while the lock is held.
#[derive(Clone, Copy)]
pub enum Meanwhile {
    /// The listener draws.
    Draws,
    /// The next client asks to listen to `/b`.
    Hears,
}

impl Meanwhile {
    fn event(self, alloc: Global) -> Result<Event, OutOfMemory> {
        match self {
            Meanwhile::Draws => Ok(draw(LISTENER)),
            Meanwhile::Hears => listen_event(alloc, LISTENER + 1, "/b"),
        }
    }
}

/// What the thread of this number does: the first holds the lock, the second does that meanwhile, and lets it go then.
fn freeze_or_ask<S: Lockable, R: Wait + Clock>(
    rt: &R,
    hall: &S,
    pass: &mut S::Pass,
    frozen: &Frozen<'_, R>,
    mount: Option<MountName>,
    number: usize,
) {
    if number == 0 {
        hall.hold_lock(rt, mount, frozen);
        return;
    }
    let event = frozen.meanwhile.event(frozen.alloc);
    if frozen.waits_for(&frozen.is_held) && asks(rt, hall, pass, event) {
        frozen.may_go.store(true, Ordering::SeqCst);
    }
}

/// Two threads do so. Whether that was answered while the lock was held.
fn is_answered_meanwhile<R, S>(
    rt: &R,
    alloc: Global,
    hall: &S,
    passes: &mut [S::Pass],
    mount: Option<MountName>,
    meanwhile: Meanwhile,
) -> bool
where
    R: Threads + Wait + Clock + Sync,
    S: Lockable + Sync,
    S::Pass: Send,
{
    let frozen = Frozen {
        rt,
        alloc,
        meanwhile,
        is_held: AtomicBool::new(false),
        may_go: AtomicBool::new(false),
        has_waited: AtomicBool::new(false),
    };
    for_each_mut(
        rt,
        passes,
        2,
        &|number, pass| freeze_or_ask(rt, hall, pass, &frozen, mount, number),
    );
    frozen.has_waited.load(Ordering::SeqCst)
}

/// The listener of `/b` draws once, so that its caller knows its mount. Then that is done while the lock is held.
pub fn is_answered<H: Origin + Send + Sync, R: Threads + Wait + Clock + Sync>(
    rt: &R,
    alloc: Global,
    hall: &Hall<Kept, H>,
    passes: &mut [Pass<Kept, H>],
    mount: Option<MountName>,
    meanwhile: Meanwhile,
) -> bool {
    let Some(drawer) = passes.get_mut(1) else {
        return false;
    };
    asks(rt, hall, drawer, Ok(draw(LISTENER)))
        && is_answered_meanwhile(rt, alloc, hall, passes, mount, meanwhile)
}
