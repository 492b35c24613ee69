//! Workers in threads, over a server that admits no client.

ghost use Rattle.std.specs.Prelude.{◌≡◌, ◌<◌, All};
ghost use Rattle.radio_hall.specs.Words.{all_parts};

use crate::loopback::SocketLine;
use radio_addr::Peer;
use radio_core::{Event, OutOfMemory, Reply};
use radio_hall::{
    Intake, IntakePass, Log, OpenGate, Seen, SharedServer, Turn, TurnSource, TurnStart, WebAnswers,
    WorkerSlot, Workplace, add_slot, run_workers,
};
use radio_policy::Rule;
use radio_settings::MountName;
use std::alloc::{AllocGlobal, Global};
use std::sync::Wait;
use std::thread::Threads;

/// A server that admits no client.
#[derive(Drop)]
struct Closed {
    alloc: Global,
}

impl SharedServer for Closed {
    type Pass = u64;

    ghost steps = { λ from event reply to. Unit {0} };

    ghost refuses = { λ from event. Unit {0} };

    fn pass<R: Wait>(&self, _rt: &R) -> Option<u64> {
        Some(0)
    }

    fn apply<R: Wait>(&self, _rt: &R, pass: &mut u64, event: Event) -> Result<Reply, OutOfMemory> {
        drop(event);
        *pass = pass.saturating_add(1);
        Ok(Reply::Deny(Rule::TooManyClients))
    }

    fn last_mount<R: Wait>(&self, _rt: &R, _id: u64) -> Option<MountName> {
        None
    }

    fn wanted<R: Wait>(&self, _rt: &R) -> Result<Vec<MountName>, OutOfMemory> {
        Ok(Vec::new(self.alloc))
    }
}

/// Turns in each millisecond, before each of which one connection is taken, which is closed.
#[derive(Drop)]
struct Closes {
    ms: u64,
    /// How many were closed.
    closed: u64,
}

impl TurnSource<u64, SocketLine> for Closes {
    fn next(&mut self, _log: &Log) -> Option<TurnStart> {
        self.ms = self.ms.saturating_add(1);
        Some(TurnStart {
            turn: Turn {
                ms: self.ms,
                news: false,
                clock_ms: 0,
            },
            newcomers: 1,
        })
    }

    fn open(&mut self, _coming: u64) -> Option<(SocketLine, Peer)> {
        self.closed = self.closed.saturating_add(1);
        None
    }

    fn most_lingering(&mut self, lingering: usize) -> usize {
        lingering
    }

    fn begins_round(&mut self, has_news: bool, _brings: bool) -> bool {
        has_news
    }

    fn note(&mut self, _seen: Seen, log: &Log) {
        drop(log.take());
    }
}

/// A worker makes so many turns. How many connections it has closed.
fn count_closed<R: Threads + Wait + Sync>(
    rt: &R,
    alloc: Global,
    intake: &Intake<u64>,
    seats: &mut [WorkerSlot<u64, u64, Closes>],
) -> u64
    requires seats { All (λ seat. seat.intake_pass.intake ≡ intake.now) seats.old }
{
    let server = Closed { alloc };
    let place = Workplace {
        server: &server,
        intake,
        gate: &OpenGate,
        web: WebAnswers::none(),
        log_polls: false,
        patience_s: 10,
        turns: 3,
    };
    run_workers::<R, Closed, u64, SocketLine, Closes, OpenGate>(rt, alloc, &place, seats);
    match seats {
        [seat] => seat.turn_source.closed,
        _ => 0,
    }
}

/// Whether a worker takes both connections that wait.
fn takes_both<R: Threads + Wait + Sync>(
    rt: &R,
    alloc: Global,
    intake: &Intake<u64>,
    pass: &mut IntakePass<u64>,
) -> bool
    requires own { pass.old.intake ≡ intake.now }
    requires parts { pass.old.parts ≡ all_parts }
{
    let are_put = intake.put(rt, pass, 1).is_ok() && intake.put(rt, pass, 2).is_ok();
    let mut seats = Vec::new(alloc);
    let turn_source = Closes { ms: 0, closed: 0 };
    if add_slot(&mut seats, intake, pass, Some(0), turn_source).is_err() {
        return false;
    }
    are_put && count_closed(rt, alloc, intake, seats.as_mut_slice()) == 2
}

fn are_taken<R: Threads + Wait + Sync>(rt: &R, alloc: Global) -> bool {
    match Intake::new(alloc) {
        Ok((intake, mut pass)) => takes_both(rt, alloc, &intake, &mut pass),
        Err(_) => false,
    }
}

#[test]
fn workers_in_threads(rt: HostRuntime) {
    assert!(rt; are_taken(&rt, rt.alloc()));
}
