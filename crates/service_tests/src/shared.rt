//! How many may linger of two workers, and what becomes of newcomers that no worker takes.

use mio::{Poll, Token, Waker};
use radio_board::{Limits, NotedMoment, Shared, WorkerDesk};
use radio_outlet::start_log;
use std::alloc::Global;
use std::io;
use std::net::Net;
use std::sync::Wait;
use std::thread::Threads;
use std::time::Clock;

/// What two workers share, of whose connections ten may linger, with the wakers of this poll.
fn shared_of<R>(rt: &R, alloc: Global, poll: &Poll) -> Option<Shared>
where
    R: Threads + Wait + Clock + Copy + Drop + Send + 'static,
{
    let mut desks = Vec::new(alloc);
    for _ in 0..2 {
        desks.push(WorkerDesk::new(waker_of(poll)?)).ok()?;
    }
    let log = start_log(rt, alloc, io::sink(), io::sink())?;
    let limits = Limits {
        most_lingering: 10,
        queue_size: 65_536,
    };
    Some(Shared::new(alloc, desks, waker_of(poll)?, limits, log))
}

fn waker_of(poll: &Poll) -> Option<Waker> {
    Waker::new(poll.registry(), Token(0)).ok()
}

/// How many may linger of each worker, where six of each wish to, one worker asking after the other and the first once more.
fn lingering(shared: &Shared) -> Option<[usize; 3]> {
    let (first, second) = (shared.desk(0)?, shared.desk(1)?);
    Some([
        shared.most_lingering(first, 6),
        shared.most_lingering(second, 6),
        shared.most_lingering(first, 6),
    ])
}

/// How many newcomers wait after two were put for a worker that makes no turns, while no other takes any.
fn left_waiting(shared: &Shared) -> Option<usize> {
    shared.desk(1)?.stamp(NotedMoment::Turn, 10_000);
    shared.desk(0)?.send();
    shared.desk(0)?.send();
    shared.move_newcomers();
    Some(shared.newcomers())
}

/// How many newcomers wait for the second worker after two were put for the first, which makes no turns.
fn moved(shared: &Shared) -> Option<usize> {
    shared.desk(1)?.begin(10_000, 0);
    shared.desk(0)?.send();
    shared.desk(0)?.send();
    shared.move_newcomers();
    Some(shared.desk(1)?.report().newcomers)
}

/// Up to which moment the server's time is known after one worker has noted a moment, and another an earlier one.
fn noted(shared: &Shared) -> u64 {
    shared.note_server_time(70);
    shared.note_server_time(50);
    shared.server_time()
}

fn has_come<R: Net>(rt: &R) -> Option<Poll> {
    Poll::new(rt).ok()
}

// rule: Most that linger
#[test]
fn ten_of_two_workers_linger(rt: HostRuntime) {
    let poll = has_come(&rt).expect(&rt, "a poll");
    let shared = shared_of(&rt, rt.alloc(), &poll).expect(&rt, "what is shared");
    assert!(rt; lingering(&shared) == Some([6, 4, 6]));
}

// rule: Server time
#[test]
fn the_latest_time_is_known(rt: HostRuntime) {
    let poll = has_come(&rt).expect(&rt, "a poll");
    let shared = shared_of(&rt, rt.alloc(), &poll).expect(&rt, "what is shared");
    assert!(rt; shared.server_time() == 0 && noted(&shared) == 70);
}

#[test]
fn newcomers_are_not_forgotten(rt: HostRuntime) {
    let poll = has_come(&rt).expect(&rt, "a poll");
    let shared = shared_of(&rt, rt.alloc(), &poll).expect(&rt, "what is shared");
    assert!(rt; left_waiting(&shared) == Some(2));
}

#[test]
fn newcomers_go_to_others(rt: HostRuntime) {
    let poll = has_come(&rt).expect(&rt, "a poll");
    let shared = shared_of(&rt, rt.alloc(), &poll).expect(&rt, "what is shared");
    assert!(rt; moved(&shared) == Some(2));
}
