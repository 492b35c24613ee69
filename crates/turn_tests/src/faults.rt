//! Lines that fail, at each call; denials; and memory that is refused.

use std::alloc::Global;
use test_stations::{
    BEHIND_A_SOURCE, Beside, Failure, HEARD, INTERVAL, LINE_CALLS, LISTENER, Look, Manners,
    Meddling, NIGHT, NO_MEDDLING, PLAIN, SERVED_SOURCE, SILENT, SOURCE, SOURCE_ANSWER, Step,
    TITLED, are_played, failing, is_refused, make_station,
};

const WITH_TITLE: &Beside = &Beside {
    settings: INTERVAL,
    before: SERVED_SOURCE,
    failing: TITLED,
    comes_at_ms: 2,
    after: &[
        Step::Comes(TITLED, 2),
        Step::Turns(3, 1, 1),
        Step::Shows(1, Look::TookFront(NIGHT)),
        Step::Turns(4, 1, LINE_CALLS),
        Step::Clients(&[1, 3]),
        Step::Shows(0, Look::Took(SOURCE_ANSWER)),
        Step::Shows(1, Look::Took(NIGHT)),
    ],
};

/// The first client's mount has a title.
const WITH_NIGHT: Meddling = Meddling {
    has_title: true,
    ..NO_MEDDLING
};

fn others_are_served(alloc: Global, beside: &Beside, manners: Manners) -> bool {
    match make_station(alloc, beside.settings, WITH_NIGHT) {
        Ok(mut station) => {
            let played = beside.is_played(&mut station, manners);
            drop(station);
            played
        }
        Err(_) => false,
    }
}

/// Whether the others are served wherever that line fails.
fn are_served_at_each_call(alloc: Global, beside: &Beside, failure: Failure) -> bool {
    for call in 0..LINE_CALLS {
        if !others_are_served(alloc, beside, failing(beside.failing, failure, call)) {
            return false;
        }
    }
    true
}

/// The failing connections, and how they fail.
const FAILURES: &[(&Beside, Failure)] = &[
    (PLAIN, Failure::Fault),
    (WITH_TITLE, Failure::Fault),
    (PLAIN, Failure::Closing),
    (WITH_TITLE, Failure::Closing),
    (BEHIND_A_SOURCE, Failure::Fault),
    (BEHIND_A_SOURCE, Failure::Closing),
];

/// Returns whether the others are served, whichever connection fails, and in whichever way.
fn are_served_at_each_failure(alloc: Global) -> bool {
    for (beside, failure) in FAILURES {
        if !are_served_at_each_call(alloc, beside, *failure) {
            return false;
        }
    }
    true
}

/// A fault of a listener's line, or its closing, is its alone; behind a source that fails it ends.
// rule: Other clients; Cut off; Lingering; Closed by the peer
#[test]
fn a_fault_is_his_alone(rt: HostRuntime) {
    assert!(rt; are_served_at_each_failure(rt.alloc()));
}

/// A listener whose peer closes behind its head.
const CLOSES: Manners = Manners {
    closes_at: 1,
    ..LISTENER
};

/// It gets what there is, and has left a turn later.
const LEFT: &[Step] = &[
    Step::Comes(SOURCE, 0),
    Step::Turns(1, 1, 2),
    Step::Comes(CLOSES, 2),
    Step::Turns(3, 1, 1),
    Step::Shows(1, Look::Took(HEARD)),
    Step::Turns(4, 1, 1),
    Step::Clients(&[1]),
];

// rule: Closed by the peer
#[test]
fn a_peer_who_closes_is_left(rt: HostRuntime) {
    assert!(rt; are_played(rt.alloc(), "", LEFT));
}

/// What a client reads if there are clients enough.
const FULL_SERVER: &[u8] =
    b"HTTP/1.0 403 Forbidden\r\nContent-Type: text/plain; charset=utf-8\r\nContent-Length: 25\r\nConnection: close\r\n\r\ndenied: too-many-clients\n";

/// A server with one client, and another that comes: it reads that and is closed, and the first stays.
const FULL: &[Step] = &[
    Step::Comes(SOURCE, 0),
    Step::Turns(1, 1, 2),
    Step::Comes(LISTENER, 2),
    Step::Turns(3, 1, 2),
    Step::Shows(1, Look::Took(FULL_SERVER)),
    Step::Shows(0, Look::Took(SOURCE_ANSWER)),
    Step::Turns(1500, 1, 1),
    Step::Clients(&[1]),
];

// rule: Connection without memory
#[test]
fn a_full_station(rt: HostRuntime) {
    assert!(rt; are_played(rt.alloc(), "[limits]\nclients = 1\n", FULL));
}

/// A client that asks for a mount that does not exist, and sends more.
const ASKS_FOR_NO_MOUNT: Manners = Manners {
    gives: &[b"GET /z HTTP/1.0\r\n\r\n", b"and more"],
    ..SILENT
};

/// It reads something that names the rule and then that nothing more is written, and it is closed
/// a second later.
const DENIED: &[Step] = &[
    Step::Comes(ASKS_FOR_NO_MOUNT, 0),
    Step::Turns(1, 1, 2),
    Step::Shows(0, Look::FinishedBehind(b"denied: no-mount\n")),
    Step::Turns(1100, 1, 1),
    Step::Clients(&[]),
];

// rule: Greeting of a source; Lingering
#[test]
fn a_denied_one_reads_his_denial(rt: HostRuntime) {
    assert!(rt; are_played(rt.alloc(), "", DENIED));
}

fn refused(alloc: Global, refuses_at: u64) -> bool {
    let meddling = Meddling {
        refuses_at,
        ..NO_MEDDLING
    };
    match make_station(alloc, "", meddling) {
        Ok(mut station) => {
            let held = is_refused(&mut station);
            drop(station);
            held
        }
        Err(_) => false,
    }
}

// rule: Connection without memory
#[test]
fn a_refused_call_closes_that_one_alone(rt: HostRuntime) {
    for refuses_at in 0..LINE_CALLS {
        assert!(rt; refused(rt.alloc(), refuses_at));
    }
}
