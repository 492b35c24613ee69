//! Moments from which a line's patience and its lingering count, to the millisecond.

use test_stations::{
    BYTE_BY_BYTE, HEARD, LISTENER, LONG_TIMEOUT, Look, Manners, SILENT, SOURCE, SOURCE_ANSWER,
    SOURCE_HEAD, Step, are_played,
};

/// Each byte that is taken begins the patience of ten seconds anew: it is there after a minute.
const TAKES_A_BYTE_NOW_AND_THEN: &[Step] = &[
    Step::Comes(SOURCE, 0),
    Step::Turns(1, 1, 2),
    Step::Comes(BYTE_BY_BYTE, 2),
    Step::Turns(3, 6000, 10),
    Step::Clients(&[1, 2]),
    Step::Shows(1, Look::Took(b"HTTP/1.0 2")),
];

// rule: Cut off
#[test]
fn a_byte_begins_the_patience_anew(rt: HostRuntime) {
    assert!(rt; are_played(rt.alloc(), LONG_TIMEOUT, TAKES_A_BYTE_NOW_AND_THEN));
}

/// A source whose second block comes in its eighth turn.
const SECOND_BLOCK_LATE: Manners = Manners {
    gives: &[SOURCE_HEAD, b"abcdefgh", b"", b"", b"", b"", b"", b"ijkl"],
    ..SILENT
};

/// A listener whose line takes its head and the first block, and then nothing for good.
const STALLED_LATE: Manners = Manners {
    stalls_at: 1,
    ..LISTENER
};

/// If nothing was pending for a listener for half a minute, the patience counts from when something is. The listener
/// is still there a millisecond before its patience is over.
const OWED_NOTHING: &[Step] = &[
    Step::Comes(SECOND_BLOCK_LATE, 0),
    Step::Turns(1, 1, 2),
    Step::Comes(STALLED_LATE, 2),
    Step::Turns(3, 6000, 6),
    Step::Shows(1, Look::Took(HEARD)),
    Step::Turns(40_002, 1, 1),
    Step::Clients(&[1, 2]),
];

// rule: Cut off
#[test]
fn patience_counts_from_what_is_owed(rt: HostRuntime) {
    assert!(rt; are_played(rt.alloc(), LONG_TIMEOUT, OWED_NOTHING));
}

/// And then it is not.
const OWED_FOR_TEN_SECONDS: &[Step] = &[
    Step::Comes(SECOND_BLOCK_LATE, 0),
    Step::Turns(1, 1, 2),
    Step::Comes(STALLED_LATE, 2),
    Step::Turns(3, 6000, 6),
    Step::Turns(40_003, 1, 1),
    Step::Clients(&[1]),
];

// rule: Cut off
#[test]
fn patience_ends_then(rt: HostRuntime) {
    assert!(rt; are_played(rt.alloc(), LONG_TIMEOUT, OWED_FOR_TEN_SECONDS));
}

/// A client that asks for a mount that does not exist, and sends more.
const DENIED: Manners = Manners {
    gives: &[b"GET /z HTTP/1.0\r\n\r\n", b"and more"],
    ..SILENT
};

/// It is closed for writing in the second turn. It lingers for a second from then on.
const LINGERS: &[Step] = &[
    Step::Comes(DENIED, 0),
    Step::Turns(1, 1, 1),
    Step::Shows(0, Look::Open),
    Step::Turns(2, 1, 1),
    Step::Shows(0, Look::FinishedBehind(b"denied: no-mount\n")),
    Step::Turns(1001, 1, 1),
    Step::Clients(&[1]),
    Step::Turns(1002, 1, 1),
    Step::Clients(&[]),
];

// rule: Lingering
#[test]
fn one_lingers_for_a_second(rt: HostRuntime) {
    assert!(rt; are_played(rt.alloc(), "", LINGERS));
}

/// The same, and its peer closes at the third read.
const DENIED_AND_CLOSES: Manners = Manners {
    closes_at: 2,
    ..DENIED
};

/// It lingers until then.
const CLOSES: &[Step] = &[
    Step::Comes(DENIED_AND_CLOSES, 0),
    Step::Turns(1, 1, 2),
    Step::Clients(&[1]),
    Step::Turns(3, 1, 1),
    Step::Clients(&[]),
];

// rule: Lingering
#[test]
fn one_lingers_until_his_peer_closes(rt: HostRuntime) {
    assert!(rt; are_played(rt.alloc(), "", CLOSES));
}

/// A client without a seat is asked for half a second after the worker last asked for it, and not before. It
/// learns then that it was finished, and is closed a turn later.
const ASKED_FOR: &[Step] = &[
    Step::Comes(SILENT, 0),
    Step::Quiet(2600, 1, 1),
    Step::Quiet(3000, 99, 2),
    Step::Quiet(3100, 1, 1),
    Step::Clients(&[1]),
    Step::Quiet(3101, 1, 1),
    Step::Clients(&[]),
];

// rule: Drawing
#[test]
fn one_is_asked_for_after_half_a_second(rt: HostRuntime) {
    assert!(rt; are_played(rt.alloc(), "[limits]\nheader-timeout = 3\n", ASKED_FOR));
}

/// A client that says nothing reads within half a second by which rule it was finished.
const FINISHED: &[Step] = &[
    Step::Comes(SILENT, 0),
    Step::Quiet(0, 500, 7),
    Step::Clients(&[1]),
    Step::Quiet(3500, 500, 2),
    Step::Clients(&[]),
];

// rule: Drawing
#[test]
fn who_says_nothing_is_asked_for(rt: HostRuntime) {
    assert!(rt; are_played(rt.alloc(), "[limits]\nheader-timeout = 3\n", FINISHED));
}
