//! Lines that take little or nothing, and clients that say nothing.

use test_calls::SHORT_QUEUE;
use test_stations::{
    BYTE_BY_BYTE, CLOSED, CLOSES_WHILE_OWED, HEARD, KEPT, LAGS, LISTENER, Look, Manners, ONE_BLOCK,
    SILENT, SOURCE, SOURCE_ANSWER, SOURCE_HEAD, STALLED_FOR_FOUR, Step, are_played,
};

const A_BYTE_A_TURN: &[Step] = &[
    Step::Comes(SOURCE, 0),
    Step::Turns(1, 1, 2),
    Step::Comes(BYTE_BY_BYTE, 2),
    Step::Turns(3, 1, 80),
    Step::Shows(0, Look::Took(SOURCE_ANSWER)),
    Step::Shows(1, Look::Took(HEARD)),
];

/// A line that takes one byte in a write takes all, in as many turns.
// rule: Pending bytes first
#[test]
fn a_byte_a_turn(rt: HostRuntime) {
    assert!(rt; are_played(rt.alloc(), "", A_BYTE_A_TURN));
}

// rule: Cut off
#[test]
fn a_stalled_line_is_kept_for_the_source_timeout(rt: HostRuntime) {
    assert!(rt; are_played(rt.alloc(), "", KEPT));
}

// rule: Cut off
#[test]
fn a_stalled_line_is_closed_then(rt: HostRuntime) {
    assert!(rt; are_played(rt.alloc(), "", CLOSED));
}

/// Sources whose last blocks come when their listeners have got the first.
const TWO_MORE: Manners = Manners {
    gives: &[SOURCE_HEAD, b"abcd", b"", b"efgh", b"ijkl"],
    ..SILENT
};

/// What a listener gets of these bytes.
const THREE_BLOCKS: &[u8] =
    b"HTTP/1.0 200 OK\r\nContent-Type: audio/mpeg\r\nConnection: close\r\n\r\nabcdefghijkl";

/// A listener that is two blocks behind gets them once its line takes again. Another gets all meanwhile.
const FALLS_BEHIND: &[Step] = &[
    Step::Comes(TWO_MORE, 0),
    Step::Turns(1, 1, 2),
    Step::Comes(STALLED_FOR_FOUR, 2),
    Step::Comes(LISTENER, 2),
    Step::Turns(3, 1, 4),
    Step::Shows(1, Look::Took(b"")),
    Step::Shows(2, Look::Took(THREE_BLOCKS)),
    Step::Turns(100, 1, 1),
    Step::Shows(1, Look::Took(THREE_BLOCKS)),
    Step::Shows(0, Look::Took(SOURCE_ANSWER)),
];

// rule: Pending bytes first
#[test]
fn a_stalled_listener_falls_behind(rt: HostRuntime) {
    assert!(rt; are_played(rt.alloc(), SHORT_QUEUE, FALLS_BEHIND));
}

/// The listener gets them in a turn without news too, since there was news while its line took nothing.
const CATCHES_UP: &[Step] = &[
    Step::Comes(TWO_MORE, 0),
    Step::Turns(1, 1, 2),
    Step::Comes(STALLED_FOR_FOUR, 2),
    Step::Turns(3, 1, 4),
    Step::Shows(1, Look::Took(b"")),
    Step::Quiet(100, 1, 1),
    Step::Shows(1, Look::Took(THREE_BLOCKS)),
];

// rule: Drawing
#[test]
fn a_stalled_listener_catches_up(rt: HostRuntime) {
    assert!(rt; are_played(rt.alloc(), SHORT_QUEUE, CATCHES_UP));
}

/// A seated listener draws at once, and its line learns what is wanted of it. Then it draws nothing
/// without news, up to half a second after its last draw.
const WITHOUT_NEWS: &[Step] = &[
    Step::Comes(TWO_MORE, 0),
    Step::Quiet(1, 1, 2),
    Step::Comes(LISTENER, 2),
    Step::Quiet(3, 1, 4),
    Step::Shows(1, Look::PassedOver),
    Step::Shows(1, Look::Took(ONE_BLOCK)),
    Step::Quiet(502, 1, 1),
    Step::Shows(1, Look::Took(ONE_BLOCK)),
    Step::Quiet(503, 1, 1),
    Step::Shows(1, Look::Took(THREE_BLOCKS)),
];

// rule: Drawing
#[test]
fn without_news_a_listener_waits(rt: HostRuntime) {
    assert!(rt; are_played(rt.alloc(), "", WITHOUT_NEWS));
}

// rule: Pending bytes first
#[test]
fn a_stalled_listener_lags(rt: HostRuntime) {
    assert!(rt; are_played(rt.alloc(), SHORT_QUEUE, LAGS));
}

// rule: Pending bytes first
#[test]
fn one_who_closes_while_he_is_owed(rt: HostRuntime) {
    assert!(rt; are_played(rt.alloc(), "", CLOSES_WHILE_OWED));
}

/// A source that falls silent is there up to its timeout of ten seconds, for a turn each second.
const SILENT_SOURCE: &[Step] = &[
    Step::Comes(SOURCE, 0),
    Step::Turns(1, 1, 2),
    Step::Turns(1000, 1000, 9),
    Step::Shows(0, Look::Open),
];

#[test]
fn a_silent_source_stays(rt: HostRuntime) {
    assert!(rt; are_played(rt.alloc(), "", SILENT_SOURCE));
}

/// It reads of its end within a second, and is closed a second later.
const ENDED_SOURCE: &[Step] = &[
    Step::Comes(SOURCE, 0),
    Step::Turns(1, 1, 2),
    Step::Turns(1000, 1000, 11),
    Step::Shows(0, Look::FinishedBehind(SOURCE_ANSWER)),
    Step::Turns(12_000, 1000, 1),
    Step::Clients(&[]),
];

// rule: Finishes are silent
#[test]
fn a_silent_source_hears_of_its_end(rt: HostRuntime) {
    assert!(rt; are_played(rt.alloc(), "", ENDED_SOURCE));
}

const SHORT_TIMEOUT: &str = "[limits]\nheader-timeout = 3\n";

/// A client that says nothing is still there before the header timeout.
const SAYS_NOTHING: &[Step] = &[
    Step::Comes(SILENT, 0),
    Step::Turns(0, 500, 6),
    Step::Clients(&[1]),
];

#[test]
fn one_who_says_nothing_stays(rt: HostRuntime) {
    assert!(rt; are_played(rt.alloc(), SHORT_TIMEOUT, SAYS_NOTHING));
}

/// Its time is over in the turn at three seconds, and in the next it is closed: nothing was written.
const SAID_NOTHING: &[Step] = &[
    Step::Comes(SILENT, 0),
    Step::Turns(0, 500, 8),
    Step::Clients(&[]),
];

// rule: Drawing
#[test]
fn one_who_says_nothing_is_closed(rt: HostRuntime) {
    assert!(rt; are_played(rt.alloc(), SHORT_TIMEOUT, SAID_NOTHING));
}
