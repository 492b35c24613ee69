//! A line that fails next to others, and memory that is refused.

use crate::clients::{HEARD, LATE_LISTENER, LISTENER, SOURCE, SOURCE_ANSWER};
use crate::memory_line::{Look, Manners};
use crate::station::Station;
use crate::steps::Step;
use radio_serving::Server;

/// How a line fails, at a call that is counted from 0.
#[derive(Clone, Copy)]
pub enum Failure {
    /// Each of its calls counts, reads and writes together: that one fails.
    Fault,
    /// Its reads count: at that one its peer has closed.
    Closing,
}

/// How many calls a line of these tests sees at most.
pub const LINE_CALLS: u64 = 12;

/// Returns a line of these manners that fails so.
pub fn failing(manners: Manners, failure: Failure, call: u64) -> Manners {
    match failure {
        Failure::Fault => Manners {
            fails_at: call,
            ..manners
        },
        Failure::Closing => Manners {
            closes_at: call,
            ..manners
        },
    }
}

/// A station with these settings more at which one comes whose line fails, and what happens before
/// and after that.
pub struct Beside {
    pub settings: &'static str,
    pub before: &'static [Step],
    pub failing: Manners,
    pub comes_at_ms: u64,
    pub after: &'static [Step],
}

impl Beside {
    /// Plays all of that at the station, with one of these manners for the failing connection. Returns whether it could be
    /// played.
    pub fn is_played<S: Server + Drop>(&self, station: &mut Station<S>, manners: Manners) -> bool {
        station.plays(self.before)
            && station.comes(manners, self.comes_at_ms)
            && station.plays(self.after)
    }
}

/// A source is served.
pub const SERVED_SOURCE: &[Step] = &[Step::Comes(SOURCE, 0), Step::Turns(1, 1, 2)];

/// A source, a listener that fails, and another listener. The other one gets all, and the source is unchanged. The
/// failing listener took a front of the bytes, and is gone.
pub const PLAIN: &Beside = &Beside {
    settings: "",
    before: SERVED_SOURCE,
    failing: LISTENER,
    comes_at_ms: 2,
    after: &[
        Step::Comes(LISTENER, 2),
        Step::Turns(3, 1, 1),
        Step::Shows(1, Look::TookFront(HEARD)),
        Step::Turns(4, 1, LINE_CALLS),
        Step::Clients(&[1, 3]),
        Step::Shows(0, Look::Took(SOURCE_ANSWER)),
        Step::Shows(1, Look::Took(HEARD)),
    ],
};

/// A source that fails, and a listener. The source is gone, and the listener has ended.
pub const BEHIND_A_SOURCE: &Beside = &Beside {
    settings: "",
    before: &[],
    failing: SOURCE,
    comes_at_ms: 0,
    after: &[
        Step::Comes(LATE_LISTENER, 0),
        Step::Turns(1, 1, LINE_CALLS),
        Step::Clients(&[2]),
        Step::Turns(2000, 1000, 3),
        Step::Clients(&[]),
    ],
};

/// A connection comes. Returns whether it was taken in, or memory was refused and the others are unchanged.
fn comes<S: Server + Drop>(station: &mut Station<S>, manners: Manners, ms: u64) -> bool {
    let before = station.count();
    let came = station.comes(manners, ms);
    station.count() == before.saturating_add(came as usize)
}

/// Returns whether the source read the same, if it is there.
fn source_was_told<S: Server + Drop>(station: &Station<S>) -> bool {
    station.is_of(&[]) || station.is_of(&[2]) || station.shows(0, Look::Took(SOURCE_ANSWER))
}

/// Serves a source and a listener over a server that is refused memory at one call. Returns whether no more than one of them
/// is gone, and the source read the same.
pub fn is_refused<S: Server + Drop>(station: &mut Station<S>) -> bool {
    let source = comes(station, SOURCE, 0);
    let was_in = station.is_of(&[1]);
    station.turns(1, 1, 2, true);
    let listener = comes(station, LISTENER, 2);
    station.turns(3, 1, 3, true);
    source && listener && (!was_in || source_was_told(station))
}
