//! A listener that fails, and one that has no descriptor for anybody: when they are tried, and when they are given up.

ghost use Rattle.std.specs.Prelude.{⊤};

use radio_workers::{AcceptResult, Accepts, Entrance, accept_next};

/// A listener that fails so many times, and then gives one connection after another. It counts how
/// often it was asked.
#[derive(Drop)]
struct Failing {
    failures: u64,
    asked: u64,
}

impl Entrance<u64> for Failing {
    ghost accepts = { λ _ _ _. ⊤ };

    fn accept(&mut self) -> AcceptResult<u64> {
        self.asked = self.asked.saturating_add(1);
        if self.asked <= self.failures {
            AcceptResult::Failed
        } else {
            AcceptResult::One(self.asked)
        }
    }
}

/// One that has no descriptor for anybody.
#[derive(Drop)]
struct Short {
    asked: u64,
}

impl Entrance<u64> for Short {
    ghost accepts = { λ _ _ _. ⊤ };

    fn accept(&mut self) -> AcceptResult<u64> {
        self.asked = self.asked.saturating_add(1);
        AcceptResult::NoDescriptor
    }
}

/// The result of a try in each millisecond from the first on, up to the last or a fault; and when
/// the fault came.
fn tries<E: Entrance<u64>>(
    entrance: &mut E,
    accepts: &mut Accepts,
    first_ms: u64,
    last_ms: u64,
) -> Option<u64> {
    for ms in first_ms..last_ms {
        if accept_next(entrance, accepts, ms).is_err() {
            return Some(ms);
        }
    }
    None
}

/// A thousand tries in a second are ten of the listener, and the station goes on.
#[test]
fn one_try_in_a_tenth_of_a_second(rt: HostRuntime) {
    let mut listener = Failing {
        failures: u64::MAX,
        asked: 0,
    };
    let mut accepts = Accepts::new();
    assert!(rt; tries(&mut listener, &mut accepts, 0, 1000).is_none());
    assert!(rt; listener.asked == 10);
}

/// The hundredth failure in a row comes after 9.9 seconds, and is the end.
// rule: Failed accepts
// only tested: Failed accepts: that who comes then waits
#[test]
fn a_hundred_failures_end_it(rt: HostRuntime) {
    let mut listener = Failing {
        failures: u64::MAX,
        asked: 0,
    };
    let mut accepts = Accepts::new();
    assert!(rt; tries(&mut listener, &mut accepts, 0, 20_000) == Some(9_900));
    assert!(rt; listener.asked == 100);
}

/// After 99 failures a connection is accepted, and the count begins anew.
#[test]
fn ninety_nine_failures_do_not(rt: HostRuntime) {
    let mut listener = Failing {
        failures: 99,
        asked: 0,
    };
    let mut accepts = Accepts::new();
    assert!(rt; tries(&mut listener, &mut accepts, 0, 9_899).is_none());
    assert!(rt;
        matches!(
            accept_next(&mut listener, &mut accepts, 9_900),
            Ok(Some(100))
        )
    );
}

/// If no descriptor is left nothing ends, however long that lasts. A connection that closes is
/// followed by a try at once.
// rule: Failed accepts
#[test]
fn want_of_descriptors_is_no_failure(rt: HostRuntime) {
    let mut listener = Short { asked: 0 };
    let mut accepts = Accepts::new();
    assert!(rt; tries(&mut listener, &mut accepts, 0, 20_000).is_none());
    assert!(rt; listener.asked == 200);
    accepts.note_closed();
    assert!(rt; tries(&mut listener, &mut accepts, 19_950, 19_951).is_none());
    assert!(rt; listener.asked == 201);
}
