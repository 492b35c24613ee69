//! Values that no head can hold, and what is shown of secrets. Pairs and user lists are
//! rows of the end-to-end scripts, and users who change are cases of them.

use radio_creds::{Pair, Users, basic};
use std::alloc::Global;
use std::fmt;
use std::time::{Clock, Instant};

/// Values without a pair: blanks at their ends, which a head's values lose, and a line break.
const NO_PAIRS: &[&[u8]] = &[
    b"Basic ",
    b" Basic YTpi",
    b"Basic YTpi ",
    b"Basic YTpi\r\nYWJj",
];

/// Whether the value has no pair.
fn is_no_pair(alloc: Global, value: &[u8]) -> bool {
    match basic(alloc, value) {
        Ok(found) => found.is_none(),
        Err(_) => false,
    }
}

// rule: Authorization
#[test]
fn values_without_a_pair(rt: HostRuntime) {
    for value in NO_PAIRS {
        assert!(rt; is_no_pair(rt.alloc(), value));
    }
}

/// Whether a value is shown so.
fn is_shown<T: fmt::Debug>(alloc: Global, value: &T, want: &str) -> bool {
    match format!(in alloc; "{value:?}") {
        Ok(shown) => shown.as_str() == want,
        Err(_) => false,
    }
}

/// Whether the copy of a pair has its user and its password.
fn is_copied(pair: &Pair) -> bool {
    match pair.copy() {
        Ok(copy) => copy.user() == pair.user() && copy.password() == pair.password(),
        Err(_) => false,
    }
}

/// Whether this pair is copied, and shows nothing.
fn is_hidden(alloc: Global, pair: &Pair) -> bool {
    is_copied(pair) && is_shown(alloc, pair, "Pair { .. }")
}

/// Whether a pair is read and hidden.
fn is_pair_read(alloc: Global) -> bool {
    match basic(alloc, b"Basic YTpi") {
        Ok(Some(pair)) => is_hidden(alloc, &pair),
        Ok(None) => false,
        Err(_) => false,
    }
}

/// Whether a list of users is read and hidden.
fn are_users_read(alloc: Global) -> bool {
    match Users::read(alloc, b"u:0cc175b9c0f1b6a831c399e269772661\n") {
        Ok(users) => users.has(b"u") && is_shown(alloc, &users, "Users { .. }"),
        Err(_) => false,
    }
}

// rule: Authorization
#[test]
fn no_secret_is_shown(rt: HostRuntime) {
    assert!(rt; is_pair_read(rt.alloc()));
    assert!(rt; are_users_read(rt.alloc()));
}

/// A list of the user `ann`.
const ANN: &[u8] = b"ann:900150983cd24fb0d6963f7d28e17f72\n";

/// The pair whose value begins so, with a password of some 600,000 letters.
fn long_pair(alloc: Global, start: &[u8]) -> Option<Pair> {
    let Ok(mut value) = Vec::from_slice(alloc, start) else {
        return None;
    };
    for _ in 0..200_000 {
        if value.extend_from_slice(b"YWFh").is_err() {
            return None;
        }
    }
    match basic(alloc, value.as_slice()) {
        Ok(pair) => pair,
        Err(_) => None,
    }
}

/// In how many nanoseconds users turn a pair away, the least of some tries; 0 where they accept it.
fn least_time<C: Clock>(clock: &C, users: &Users, pair: &Pair) -> u128 {
    let mut least = u128::MAX;
    for _ in 0..5 {
        let Ok(begins) = Instant::now(clock) else {
            return 0;
        };
        if users.accepts(pair) {
            return 0;
        }
        if let Ok(passed) = begins.elapsed(clock) {
            least = least.min(passed.as_nanos());
        }
    }
    least
}

/// Whether a wrong password is refused as fast for a user of the list as for a stranger.
fn is_time_alike<C: Clock>(clock: &C, alloc: Global) -> bool {
    let (Some(listed), Some(other)) = (
        long_pair(alloc, b"Basic YW5uOmFh"),
        long_pair(alloc, b"Basic Ym9iOmFh"),
    ) else {
        return false;
    };
    let Ok(users) = Users::read(alloc, ANN) else {
        return false;
    };
    let (listed, other) = (
        least_time(clock, &users, &listed),
        least_time(clock, &users, &other),
    );
    0 < listed && listed < other.saturating_mul(2) && other < listed.saturating_mul(2)
}

// rule: User list
// only tested: User list: how long it takes
#[test]
fn unknown_users_take_as_long(rt: HostRuntime) {
    assert!(rt; is_time_alike(&rt, rt.alloc()));
}
