//! How often the log says that a relay fails.

ghost use Rattle.std.specs.Prelude.{◌≡◌, Some};
ghost use Rattle.radio_masters.specs.Failures.{FailureIsNoted, logged_now};

use crate::RelayEnd;

/// For how long a failure that lasts is not logged again, in milliseconds: an hour.
pub const LOGGED_AGAIN_MS: u64 = 3_600_000;

/// A relay that has failed, and may have failed again and again for one reason.
#[derive(Clone, Copy, Debug, PartialEq, Eq)]
pub struct Failing {
    /// Why it has failed last.
    pub why: RelayEnd,
    /// When that was last logged, in milliseconds.
    pub logged_ms: u64,
    /// How often it has failed so since then; a count that has reached 2^64 - 1 stays.
    pub unlogged: u64,
}

/// Notes that a relay has failed for this reason at this moment, in milliseconds. Returns what is known of it from then
/// on, and how often it has failed if that is to be logged; else `None`.
///
/// A failure is logged if it is the first, if its reason is another than before, or if the last line is an hour old.
// rule: Failures of relays
pub fn note_failure(before: Option<Failing>, why: RelayEnd, ms: u64) -> (Failing, Option<u64>)
    ensures { FailureIsNoted before why ms result.0 result.1 }
{
    let Some(failing) = before else {
        return (first_of(why, ms), Some(1));
    };
    if failing.why == why {
        failed_again(failing, ms)
    } else {
        (first_of(why, ms), Some(1))
    }
}

/// The same of a relay that has failed for this reason before.
fn failed_again(failing: Failing, ms: u64) -> (Failing, Option<u64>)
    ensures { FailureIsNoted (Some failing) failing.why ms result.0 result.1 }
{
    let times = failing.unlogged.saturating_add(1);
    if ms.saturating_sub(failing.logged_ms) < LOGGED_AGAIN_MS {
        (
            Failing {
                unlogged: times,
                ..failing
            },
            None,
        )
    } else {
        (first_of(failing.why, ms), Some(times))
    }
}

fn first_of(why: RelayEnd, ms: u64) -> Failing
    ensures { result ≡ logged_now why ms }
{
    Failing {
        why,
        logged_ms: ms,
        unlogged: 0,
    }
}
