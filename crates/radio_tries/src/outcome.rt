//! How the thread of a relay has ended.

ghost use Rattle.std.specs.Prelude.{◌≡◌};
ghost use Rattle.radio_tries.specs.Tries.{due_after, outcome_of};

use crate::pause::{REST_MS, after};
use radio_masters::{Failing, RelayEnd};

/// How the thread of a relay has ended.
#[derive(Clone, Copy, Debug, PartialEq, Eq)]
pub struct RelayOutcome {
    /// Why.
    pub why: RelayEnd,
    /// When, in milliseconds.
    pub ms: u64,
    /// How the relay has failed, if it has since it was up last.
    pub failing: Option<Failing>,
}

impl RelayOutcome {
    /// Returns how the thread of a relay has ended at `ms` whose last pull has ended so. If it was to stop, that is why.
    pub fn of(is_stopped: bool, why: RelayEnd, ms: u64, failing: Option<Failing>) -> RelayOutcome
        ensures { result ≡ outcome_of is_stopped why ms failing }
    {
        RelayOutcome {
            why: if is_stopped { RelayEnd::NotWished } else { why },
            ms,
            failing,
        }
    }

    /// Returns from which moment on the relay may be tried again, in milliseconds: at once if it was not wished any more and is
    /// wished again, else after a rest.
    pub fn due_ms(self) -> u64
        ensures { result ≡ due_after self }
    {
        if matches!(self.why, RelayEnd::NotWished) {
            0
        } else {
            after(self.ms, REST_MS)
        }
    }
}
