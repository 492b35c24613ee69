//! Why a pull has ended.

ghost use Rattle.std.specs.Prelude.{◌≡◌, ◌-◌, ◌/◌, is_some, not};
ghost use Rattle.radio_tries.specs.Pulls.{EndsBy, is_no_answer, is_late, lost};

use crate::pause::MOST_SILENT_MS;
use radio_connections::Line;
use radio_masters::{MountPull, PullEnd, PullTurn, RelayEnd};

/// Returns why this pull, which began at `began_ms`, has ended with this turn at `ms`, if it has. A relay that is not up has had
/// no answer if its master has closed or is silent for too long.
// rule: Ten seconds
pub fn end_of<L: Line>(
    turn: PullTurn,
    pull: &MountPull<L>,
    began_ms: u64,
    ms: u64,
) -> Option<RelayEnd>
    ensures { EndsBy turn pull.now (is_late began_ms ms) result }
{
    let is_up = pull.number().is_some();
    match turn {
        PullTurn::Running if is_late(began_ms, ms) && !is_up => Some(RelayEnd::NoAnswer),
        PullTurn::Running => None,
        PullTurn::Shut(ending) => Some(RelayEnd::of(ending, pull.status())),
        PullTurn::Closed | PullTurn::Failed => Some(lost(is_up)),
        PullTurn::OutOfMemory => Some(RelayEnd::OutOfMemory),
    }
}

/// Returns why a relay has ended, that was up or not, whose connection is lost.
fn lost(was_up: bool) -> RelayEnd
    ensures { result ≡ lost was_up }
{
    if was_up {
        RelayEnd::Left
    } else {
        RelayEnd::NoAnswer
    }
}

/// Returns whether a master is given up at `ms` of which a relay has asked at `began_ms`, and that has not answered.
fn is_late(began_ms: u64, ms: u64) -> bool
    ensures { result ≡ is_late began_ms ms }
{
    ms.saturating_sub(began_ms) >= MOST_SILENT_MS
}

/// Returns whether no other address of the master is tried after a pull that has ended so: the master has answered, or nothing
/// can be asked.
// rule: Ten seconds
pub fn is_last_pull(why: RelayEnd) -> bool
    ensures { result ≡ not (is_no_answer why) }
{
    !matches!(why, RelayEnd::NoAnswer)
}

/// Returns how a pull has ended at `ms` that began at `began_ms`, for the log.
pub fn pull_end(why: RelayEnd, began_ms: u64, ms: u64) -> PullEnd
    ensures { result ≡ record { why = why; seconds = (ms - began_ms) / 1000; ms = ms } }
{
    PullEnd {
        why,
        seconds: ms.saturating_sub(began_ms) / 1000,
        ms,
    }
}
