//! For how long threads of relays wait.

ghost use Rattle.std.specs.Prelude.{◌≡◌, ◌*◌};
ghost use Rattle.radio_connections.specs.Moments.{later};
ghost use Rattle.radio_tries.specs.Pauses.{pause_at};

/// For how long a relay rests after a pull has ended, in milliseconds.
pub const REST_MS: u64 = 5000;

/// For how long a master has answered nothing until it is given up, in milliseconds: the system's connecting and the
/// request count too.
pub const MOST_SILENT_MS: u64 = 10_000;

/// For how long a thread waits at once, in milliseconds: as often it looks whether it is to stop.
const MOST_WAIT_MS: u64 = 500;

/// What a thread does that waits until a moment.
#[derive(Clone, Copy, Debug, PartialEq, Eq)]
pub enum Pause {
    /// It ends, since it is to stop.
    Stops,
    /// It goes on, since the moment has come.
    Past,
    /// It waits for so many milliseconds, and looks again.
    Waits(u64),
}

/// Returns the moment that is `more_ms` after `ms`, in milliseconds; the last of all if there is none.
pub fn after(ms: u64, more_ms: u64) -> u64
    ensures { result ≡ later ms more_ms }
{
    ms.saturating_add(more_ms)
}

/// Returns when a list is asked for again that was asked for at `ms`, in milliseconds, once in so many seconds.
// rule: List of a slave
pub fn list_due_ms(ms: u64, interval_s: u32) -> u64
    ensures { result ≡ later ms (interval_s * 1000) }
{
    after(ms, interval_s as u64 * 1000)
}

/// Returns what a thread does at `ms` that waits until `until_ms`, in milliseconds, and is to stop or not.
// rule: Ten seconds; List of a slave; Failed list
pub fn pause_at(is_stopped: bool, ms: u64, until_ms: u64) -> Pause
    ensures { result ≡ pause_at is_stopped ms until_ms }
{
    if is_stopped {
        return Pause::Stops;
    }
    if until_ms <= ms {
        return Pause::Past;
    }
    Pause::Waits(MOST_WAIT_MS.min(until_ms - ms))
}
