//! The clock of all threads.

ghost use Rattle.std.specs.Prelude.{◌<◌, ◌*◌, ◌^◌};

use std::time::Clock;

/// Returns the clock's moment, in milliseconds; 0 if it has none.
pub fn moment<C: Clock>(clock: &C) -> u64
    ensures { result * 1000 < 2 ^ 64 }
{
    moment_us(clock) / 1000
}

/// Returns the clock's moment, in microseconds; 0 if it has none.
pub fn moment_us<C: Clock>(clock: &C) -> u64 {
    match clock.monotonic() {
        Ok(since) => u64::try_from(since.as_micros()).unwrap_or(u64::MAX),
        Err(_) => 0,
    }
}
