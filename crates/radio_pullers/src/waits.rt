//! How threads of relays wait.

use crate::running::RunningRelay;
use radio_board::Shared;
use radio_lines::moment;
use radio_tries::{Pause, pause_at};
use std::thread::sleep;
use std::time::{Clock, Duration};

/// Waits until this moment, in milliseconds. Returns whether it has come: not if the thread, which pulls this relay or none, is to
/// stop before.
pub(crate) fn waits_until<R: Clock>(
    rt: &R,
    shared: &Shared,
    relay: Option<&RunningRelay>,
    until_ms: u64,
) -> bool {
    for _ in 0..u64::MAX {
        let is_over = shared.is_over() || relay.is_some_and(|relay| relay.is_stopped());
        match pause_at(is_over, moment(rt), until_ms) {
            Pause::Stops => return false,
            Pause::Past => return true,
            Pause::Waits(ms) => sleep(rt, Duration::from_millis(ms)),
        }
    }
    false
}
