//! The turns of relays that wait for a place.

use radio_masters::{WaitingRelay, in_turn};
use std::alloc::{AllocError, Global};

/// A moment, in milliseconds.
const NOW_MS: u64 = 10_000;

/// From when on relays may be tried that wait, how many places are free, and the numbers of those that begin then.
const ROWS: &[(&[u64], usize, &[usize])] = &[
    (&[], 3, &[]),
    (&[0, 0, 0], 2, &[0, 1]),
    (&[0, 0], 0, &[]),
    (&[10_000, 0, 10_001, 5000], 9, &[1, 3, 0]),
    (&[7, 7, 3, 7], 3, &[2, 0, 1]),
];

fn begun(alloc: Global, due: &[u64], places: usize) -> Result<Vec<usize>, AllocError> {
    let mut waiting = Vec::new(alloc);
    for (number, due_ms) in due.iter().enumerate() {
        waiting.push(WaitingRelay {
            due_ms: *due_ms,
            number,
        })?;
    }
    let mut numbers = Vec::new(alloc);
    for relay in in_turn(waiting, places, NOW_MS)? {
        numbers.push(relay.number)?;
    }
    Ok(numbers)
}

/// Whether these begin.
fn begin_as(alloc: Global, due: &[u64], places: usize, want: &[usize]) -> bool {
    match begun(alloc, due, places) {
        Ok(numbers) => numbers.as_slice() == want,
        Err(_) => false,
    }
}

// rule: Relay places
#[test]
fn turns_of_relays(rt: HostRuntime) {
    for (due, places, want) in ROWS {
        let begin = begin_as(rt.alloc(), due, *places, want);
        assert!(rt; begin);
    }
}
