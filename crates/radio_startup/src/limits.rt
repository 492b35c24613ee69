//! What the system allows the process.

use std::alloc::AllocGlobal;
use std::fs;
use std::fs::Files;

/// The file in which the system says what it allows the process, a line for each limit (Linux, `proc(5)`).
const LIMITS: &str = "/proc/self/limits";

/// Returns how much the system allows the process of what has this name. `None` if it does not say it, or if there is no limit.
pub fn limit_named<R: Files + AllocGlobal>(rt: &R, name: &str) -> Option<u64> {
    let Ok(text) = fs::read_to_string(rt, LIMITS) else {
        return None;
    };
    for line in text.as_str().lines() {
        if let Some(rest) = line.strip_prefix(name) {
            return first_number(rest);
        }
    }
    None
}

fn first_number(text: &str) -> Option<u64> {
    let word = text.split_whitespace().next()?;
    match word.parse::<u64>() {
        Ok(number) => Some(number),
        Err(_) => None,
    }
}
