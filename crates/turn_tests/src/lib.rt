//! Tests of a worker's turn over lines in memory, as its callers see it: what no clause says. What clients do to a running station is in
//! `tests/live/serve`.
//!
//! - `rows`: sources and listeners that are served, turn after turn.
//! - `slow`: lines that take little or nothing.
//! - `moments`: from when patience and lingering count, to the millisecond.
//! - `faults`: lines that fail, at each call; and memory that is refused.
//! - `masters`: relays and a slave over such lines, turn after turn.
//! - `turns`: which relay has its turn among those that wait.
//! - `accepting`: a bound socket that fails, and one that has no descriptor for anybody.
#![tactic(auto)]

#[cfg(test)]
mod accepting;
#[cfg(test)]
mod faults;
#[cfg(test)]
mod masters;
#[cfg(test)]
mod moments;
#[cfg(test)]
mod rows;
#[cfg(test)]
mod slow;
#[cfg(test)]
mod turns;
