//! Tests of what the service keeps in cells and atomics, which no clause names.
//!
//! - `accounts`: what is noted of a connection, and which lines it has in the log.
//! - `shared`: how many may linger of two workers, and what becomes of newcomers that no worker takes.
//! - `watching`: what a worker has found is found once.
#![tactic(auto)]

#[cfg(test)]
mod accounts;
#[cfg(test)]
mod shared;
#[cfg(test)]
mod watching;
