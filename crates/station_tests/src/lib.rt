//! Stations in memory: two workers in threads of their own serve connections that are cut as dice have it. Their passes settle, and a
//! plain program compares the history with what each line gave and took.
//!
//! - `connections`: what a connection gives, and what its line gave and took.
//! - `dice`: numbers that come alike of the same seed.
//! - `line`: a line whose reads and writes are cut.
//! - `station`: the workers, and their history.
//! - `hearing`: what the history says of each connection.
#![tactic(auto)]

#[cfg(test)]
mod connections;
#[cfg(test)]
mod dice;
#[cfg(test)]
mod hearing;
#[cfg(test)]
mod line;
#[cfg(test)]
mod station;
