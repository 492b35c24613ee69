//! A worker and its connections in memory, for crates of tests. No test is here, and nothing that stops a program.
//!
//! - `memory_line`: a line that gives what a table says, and takes as much as it says.
//! - `station`: [`Station`], a worker over a server, and connections over such lines.
//! - `steps`: [`Step`], what happens at a station and is seen there, as tables.
//! - `clients`: sources and listeners, and what they hear.
//! - `slow_lines`: lines that take little or nothing.
//! - `beside`: a line that fails next to others, and memory that is refused.
#![tactic(auto)]

mod beside;
mod clients;
mod memory_line;
mod slow_lines;
mod station;
mod steps;

pub use beside::{
    BEHIND_A_SOURCE, Beside, Failure, LINE_CALLS, PLAIN, SERVED_SOURCE, failing, is_refused,
};
pub use clients::{
    HEARD, INTERVAL, LATE_LISTENER, LISTEN_HEAD, LISTENER, NIGHT, SOURCE, SOURCE_ANSWER,
    SOURCE_HEAD, TITLED,
};
pub use memory_line::{Look, Manners, MemoryLine, SILENT};
pub use slow_lines::{
    BYTE_BY_BYTE, CLOSED, CLOSES_WHILE_OWED, KEPT, LAGS, LONG_TIMEOUT, ONE_BLOCK, STALLED_FOR_FOUR,
};
pub use station::{Meddled, Meddling, NO_MEDDLING, Refusing, Station, make_station};
pub use steps::{Step, are_played};
