//! What a station decides of its relays, as plain values: when each is tried, which begin, and what ends a pull.
//!
//! - [`Tries`]: when relays were tried, and how many places are kept; [`Tries::begin`]: which relays begin now.
//! - [`Wishes`]: which relays are to stop and which to start, in the order in which they start.
//! - [`end_of`], [`RelayOutcome`]: why a pull has ended, and how the thread of a relay has.
//! - [`pause_at`]: for how long a thread waits until a moment.
//! - [`laws`]: what then holds.
//!
//! It opens no connection, starts no thread and knows no clock.
#![tactic(auto)]

pub mod laws;
mod outcome;
mod pause;
mod pulls;
mod tries;
mod wishes;

pub use outcome::RelayOutcome;
pub use pause::{MOST_SILENT_MS, Pause, REST_MS, after, list_due_ms, pause_at};
pub use pulls::{end_of, is_last_pull, pull_end};
pub use tries::{Tries, free_places};
pub use wishes::{Wishes, wishes_of};

/// What a call answers if memory was refused.
pub type OutOfMemory = std::alloc::AllocError;
