//! The relays of a station, each pulled in by a thread of its own.
//!
//! - [`keep_relays`]: keeps the relays running that the settings and the slave's list wish, until all are to stop.
//! - [`has_relays`]: whether the settings wish some, now or later.
//! - [`laws`]: a law, which runs no code.
//!
//! What a pull asks and how it reads its master's answer is said by `radio_masters`; here are the threads and the sockets
//! for it.
#![tactic(auto)]

mod keeper;
pub mod laws;
mod list_fetch;
mod puller;
mod relays;
mod roster;
mod running;
mod station;
mod waits;

pub use relays::{has_relays, keep_relays};

/// What a call answers if memory was refused.
pub type OutOfMemory = std::alloc::AllocError;
