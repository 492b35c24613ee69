//! The parts that a radio stream is made of.
//!
//! - A [`Block`] is data that a source delivered at once. [`Gathering`] and [`first_block`] cut data into blocks.
//! - A [`Place`] is a place in a stream.
//! - [`Pieces`] are the data that a listener draws.
//! - A [`BlockQueue`] keeps the last blocks of a stream.
//! - [`laws`] says what the blocks of data are, and what a queue keeps.
#![tactic(auto)]

mod block;
mod chunk;
mod cutting;
mod gathering;
mod kept;
pub mod laws;
mod parts;
mod pieces;
mod place;
mod queue;
mod sizes;

pub use block::{Block, MAX_BLOCK};
pub use cutting::first_block;
pub use gathering::Gathering;
pub use pieces::Pieces;
pub use place::Place;
pub use queue::{BlockQueue, DrawFault};

/// What a call answers if memory was refused. Nothing has changed then, unless it is said.
pub type OutOfMemory = std::alloc::AllocError;
