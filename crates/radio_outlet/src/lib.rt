//! Where the lines of the log go: a bounded queue, and the thread that writes it to standard output.
//!
//! - [`start_log`] starts the thread and returns the [`LogQueue`] that all other threads add lines to. Read it first.
//! - [`WaitingLines`], [`Batch`], [`Outage`] and [`failure_of`] decide what is lost, what is written next, and when a write is
//!   tried again. The thread carries out their answers.
//!
//! A write may wait as long as it likes: the thread alone waits for it.
#![tactic(auto)]

mod batch;
mod failure;
mod outage;
mod queue;
mod start;
mod waiting;
mod writer;

pub use batch::{Batch, LinePlace};
pub use failure::{Failure, failure_of};
pub use outage::Outage;
pub use queue::LogQueue;
pub use start::start_log;
pub use waiting::WaitingLines;

/// Memory was refused.
pub type OutOfMemory = std::alloc::AllocError;
