//! A lock for each mount's book, and one for the control's: the server that several threads call.
//!
//! - [`Hall`]: the locks; [`Hall::apply`] is one event. Read it first.
//! - [`HallBooks`]: what a hall has stored, once nobody calls it any more.
//! - [`passes_gain_what_was_applied`]: a law, which runs no code.
//!
//! Order of the locks: the control's before a mount's. Whoever holds a mount's lock waits for no other, so there is no cycle.
//! A mount's book is out of its lock only while an event of the control runs, which is lent it.
#![tactic(auto)]

mod callers;
mod concerned;
mod drawing;
mod hall;
mod hall_books;
mod laws;
mod list_numbers;
mod locked_control;
mod mount_lists;
mod mount_locks;
mod opening;
mod reach;

pub use hall::Hall;
pub use hall_books::HallBooks;
pub use laws::passes_gain_what_was_applied;

/// The error of a call if memory was refused.
pub type OutOfMemory = std::alloc::AllocError;
