//! What happened to the control and to each mount's part, and receipts of it for those who called.
//!
//! - [`Book`]: the control and its list; [`Book::apply`] is one event over the mounts' parts that are lent. Read it first.
//! - [`MountBook`]: a mount's part; [`MountBook::apply`] is what it does by itself.
//! - [`Chronicle`]: whether entries are stored, [`Kept`] or [`Unkept`]; a [`Stamp`] is the place of one.
//! - [`Pass`]: what a caller has: the receipts of its calls, and the right to end whom it let in, a client or a relay
//!   ([`Newcomer`]).
//! - [`histories_add_up`]: what a history counts up to.
//! - [`Origin`]: which server a book and its passes belong to; only contracts speak of it.
#![tactic(auto)]

mod accounts;
mod book;
mod holdings;
mod last_blocks;
mod lending;
mod mount_book;
mod newcomer;
mod pass;
mod receipt;
mod reserved_ends;

pub use book::{Book, PASSES};
pub use mount_book::{MountBook, Own};
pub use newcomer::{Newcomer, leaver_of};
pub use pass::Pass;
pub use radio_chronicle::{Chronicle, ControlLine, Kept, Origin, Stamp, Unkept, histories_add_up};
pub use radio_events::Entry;
pub use receipt::Receipt;

/// The error of a call if memory was refused.
pub type OutOfMemory = std::alloc::AllocError;
