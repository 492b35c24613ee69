//! What a text of settings says beyond the settings: keys that nobody reads, and where a fault is.
//!
//! - [`unknown_keys`]: the keys of a text that no table has, each with its line, and what may have been meant.
//! - [`locate`]: the table, the line and the value at which a text has a fault of a key.
//!
//! `radio_settings` says which keys there are. Lines are found by [`entries_of`], which walks the text once.
#![tactic(auto)]

mod entries;
mod lines;
mod locating;
mod meant;
mod unknown;

pub use entries::{Entries, KeyEntry, entries_of};
pub use locating::{FaultPlace, locate};
pub use meant::{Meant, meant_by};
pub use unknown::{UnknownKey, unknown_keys};

/// The error of each call that takes memory: there was none.
pub type OutOfMemory = std::alloc::AllocError;
