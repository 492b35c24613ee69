//! Who is let in: address lists, user lists, source pairs, and the content types that are refused.
//!
//! - [`Lists`] holds what the files that the settings name hold: the addresses that are denied, those that alone are
//!   allowed, and the users of each mount.
//! - [`is_source_pair`] says whether a pair is the one that a mount's source sends; [`is_admin_pair`],
//!   [`is_named_source_pair`] and [`is_relay_pair`] whether it is one that opens a command.
//! - [`is_refused_type`] says whether a content type is one that the server does not carry.
#![tactic(auto)]

mod command_pairs;
mod content_type;
mod lists;
mod source_pair;

pub use command_pairs::{is_admin_pair, is_named_source_pair, is_relay_pair};
pub use content_type::{is_refused_type, refused_types_are_named};
pub use lists::{Lists, MountUsers};
pub use source_pair::is_source_pair;

/// What a call answers if memory was refused. Nothing has changed then.
pub type OutOfMemory = std::alloc::AllocError;
