//! The parts of all mounts, and the listeners: who sits where, who is attached to each mount, and the live mounts' streams.
//!
//! - [`Listeners`]: the table of listeners, and with it the parts of the mounts. Contracts see the table of `radio_seats` in
//!   which each place is that of the attachment, and the live mounts' sessions. Read [`Listeners::hearing`] first, which
//!   returns a [`Hearing`].
//! - [`MountParts`]: the parts, found by the mount's name. Each is a `ListedPart` of `radio_parts_mount`.
#![tactic(auto)]

mod attached;
mod attachments;
mod changes;
mod exchange;
mod lent;
mod listeners;
mod live_sessions;
mod parts;
mod reading;
mod sessions;

pub use listeners::Listeners;
pub use parts::MountParts;
pub use reading::Hearing;

/// The error of a call if memory was refused. Nothing has changed then, unless the call says otherwise.
pub type OutOfMemory = std::alloc::AllocError;
