//! What each event does: over the control, and over the parts of mounts that are lent to it.
//!
//! - [`Control`]: what all mounts share, with the parts that are here. [`Control::step`] is one event;
//!   [`Control::exchange`] lends a part and takes it back.
//! - [`MountPart`], [`ListedPart`]: one mount's part. `MountPart::step` does by itself what an attached client and the
//!   mount's source do.
//! - [`Event`], [`Reply`]: what goes in and comes out.
//! - [`Outcome`], [`Change`]: the words in which contracts speak of what an event does. No public call takes or gives one.
//!
//! The reply and the change are worked out first (a file for each event). The change is then made whole or not at all
//! (`radio_parts_changes`).
#![tactic(auto)]

mod arrive;
mod clock;
mod command;
mod control;
mod draw;
mod leave;
mod lending;
mod listen;
mod outcome;
mod pages;
mod push;
mod relay;
mod replies;
mod source;
mod source_end;
mod stand_ins;
mod telling;
mod title;

pub use control::Control;
pub use outcome::Outcome;
pub use radio_access::Lists;
pub use radio_events::{
    Asked, Boxed, Command, CommandRequest, Event, ListenRequest, Listing, OpenedBy, PageVisit,
    Reply, ReplyText, SourceRequest, StreamHead,
};
pub use radio_parts_changes::Change;
pub use radio_parts_mount::{ListedPart, MountPart, PartAnswer};
pub use radio_parts_table::MountParts;

/// The error of a call if memory was refused. Nothing has changed then, unless the call says otherwise.
pub type OutOfMemory = std::alloc::AllocError;
