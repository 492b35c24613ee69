//! One legal history from many lists: one list for each mount, and one for the control.
//!
//! - [`merge`] finds an order of all entries, steps a new core through it and compares each reply. Its fault is a
//!   [`MergeFault`].
//! - [`Family`] has the lists: the control's of [`ControlLine`], and those of mounts, of [`MountItem`]. A [`Stamp`] is a
//!   place in one of them.
//! - [`the_control_makes_the_rest`] is a law about merged lists.
//! - [`is_same_event`], [`is_same_reply`] compare two.
//!
//! No call waits or locks.
#![tactic(auto)]

mod family;
mod fault;
mod laws;
mod merging;
mod passes;
mod positions;
mod replaying;
mod same;
mod searching;

pub use family::{Family, MountList};
pub use fault::MergeFault;
pub use laws::the_control_makes_the_rest;
pub use merging::merge;
pub use radio_chronicle::{ControlLine, Stamp};
pub use radio_events::Entry;
pub use radio_parts_mount::{Attaching, MountItem};
pub use same::{is_same_event, is_same_reply};

/// The error of a call if memory was refused.
pub type OutOfMemory = std::alloc::AllocError;
