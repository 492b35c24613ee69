//! One mount's part of the state: its session, if it is live, who is attached to it, and what happened to it.
//!
//! - [`MountPart`]: the part. [`MountPart::step`] does what an attached client and the mount's source do there by the part
//!   alone: draws, blocks and titles.
//! - [`ListedPart`]: a part with the list of what happened to it, if that is kept: [`MountItem`]s, of which own events name
//!   a [`Grant`]. Read [`ListedPart::step`] first.
//! - [`grants_come_first`]: a law on lists.
//! - [`Session`]: what a source feeds to a mount. A [`NewSession`] is one that begins.
//! - [`Stream`]: the data of a session, of which the last blocks are kept.
//! - [`lies_back`]: whether a moment lies so many seconds back; [`HasSatOut`] says of a listener that its time is over.
//! - [`due_at`]: from which moment on another lies so many seconds back; [`seat_due`] and [`GuestDue`] say it of a
//!   listener, by the mount that it asked for.
//!
//! `radio_parts_table` has the parts of all mounts.
#![tactic(auto)]

mod drawing;
mod due;
mod item;
mod laws;
mod list;
mod listed;
mod noting;
mod part;
mod sessions;
mod sitters;
mod step;
mod stream;
mod timeouts;

pub use drawing::Portion;
pub use due::{GuestDue, LAST_MOMENT, due_at, seat_due};
pub use item::{Attaching, MountItem};
pub use laws::grants_come_first;
pub use list::{Grant, KeptItems};
pub use listed::ListedPart;
pub use part::MountPart;
pub use sessions::{NewSession, Session};
pub use sitters::sitters_among;
pub use step::PartAnswer;
pub use stream::Stream;
pub use timeouts::{HasSatOut, lies_back};

/// The error of a call if memory was refused. Nothing has changed then, unless the call says otherwise.
pub type OutOfMemory = std::alloc::AllocError;
