//! The seats of listeners, as rows that know their mount by a number, and the mounts that were
//! prepared.
//!
//! - [`Listener`], [`Seating`], [`Seat`]: the listeners as contracts see them, and as the
//!   definitions of `specs/Seats` change them.
//! - [`ListenerRow`], [`RowState`], [`NumberedSeat`], [`Guest`]: a listener as it is kept, small, and
//!   moved without memory.
//! - [`SetSession`], [`Moves`], [`Ends`], [`FinishesAt`]: what is done to a row. A [`SeatTest`] asks
//!   something of a [`Guest`], and a [`GuestMoment`] is a moment of its.
//! - [`Mounts`]: the prepared mounts, each with its number, its name and the counts of those who sit
//!   there, or sat there last.
//! - [`KeptName`], [`KeptUser`]: a name, or a user, apart from what holds it.
//! - What is found after each change, for proofs: `proofs/SeatLaws.antt`, `proofs/EndLaws.antt` and `proofs/CountLaws.antt`.
#![tactic(auto)]

mod changes;
mod kept_name;
mod kept_user;
mod mounts;
mod row;
mod seat;

pub use changes::{Ends, FinishesAt, GuestMoment, Moves, SeatTest, SetSession};
pub use kept_name::KeptName;
pub use kept_user::KeptUser;
pub use mounts::{Mount, Mounts};
pub use row::{ListenerRow, NumberedSeat, RowState};
pub use seat::{Guest, Listener, Seat, Seating};

/// What a call answers if memory was refused. Nothing has changed then.
pub type OutOfMemory = std::alloc::AllocError;
