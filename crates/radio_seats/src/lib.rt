//! The table of listeners: who sits at which mount, and who has lost its seat where, and by which
//! rule.
//!
//! - [`Seats`]: the table. Contracts see it as a board: the names of the mounts that were prepared,
//!   and the list of its listeners, in the order of their numbers. It has a row of each, which knows
//!   its mount by a number, the mounts with their counts, and an index of the rows by user.
//! - [`LentSeat`], [`ListenerStanding`]: what the table answers of a listener.
//! - [`Seats::guests_at`]: who sits at a mount, each as a [`LentListener`].
//! - [`Seats::last_mount`]: where a listener sits, or sat last.
//! - [`Seats::next`], [`Seats::count_beside`], [`Seats::user_beside`]: what a move asks, which takes listeners
//!   in the order of their numbers, and leaves its own seat out of account.
#![tactic(auto)]

mod advance;
mod beside;
mod last;
mod lent;
mod listed;
mod seats;
mod users;

pub use lent::{LentSeat, ListenerStanding};
pub use listed::LentListener;
pub use radio_seats_rows::{KeptName, Listener, OutOfMemory, Seat, Seating};
pub use seats::Seats;
