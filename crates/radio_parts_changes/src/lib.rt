//! The server's state, and what can be changed in it.
//!
//! - [`Change`]: what an event can change.
//! - [`ServerState`]: what is kept of all mounts together (`Registry` of `radio_parts_station`), and the
//!   listeners with the parts of the mounts (`Listeners` of `radio_parts_table`). They are read through
//!   [`ServerState::station`], which is all but the listeners, and [`ServerState::seats`];
//!   [`ServerState::commit`] makes a change, whole or not at all.
//!
//! `radio_parts` works out which change an event makes.
#![tactic(auto)]

mod change;
mod commit;
mod due;
mod lent;
mod obey;
mod state;
mod tick;
mod users;

pub use change::Change;
pub use state::ServerState;

/// The error of a call if memory was refused. Nothing has changed then, unless the call says otherwise.
pub type OutOfMemory = std::alloc::AllocError;
