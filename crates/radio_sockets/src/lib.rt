//! What accepts connections, and what serves them: the two loops, and how a connection goes from one to
//! the other.
//!
//! - [`ListeningSocket`]: a bound socket; [`Acceptor`]: who accepts connections there.
//! - [`Acceptor::new`] takes the connections of proxies that wait for their headers (`radio_proxy`).
//! - [`Accepted`]: a connection that waits for a worker; [`SocketTurns`]: where its turns come from. [`open_desks`] and
//!   [`slots_of`] make what the workers begin with.
//! - [`newcomers_are_taken_in`], [`turns_are_due`], [`acceptors_look`]: laws, which run no code.
//! - [`BindFault`], [`ServeFault`]: why nothing was bound, and why a server ends.
#![tactic(auto)]

mod acceptor;
mod address;
mod fault;
mod gone;
mod laws;
mod listening_socket;
mod slots;
mod socket_turns;
mod steps;

pub use acceptor::Acceptor;
pub use fault::{BindFault, ServeFault};
pub use laws::{acceptors_look, newcomers_are_taken_in, turns_are_due};
pub use listening_socket::{Accepted, ListeningSocket};
pub use slots::{open_desks, slots_of};
pub use socket_turns::SocketTurns;

/// What a call answers if memory was refused.
pub type OutOfMemory = std::alloc::AllocError;
