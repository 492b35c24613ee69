//! A bound socket, and the service behind it: workers that serve connections, together with the relays of a
//! station.
//!
//! - [`Listening`]: a bound socket. [`Listening::serve`] accepts connections, and serves them, until a fault; [`Service`]
//!   says how.
//! - [`BindFault`], [`ServeFault`]: why nothing was bound, and why a server ends.
//!
//! What radiod needs of the crates below to call it is here too: the net as relays reach it ([`Network`], [`SystemNet`]), and
//! what the settings say of answers ([`WebAnswers`]).
#![tactic(auto)]

mod listening;
mod working;

pub use listening::{Listening, Service};
pub use radio_lines::{Network, SystemNet};
pub use radio_serving::WebAnswers;
pub use radio_sockets::{BindFault, ServeFault};

/// What a call answers if memory was refused.
pub type OutOfMemory = std::alloc::AllocError;
