//! What the crates of tests call a server with. No test is here, and nothing that stops a program.
//!
//! - `events`: events as tests write them.
//! - `servers`: settings with two passwords, and a core of them.
//! - [`Callee`]: what is called with events; a core's reply to a copy of one.
//! - `hundred`: [`serve`], 100 calls of a caller that feeds a mount and listens to it.
//! - `scattering`: [`scatter`], calls as dice have them.
#![tactic(auto)]

mod callee;
mod events;
mod hundred;
mod scattering;
mod servers;

pub use callee::{Callee, number_given, step_copy};
pub use events::{
    arrival, command_event, draw, killing, listen_event, moving, push_event, relay_event,
    source_event, title_event,
};
pub use hundred::{CALLS, DATA, DRAWS, serve};
pub use scattering::{RING, scatter};
pub use servers::{SHORT_QUEUE, core, settings};
