//! Workers, each in a thread of its own, which serve connections over one server, and the queue from which they take them.
//!
//! - [`run_workers`]: runs a worker for each slot, until all have stopped.
//! - [`Workplace`]: what all workers share: the server, the intake from which they take connections, and the gate.
//! - [`WorkerSlot`]: what one worker has: a pass of the server, one of the intake, and a turn source. [`add_slot`] makes one.
//! - [`TurnSource`]: when a worker's turns begin, and what the worker reports after each ([`TurnStart`], [`Seen`]).
//! - [`Intake`]: the queue in which an acceptor puts connections for the workers, with room for [`ROOM`].
//!   Threads share it by reference. [`IntakePass`]: what one thread has put and taken. [`Intake::split`]
//!   gives another thread one, and
//!   [`Intake::join`] takes it back. [`Intake::tally`]: when one pass has all parts again, all that was put was taken or is left.
//! - [`accept_next`]: the next connection of an [`Entrance`]; [`Accepts`]: when one is accepted, and how many in a row could not
//!   be.
//! - Laws, which run no code: [`the_oldest_are_closed`], [`accepting_rests`].
//!
//! A worker's turns are those of [`radio_serving::Worker`], whose contracts hold of each worker.
#![tactic(auto)]

mod accepts;
mod entrance;
mod intake;
mod intake_laws;
mod laws;
mod leaving;
mod listeners;
mod pass;
mod rule;
mod running;
mod shift;
mod turn_source;
mod workplace;

pub use accepts::{AcceptTry, Accepts};
pub use entrance::{AcceptFault, AcceptResult, Entrance, accept_next};
pub use intake::{Intake, ROOM};
pub use intake_laws::accepting_rests;
pub use laws::the_oldest_are_closed;
pub use pass::IntakePass;
pub use running::run_workers;
pub use turn_source::{Seen, TurnSource, TurnStart};
pub use workplace::{WorkerSlot, Workplace, add_slot};

/// What a call answers if memory was refused.
pub type OutOfMemory = std::alloc::AllocError;
