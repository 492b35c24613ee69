//! Commands of operators and of sources, read from the target of a request.
//!
//! - [`read_path`] is the path of a target (RFC 3986, section 2.1).
//! - [`read_command`] is the [`Command`] that a path and a query ask for, or the [`AdminFault`] why there is none.
//! - [`CommandKind`] is which command it is; each has a path.
//! - [`laws`] says what holds of every path and query.
//!
//! The table of the commands, with their paths and arguments, is `docs/FORMATS.md`, and in proofs `specs/Commands.antt`.
#![tactic(auto)]

mod arguments;
mod command;
mod fault;
mod kind;
pub mod laws;
mod query;
mod reading;

pub use command::{Command, Kill, MoveArguments, NewFallback, NewTitle, NewUser, OldUser, RawText};
pub use fault::AdminFault;
pub use kind::CommandKind;
pub use reading::{read_command, read_path};

/// The error of each call that takes memory: there was none.
pub type OutOfMemory = std::alloc::AllocError;
