//! What is looked up in the state of the station and among its listeners. Nothing is changed by it.
//!
//! - [`mount_named`], and a function for each action: the facts by which the policy judges.
//! - [`shown_for`], [`head_of`], [`burst_of`], [`interval_for`]: what the settings make of a stream, and of a listener's.
//! - [`silence`], [`wanted`]: what is heard at a mount that waits for a session, and at which of the mounts that relays feed
//!   on demand somebody sits.
//! - [`shown`]: a listing, for everybody, an operator or a relay. [`page`]: what is at a path of the web site. The rows of a
//!   text are looked up here; its bytes are made in `radio_listing`.
#![tactic(auto)]

mod commands;
mod facts;
mod listings;
mod pages;
mod streams;
mod waiting;

pub use commands::command_facts;
pub use facts::{arrive_facts, listen_facts, mount_named, push_facts, relay_facts, source_facts};
pub use listings::shown;
pub use pages::page;
pub use streams::{burst_of, head_of, interval_for, shown_for};
pub use waiting::{silence, wanted};

/// The error of a call if memory was refused. Nothing has changed then, unless the call says otherwise.
pub type OutOfMemory = std::alloc::AllocError;
