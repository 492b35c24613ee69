//! What is noted of connections, and the lines of the log that are made of it.
//!
//! - [`Visit`]: what has happened on a connection, after each [`Happening`]; [`laws`] says what it then holds.
//! - [`Account`]: what is noted of one connection, from its coming to its end.
//! - [`Notice`]: what is to be logged of an event, if it is done.
//! - [`ReplyNote`]: what of a reply is noted.
//! - [`mount_word_by`]: the word for the end of a mount, also of a relay's.
//! - [`Log`]: the lines that wait to be written, as many as there is room for.
//!
//! Functions of plain values decide what is noted, logged, written and lost, and their contracts say it. `Account` and
//! `Log` keep these values in cells, which no contract can name. A connection goes on alike whatever is noted of it.
//! The lines are those of `radio_log`.
#![tactic(auto)]

mod account;
mod agent;
mod ends;
mod facts;
pub mod laws;
mod lines;
mod log;
mod notice;
mod receiving;
mod reply_note;
mod request;
mod request_so_far;
mod visit;

pub use account::Account;
pub use ends::{End, mount_word_by};
pub use log::Log;
pub use notice::Notice;
pub use reply_note::ReplyNote;
pub use visit::{Happening, Part, Visit};

/// What a call answers if memory was refused.
pub type OutOfMemory = std::alloc::AllocError;
