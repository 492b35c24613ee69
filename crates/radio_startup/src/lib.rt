//! What the program reads before it does its work, and what it says of it.
//!
//! - [`read_station`]; [`read_text`] and what a [`SettingsText`] says: the settings of a file, and what the files hold that
//!   they name.
//! - [`call_by`]: what the words of a command line ask for.
//! - [`FileFault`]: why such a file is not taken; its text is a line on standard error.
//! - [`warnings_of`]: what an operator should know of the settings; `doubts` has what is warned of.
//! - [`log_start`], [`warn`]: lines of the log, for [`Notices`].
//! - [`VERSION`]: the version of the program. [`moment_now`]: the moment by its clock.
//!
//! All of it is generic over the runtime, so that no crate needs more of it than files, a clock or an allocator.
#![tactic(auto)]

mod call;
mod doubts;
mod fault;
mod files;
mod limits;
mod lists;
mod misreading;
mod notices;
mod reading;
mod unknown;
mod warnings;

pub use call::{CommandLine, call_by};
pub use fault::FileFault;
pub use files::{SettingsText, Station, read_station, read_text};
pub use limits::limit_named;
pub use misreading::Misreading;
pub use notices::{Dated, Notices, VERSION, line_now, log_start, moment_now, warn, words_of};
pub use reading::{ReadsFiles, SystemFiles};
pub use unknown::words_of_unknown;
pub use warnings::warnings_of;

/// What a call answers if memory was refused.
pub type OutOfMemory = std::alloc::AllocError;
