//! The log: one line for each thing that an operator should know of.
//!
//! - [`line`] writes a [`Note`]: a [`Moment`] in UTC and a [`Fact`].
//! - `facts` has what each kind of fact holds; a [`QuotedText`] is what others have said of themselves.
//! - [`MOST_WAITING`]: how many bytes of lines wait at most, for those who keep lines.
//! - [`laws`] says what holds of all lines: that they are lines, and how they are read back.
//!
//! A line is that of `docs/FORMATS.md`, "The log", and in proofs that of `specs/Lines`.
#![tactic(auto)]

mod calendar;
mod facts;
mod fields;
pub mod laws;
mod moment;
mod notes;
mod shown;
mod text;
mod writing;

pub use facts::{
    ClientEnded, CommandNote, Fact, FaultNote, FaultyKey, KeyPlace, RelayFailed, RelayGone,
    RelayUp, SourceGone, SourceUp, TitleNote, Warning,
};
pub use moment::{LAST_SECOND, Moment};
pub use notes::{MOST_WAITING, Note, line};
pub use text::QuotedText;

/// The error of each call that takes memory: there was none.
pub type OutOfMemory = std::alloc::AllocError;
