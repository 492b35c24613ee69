//! A table of TOML, read key by key.
//!
//! - [`Key`] names a key of the settings, and has its word there; [`SettingsFault`] says what is wrong, and at which key.
//! - [`number_or`], [`text`], [`name`] and their like read the value at a key of a table: a number in its range, a text, a
//!   flag, the name of a mount, an origin. Each asks for one row of the table of settings, and finds that row's fault.
//! - [`table_at`], [`table_or`] and [`tables_at`] give the tables of a document.
//!
//! Which keys there are in a table, and with which ranges and defaults, is for the crate above to say.
#![tactic(auto)]

mod fault;
mod key;
mod tables;
mod values;

pub use fault::SettingsFault;
pub use key::Key;
pub use tables::{table_at, table_or, tables_at};
pub use values::{
    field, flag_or, name, name_or, number, number_or, origin, required_field, required_name,
    required_text, text, text_or, text_with, value_at,
};

/// The error of each call that takes memory: there was none.
pub type OutOfMemory = std::alloc::AllocError;
