//! The settings of a station, read from TOML.
//!
//! - [`read_settings`] gives the settings of a text, or its first fault in the order of the table in `docs/FORMATS.md`:
//!   a [`SettingsFault`] that names a [`Key`], both of `radio_keys`.
//! - [`read_answers`] gives what it says of requests and answers: [`AnswerSettings`].
//! - [`read_proxies`] gives the path of the list of proxies.
//! - [`laws`] says what holds of every text.
//!
//! Each table of the text has a file of its own, and one under `specs` with its keys, ranges and defaults.
#![tactic(auto)]

mod access;
mod document;
mod faulty;
pub mod laws;
mod limits;
mod listen;
mod logins;
mod masters;
mod mounts;
mod named;
mod relays;
mod section;
mod slave;
mod web;

pub use document::{read_answers, read_proxies, read_settings};
pub use faulty::{TablePlace, faulty_table, key_of};
pub use radio_keys::{Key, SettingsFault};
pub use radio_settings_values::{RelaySetting, Settings, SlaveSetting};
pub use radio_values::{MountName, Shown};
pub use section::{KnownKey, SECTIONS, Section, ValueKind, home_of};
pub use web::AnswerSettings;

/// The error of each call that takes memory: there was none.
pub type OutOfMemory = std::alloc::AllocError;
