//! The settings of a station.
//!
//! - [`Settings`] has them, table by table. The values in them ([`MountName`], [`Text`], [`Field`], [`AllowedOrigin`],
//!   numbers [`Within`] a range) are those of `radio_values`.
//! - [`Settings::options`] says what holds for a mount.
//! - [`NamedSettings`] are tables by the names of mounts, of which no two have one.
//! - [`WebSettings`] is the table `[web]`: which paths the web site has, and what [`AllowedOrigin`] its answers name.
//!
//! `radio_settings` reads them from a text.
#![tactic(auto)]

mod copies;
mod mounts;
mod options;
mod places;
mod settings;
mod web;

pub use mounts::{MountSettings, Named, NamedSettings, RelaySettings};
pub use settings::{
    AboutOptions, AccessSettings, AddressLists, Bytes, LimitSettings, ListenSettings,
    ListenerOptions, Login, Master, MountOptions, MountSetting, Port, RelayAccess, RelaySetting,
    SecondsOfDay, Settings, SlaveSetting, SomeBytes, StreamOptions, UserOptions,
};
pub use web::{WebPath, WebSettings};

/// The error of each call that takes memory: there was none.
pub type OutOfMemory = std::alloc::AllocError;
