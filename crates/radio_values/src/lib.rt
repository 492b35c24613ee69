//! The values that settings, requests and listeners' heads are made of, each with what holds of it as its type.
//!
//! - [`MountName`]: the name of a mount.
//! - [`Within`]: a number with its range.
//! - [`Text`]: a text as the settings have it.
//! - [`Field`]: a text that heads may show, and [`Shown`], what they show of a stream, with [`About`], what else it says
//!   of itself.
//! - [`AllowedOrigin`]: whose pages may read an answer.
//! - [`clean_title`] and [`clean_field`] make texts from outside fit to be sent; a [`Title`] is one that was.
//!   [`laws`] says what is true of all cleaned texts.
#![tactic(auto)]

mod about;
mod allowed_origin;
mod clean;
mod field;
pub mod laws;
mod mount_name;
mod sendable;
mod text;
mod within;

pub use about::About;
pub use allowed_origin::{AllowedOrigin, MAX_ORIGIN};
pub use clean::{clean_field, clean_title};
pub use field::{Field, Shown};
pub use mount_name::{MAX_MOUNT_NAME, MountName};
pub use sendable::Title;
pub use text::Text;
pub use within::Within;

/// The error of each call that takes memory: there was none.
pub type OutOfMemory = std::alloc::AllocError;

/// The most bytes that a title may have, so that its text fits a block of 255 times 16 bytes.
pub const MAX_TITLE: usize = 4065;

/// The most bytes that a shown field may have: a stream's name, genre or type, or one of [`About`].
pub const MAX_FIELD: usize = 255;
