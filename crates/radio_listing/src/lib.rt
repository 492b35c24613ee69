//! Listings: what everybody, an operator and a relay may see of the live mounts.
//!
//! - [`status`] and [`icecast_status`] are for everybody, [`stream_list`] for relays. They leave hidden mounts out.
//! - [`stats`], [`list_mounts`] and [`list_clients`] are for operators.
//! - [`MountRow`], with its [`PublicRow`], and [`ListedListener`] are what they are written from; a [`ListedText`] is what they show.
//! - [`laws`] says what holds of all rows.
//!
//! Each listing writes the rows in the order in which they are given. Its bytes are those of `docs/FORMATS.md`, and in
//! proofs those of the file of `specs/` with its name.
#![tactic(auto)]

mod admin_listings;
mod icecast_listing;
pub mod laws;
mod listener_listing;
mod object;
mod public_listings;
mod reached;
mod rows;
mod text;

pub use admin_listings::{list_mounts, stats};
pub use icecast_listing::icecast_status;
pub use listener_listing::list_clients;
pub use public_listings::{status, stream_list};
pub use reached::{MAX_HOST, base_url};
pub use rows::{AboutRow, ListedListener, ListedServer, MountRow, PublicRow};
pub use text::ListedText;

/// The error of each call that takes memory: there was none.
pub type OutOfMemory = std::alloc::AllocError;
