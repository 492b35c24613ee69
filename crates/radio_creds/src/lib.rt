//! Credentials: pairs of a user and a password, and lists of the users that are let in.
//!
//! - [`basic`] reads a [`Pair`] out of the value of a header `Authorization` (RFC 7617).
//! - [`Users`] is a user list with an MD5 digest (RFC 1321) of each password, and says which pairs it accepts.
//! - [`is_same_secret`] compares two secrets with no early end.
//! - [`laws`] ties both to what the standard and the format of a list say of them.
//!
//! No secret is shown: the `Debug` of a pair and of a user list writes neither a password nor a digest.
#![tactic(auto)]

mod authorization;
mod digest;
pub mod laws;
mod pair;
mod user_line;
mod user_list;

pub use authorization::basic;
pub use digest::is_same_secret;
pub use pair::Pair;
pub use user_list::Users;

/// The error of each call that takes memory: there was none.
pub type OutOfMemory = std::alloc::AllocError;
