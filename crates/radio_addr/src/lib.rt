//! Addresses of peers, and lists of addresses.
//!
//! - [`Peer`] is the address of a connection's other end, and [`read_peer`] reads one. Its `Display` writes it so that
//!   it is read back as the same peer ([`written_peers`]).
//! - [`AddressList`] is a list of addresses, one a line, that a server denies or allows.
//! - [`laws`] says what lists list, and which line of a bad list its fault names.
#![tactic(auto)]

mod address;
mod groups;
pub mod laws;
mod lines;
mod lists;
mod numbers;
mod peer;
mod quad;
mod writing;

pub use address::Address;
pub use lines::AddressRange;
pub use lists::{AddressList, ListFault};
pub use peer::{Peer, read_peer, written_peers};
