//! Connections that a proxy passes on: the header by which it names its client, and those that wait for theirs.
//!
//! The header is that of the PROXY protocol, version 1 (Willy Tarreau, "The PROXY protocol", section 2.1).
//!
//! - [`read_header`] reads the header that bytes begin with. It is the function to read first.
//! - [`take_header`] takes it off a stream whose first bytes can be looked at ([`Peek`]), and nothing behind it.
//! - [`Pending`]: the connections of proxies whose headers have not come.
//! - [`laws`] says what holds of all headers, for proofs.
#![tactic(auto)]

mod greeting;
mod header;
pub mod laws;
mod peek;
mod pending;

pub use greeting::{HeaderLook, take_header};
pub use header::{Header, MOST_BYTES, NamedClient, read_header};
pub use peek::Peek;
pub use pending::{HeaderOutcome, Pending, Settled};
