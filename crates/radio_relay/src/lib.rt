//! Streams that are pulled from other servers: what is sent to a master, what its answer means, and the pull of a relay as a
//! conversation with the server.
//!
//! - A [`Pull`] takes what a master answers, however it is cut, and gives [`PullItem`]s: what its head shows, its sound in
//!   blocks, and its titles; or a [`PullFault`].
//! - [`request_text`] and [`list_request`] are what is sent to a master.
//! - [`read_stream_list`] reads a master's list of streams.
//! - [`plan`] says which relays are to start and to stop: [`RelayOrder`]s.
//! - [`RelayPull`]: how far the answer of a relay's master has come, and the number of the relay once it is up. [`take`]: the next
//!   bytes of the answer; [`ask`]: another event of the relay; [`close`]: the connection is closed. Their events are applied by a
//!   [`Server`](radio_session::Server).
//! - Laws, which run no code: [`laws`] on all that is pulled in, and [`items_are_of_their_relay`].
#![tactic(auto)]

mod answer;
mod conversing;
mod fault;
mod items;
pub mod laws;
mod orders;
mod pull;
mod pull_laws;
mod relay_pull;
mod request;
mod stream;
mod stream_list;

pub use answer::MAX_INTERVAL;
pub use conversing::{ask, close, take};
pub use fault::PullFault;
pub use items::PullItem;
pub use orders::{RelayOrder, plan};
pub use pull::Pull;
pub use pull_laws::items_are_of_their_relay;
pub use relay_pull::RelayPull;
pub use request::{list_request, request_text};
pub use stream_list::read_stream_list;

/// What a call answers if memory was refused.
pub type OutOfMemory = std::alloc::AllocError;
