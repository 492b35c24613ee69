//! The state of the station: all of the server's state but its listeners.
//!
//! - [`Registry`]: what all mounts share: the moment, the settings and their lists, which mounts are
//!   live and who feeds them, the fallbacks that were set, clients and relays. Each call makes one
//!   change. [`Registry::begin`] and [`Registry::raise`] make it in the sessions too, and
//!   [`Registry::end_outsiders`] among the listeners, which are lent. A walk sees the registry alone
//!   (`View` of `radio_fallback`).
//! - [`StationState`]: the registry and the parts of the mounts, lent to be read by
//!   [`StationState::standing`], [`StationState::session`] and others. What else is looked up in it, for
//!   the policy among others, is in `radio_parts_facts`. Listeners may sit at a mount that a relay feeds
//!   on demand while it waits for a session ([`StationState::is_on_demand`], [`Registry::can_be_heard`]).
//! - [`ClientState`], [`RelayState`], [`Standing`]: what clients and relays do, and what they are now.
#![tactic(auto)]

mod changes;
mod clients;
mod due;
mod fallbacks;
mod live;
mod outsiders;
mod registry;
mod relays;
mod sight;
mod standing;
mod station;
mod timeouts;
mod waiting;

pub use clients::ClientState;
pub use registry::Registry;
pub use relays::RelayState;
pub use standing::Standing;
pub use station::StationState;

/// The error of a call if memory was refused. Nothing has changed then, unless the call says otherwise.
pub type OutOfMemory = std::alloc::AllocError;
