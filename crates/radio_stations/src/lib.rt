//! What holds of a station that workers and relays' threads serve: from the bytes of its connections and pulls to what was applied for them.
//!
//! A law is a function that runs no code. Each speaks of another part of the station:
//!
//! - [`connections_mean_their_bytes`]: one connection, over all turns in which a worker served it.
//! - [`work_is_of_its_connections`]: all that one worker did.
//! - [`pulls_mean_their_bytes`]: one pull of a relay.
//! - [`passes_are_of_their_work`]: the receipts of a pass.
//! - [`stations_hear_slices`]: a history, and what the listeners in it are given.
//! - [`running_stations_hear_slices`]: the same of workers and relays in threads, from the workers' slots on.
#![tactic(auto)]

mod laws;

pub use laws::{
    connections_mean_their_bytes, passes_are_of_their_work, pulls_mean_their_bytes,
    running_stations_hear_slices, stations_hear_slices, work_is_of_its_connections,
};
