//! The server's state, and what each event does to it.
//!
//! - [`Core`]: the control and the parts of all mounts; [`Core::step`] is one event (`radio_events`). It is a
//!   [`Server`](radio_events::Server).
//! - [`Control`], [`MountPart`]: the state along mounts (`radio_parts`), which is given on here.
//! - [`clients_stand_by_their_events`] and the other functions of `laws`: what an event can do to
//!   one client, one seat and one session, in every run. The laws of every run (`radio_laws`) use them.
#![tactic(auto)]

mod laws;
mod server;
mod totals;

pub use laws::{
    clients_stand_by_their_events, cores_go_by_their_states, events_are_of_their_clients,
    lists_are_their_commands, nobody_lags, seats_are_their_listeners, sessions_are_their_sources,
    sources_are_told_by_their_data,
};
pub use radio_parts::{
    Asked, Boxed, Change, Command, CommandRequest, Control, Event, ListedPart, ListenRequest,
    Listing, Lists, MountPart, MountParts, OpenedBy, Outcome, PageVisit, PartAnswer, Reply,
    ReplyText, SourceRequest, StreamHead,
};
pub use server::Core;
pub use totals::clients_and_seats_add_up;

/// The error of a call if memory was refused. Nothing has changed then, unless the call says otherwise.
pub type OutOfMemory = std::alloc::AllocError;
