//! Whole scripts over the server: from the bytes of a script to the bytes of its transcript.
//!
//! - [`play`]: a script from a reader, its transcript to a writer; [`run`]: a list of deliveries.
//! - The server as the performer of deliveries: `script_server` (its core, and the connections of the
//!   labels), `labelled`, `handler` and `relay_handler` (what arrives on a client's connection, and on
//!   a relay's), `one_draw` (a listener's draw), and `performing`.
//! - Laws, which run no code, on scripts: [`the_transcript_is_one`], [`last_words_are_told`], [`scripts_come_to_events`]; on
//!   sessions over a core: [`cores_exchange_as_their_states`], [`cores_go_by_data`], [`exchanges_tell_replies`]; on pulls of
//!   relays over one: [`cores_pull_as_their_states`], [`pulling_is_one`].
//!
//! The lines of scripts and of transcripts, and the devices, are those of `radio_script`. The
//! conversation of a client's connection is that of `radio_session`, and a relay's pull that of
//! `radio_relay`.
#![tactic(auto)]

mod exchange_laws;
mod handler;
mod labelled;
mod laws;
mod one_draw;
mod performing;
mod pulls;
mod relay_handler;
mod script_server;
mod scripts;

pub use exchange_laws::{cores_exchange_as_their_states, cores_go_by_data, exchanges_tell_replies};
pub use labelled::{Connection, Labelled};
pub use laws::{last_words_are_told, scripts_come_to_events, the_transcript_is_one};
pub use pulls::{cores_pull_as_their_states, pulling_is_one};
pub use radio_script::{
    Counted, CountedRead, CountedWrite, Delivery, Input, PlayFault, RunFault, Tally, read_delivery,
};
pub use scripts::{Transcript, play, run};

/// The error of a call if memory was refused.
pub type OutOfMemory = std::alloc::AllocError;
