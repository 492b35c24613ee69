//! What listeners hear, from the bytes of a script to those of its transcript: public laws of the crates
//! below, joined.
//!
//! [`play`] is the call that `radiod play` makes: it plays a script, and has the law from bytes to bytes as
//! a clause. Each law is a function that runs no code: [`listeners_hear_slices`],
//! [`played_scripts_hear_slices`], [`histories_are_lawful`], [`events_are_lawful`],
//! [`draws_are_stretches`].
#![tactic(auto)]

mod laws;
mod playing;

pub use laws::{
    draws_are_stretches, events_are_lawful, histories_are_lawful, listeners_hear_slices,
    played_scripts_hear_slices,
};
pub use playing::play;
