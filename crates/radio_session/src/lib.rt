//! One connection's conversation with the server. It turns the bytes that arrive into events, and
//! replies into the bytes to write. Read [`Session`] first.
//!
//! - [`WebAnswers`] of `radio_answers`: the settings for answers, and for commands that browsers send.
//! - [`Session`]: the conversation. [`Session::take`] takes the bytes that arrive, and returns the
//!   events that they mean. [`Session::give`] takes the reply to each event, and appends the bytes
//!   to write.
//! - [`exchange`]: applies the events of a connection to a [`Server`], one after another, and
//!   writes each reply, up to the end of the connection.
//! - Laws, which run no code: [`bodies_are_heard_as_their_data`], [`cuts_do_not_matter`],
//!   [`cuts_are_told_alike`], [`hearing_is_one`], [`last_words_name_the_rule`],
//!   [`listeners_are_told_what_they_draw`], [`only_refused_calls_fail`],
//!   [`who_waits_is_told_to_go_on`].
#![tactic(auto)]

mod exchanging;
mod laws;
mod session;

pub use exchanging::exchange;
pub use laws::{
    bodies_are_heard_as_their_data, cuts_are_told_alike, cuts_do_not_matter, hearing_is_one,
    last_words_name_the_rule, listeners_are_told_what_they_draw, only_refused_calls_fail,
    who_waits_is_told_to_go_on,
};
pub use radio_answers::WebAnswers;
pub use radio_events::{Ending, Server, State};
pub use session::Session;

/// The error of a call if memory was refused.
pub type OutOfMemory = std::alloc::AllocError;
