//! Connections, which a worker serves turn by turn.
//!
//! - [`Worker`]: [`Worker::admit`] takes a connection in, and [`Worker::serve_turn`] serves all, by a [`Turn`].
//! - [`Watched`]: a server as a worker asks it, with a pass, and what it found of the replies ([`Found`], of which it may [`Take`] a part).
//! - [`open_sessions_have_not_failed`], [`news_is_found`], [`time_is_given`]: laws, which run no code.
//! - Lines and connections are those of `radio_connections`, under its names.
#![tactic(auto)]

mod found;
mod kind;
mod laws;
mod round;
mod sources;
mod turn;
mod watched;
mod worker;

pub use found::{Found, Take};
pub use laws::{news_is_found, open_sessions_have_not_failed, time_is_given};
pub use radio_connections::{
    CallCount, Conn, ConnStatus, Fate, Gate, History, Line, OpenGate, OutOfMemory, Received, Sent,
    Server, WebAnswers, close_first_lingering, count_lingering,
};
pub use turn::Turn;
pub use watched::Watched;
pub use worker::Worker;
