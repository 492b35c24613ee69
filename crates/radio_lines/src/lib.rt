//! TCP sockets as the lines of connections, each asked only once the system has reported that it is
//! ready.
//!
//! - [`Sockets`]: the sockets of one thread, as the system reports them; it makes a line of each, and waits until one
//!   has something to do ([`Polled`]).
//! - [`SocketLine`]: the line of a socket, or of any stream that never waits and can [`Shut`].
//! - [`Activity`]: what the lines of a thread share with its loop; [`Pace`]: how fast they give what sources send;
//!   [`NewsCount`]: what listeners have drawn, by which a source's end is held back.
//! - [`Network`], [`SystemNet`]: the net; [`moment`], [`moment_us`]: the clock.
//! - [`ends_are_answered`], [`sockets_are_left_alone`]: laws, which run no code.
//!
//! No clause says what a socket gives or takes, since the system holds it. What is proved is that a
//! line gives its worker the bytes that it got from the system, and no others.
#![tactic(auto)]

mod activity;
mod clock;
mod closing;
mod course;
mod laws;
mod line;
mod pace;
mod reach;
mod readiness;
mod ready;
mod sockets;
mod stream;

pub use activity::Activity;
pub use clock::{moment, moment_us};
pub use closing::NewsCount;
pub use laws::{ends_are_answered, sockets_are_left_alone};
pub use line::SocketLine;
pub use pace::Pace;
pub use reach::{Network, SystemNet};
pub use sockets::{Polled, Sockets};
pub use stream::Shut;

/// What a call answers if memory was refused.
pub type OutOfMemory = std::alloc::AllocError;
