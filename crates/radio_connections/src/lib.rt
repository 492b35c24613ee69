//! Connections over lines, and what one turn does for one connection.
//!
//! - [`Line`], [`Gate`]: the transport of a connection's bytes, and what a worker calls around
//!   writes.
//! - [`CallCount`], [`History`]: what a line notes for proofs alone.
//! - [`Conn`]: a connection. [`Conn::admitted`] makes it of an arrival, and [`serve`] serves it, at a moment ([`Now`]),
//!   with what its worker lends it ([`Workspace`]).
//! - [`Server`]: what a connection asks. [`WebAnswers`]: the settings for its answers. [`DRAW_ROOM`]: how much a
//!   listener draws in a turn; [`fills_room`]: whether there may be more than it drew.
//! - [`count_lingering`], [`close_first_lingering`]: those on which nothing more is written.
#![tactic(auto)]

mod calls;
mod conn;
mod history;
mod line;
mod lingering;
mod outgoing;
mod refusals;
mod serving;
mod workspace;

pub use calls::CallCount;
pub use conn::{Conn, ConnStatus, Fate};
pub use history::History;
pub use line::{Gate, Line, OpenGate, Received, Sent};
pub use lingering::{close_first_lingering, count_lingering};
pub use radio_session::{Server, WebAnswers};
pub use serving::Now;
pub use serving::drawing::{DRAW_ROOM, fills_room};
pub use serving::moment::serve;
pub use workspace::Workspace;

/// What a call answers if memory was refused.
pub type OutOfMemory = std::alloc::AllocError;
