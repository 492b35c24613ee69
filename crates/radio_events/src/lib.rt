//! What happens to the server, and what it replies.
//!
//! - [`Event`]: what happens; [`SourceRequest`], [`ListenRequest`] and [`CommandRequest`] are what a
//!   client asks for. [`PageVisit`]: what a page of the web site says of the server to one client.
//! - [`Boxed`]: a value in an allocation of its own, as what a client asks for is: so an event and a reply move for little.
//! - [`Reply`]: what the server replies; a [`ReplyText`] is its answer to a command, or to one who
//!   is shown something of the station.
//! - [`State`], [`Ending`]: whether a connection goes on, and the word by which it ends.
//! - [`Entry`]: one event with its reply, of which histories are made.
//! - [`Server`]: whoever applies events.
//! - [`SharedServer`]: a server that several threads ask, each by a pass of its own.
//! - `again` of either is an equal copy.
#![tactic(auto)]

mod again;
mod boxed;
mod command;
mod entry;
mod event;
mod reply;
mod server;
mod shared_server;
mod state;
mod text;

pub use boxed::Boxed;
pub use command::{Asked, Command, CommandRequest, Listing, OpenedBy};
pub use entry::Entry;
pub use event::{Event, ListenRequest, MomentText, PageVisit, SourceRequest};
pub use reply::{Reply, StreamHead};
pub use server::Server;
pub use shared_server::SharedServer;
pub use state::{Ending, State};
pub use text::ReplyText;

/// What a call answers if memory was refused. Nothing has changed then.
pub type OutOfMemory = std::alloc::AllocError;
