//! The server for threads, under one name: the hall, the queue of new connections, and the workers that serve them. And the passes
//! of a hall held against the one legal history, when nobody calls any more.
//!
//! - [`Hall`] has a lock for each mount and one for the control. Threads call it, each through its [`Pass`].
//! - [`settle`] compares all passes of a hall with what it has stored, once the threads have been joined. Read it first.
//!   [`settle_books`] compares those of a server whose mounts' parts are apart from its control. [`settle_family`] compares
//!   those of a server that keeps a list for each mount and one for its control. [`SettleFault`] is what is wrong with them.
//! - [`Intake`] is the queue from the acceptor to the workers, and [`Accepts`] says when the acceptor accepts.
//! - [`Conn`] is a connection over a [`Line`]. A [`Worker`] admits and serves connections; [`run_workers`] runs one in each
//!   thread. It calls a [`Gate`] before and after each write.
//!
//! - [`settled_histories_are_woven`]: a law, which runs no code, from the passes to the history.
//!
//! The program settles nothing, since only a server that stores its entries can be settled. Tests do, to see the history. The
//! contracts of re-exported items are in the crates that define them.
#![tactic(auto)]

mod family;
mod fault;
mod hall;
mod laws;
mod passes;
mod places;
mod settling;

pub use family::settle_books;
pub use fault::SettleFault;
pub use hall::settle;
pub use laws::settled_histories_are_woven;
pub use radio_book::{Chronicle, Entry, Kept, Origin, PASSES, Pass, Receipt, Stamp, Unkept};
pub use radio_connections::{
    CallCount, Conn, Gate, History, Line, OpenGate, Received, Sent, Server, WebAnswers,
};
pub use radio_events::SharedServer;
pub use radio_locks::{Hall, OutOfMemory};
pub use radio_notes::Log;
pub use radio_serving::{Turn, Watched, Worker};
pub use radio_workers::{
    AcceptFault, AcceptResult, AcceptTry, Accepts, Entrance, Intake, IntakePass, ROOM, Seen,
    TurnSource, TurnStart, WorkerSlot, Workplace, accept_next, add_slot, run_workers,
};
pub use settling::settle_family;
