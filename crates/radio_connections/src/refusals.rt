//! What was refused to a connection for want of memory, which only proofs read. It takes no memory.

ghost use Rattle.std.specs.Prelude.{◌≡◌};
ghost use Rattle.radio_connections.specs.Connections.{no_refusals, refused_one};

use crate::history::History;
use std::marker::Model;

/// How many of a connection's events were refused, and how many of these were the leaving of a client.
/// In contracts it is these two numbers.
#[derive(Drop)]
pub(crate) struct Refusals {
    events: History,
    leavings: History,
}

impl Model for Refusals {
    ghost use Rattle.std.specs.Prelude.{length};
    ghost use Rattle.radio_connections.specs.Connections.{Refused};

    ghost Value = { Refused };

    ghost view = { λ r. record { events = length r.events.items; leavings = length r.leavings.items } };
}

impl Refusals {
    /// Nothing was refused yet.
    pub(crate) fn new() -> Refusals
        ensures { result ≡ no_refusals }
    {
        Refusals {
            events: History::new(),
            leavings: History::new(),
        }
    }

    /// Counts an event that was refused, and whether by it a client was to leave.
    pub(crate) fn count(&mut self, leaves: bool)
        ensures { self.new ≡ refused_one leaves self.old }
    {
        self.events.note(&[0]);
        if leaves {
            self.leavings.note(&[0]);
        }
    }
}
