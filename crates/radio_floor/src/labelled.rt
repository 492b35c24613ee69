//! The labels of a script.

ghost use Rattle.std.specs.Prelude.{◌≡◌, is_some};
ghost use Rattle.radio_floor.specs.ScriptState.{connection_of};

use radio_relay::RelayPull;
use radio_session::Session;
use radio_tables::{Row, Table};

/// The connection of a label of a script.
#[derive(Drop)]
pub enum Connection {
    /// A client's connection.
    Client(Session),
    /// A relay's connection to its master.
    Relay(RelayPull),
}

/// A label that was opened, and its connection until that is shut. What a draw reads of both is stored together.
#[derive(Drop)]
pub struct Labelled {
    /// The number by which the script names it.
    pub label: u32,
    /// None where it was shut, or never taken in.
    pub connection: Option<Connection>,
}

impl Row for Labelled {
    type Key = u32;

    ghost use Rattle.radio_tables.proofs.KeyLaws.{number_is};
    ghost use Rattle.radio_floor.specs.ScriptState.{has_label};

    ghost key = { λ labelled. labelled.label };

    ghost has_key = { has_label };

    ghost has_key_is = { λ label labelled. number_is label labelled.label };

    fn key(&self) -> u32 {
        self.label
    }
}

/// Whether the label was opened.
pub(crate) fn has_label(connections: &Table<Labelled>, label: u32) -> bool
    ensures { result ≡ is_some (connection_of connections.now label) }
{
    connections.get(&label).is_some()
}
