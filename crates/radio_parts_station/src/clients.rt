//! The clients that are there.

use radio_addr::Peer;
use radio_policy::Rule;
use radio_tables::{Row, RowChange};
use radio_values::MountName;
use std::marker::Model;

/// What a client does.
#[derive(Clone, Copy)]
pub enum ClientState {
    /// It has asked for nothing yet.
    Undecided,
    /// It is the source of the mount.
    Feeds(MountName),
    /// It was admitted as a listener; the table of listeners has it.
    Listens,
    /// It has had its answer, and nothing more is to come.
    Answered,
    /// It was finished by the rule, and had no seat.
    Ended(Rule),
}

/// A client that has arrived and has not left.
#[derive(Drop)]
pub(crate) struct Client {
    pub(crate) id: u64,
    pub(crate) peer: Peer,
    /// The moment of its arrival, in milliseconds.
    pub(crate) arrived: u64,
    pub(crate) state: ClientState,
}

impl Model for Client {
    ghost use Rattle.radio_parts_station.specs.Clients.{Client};

    ghost Value = { Client };

    ghost view = { λ c. record { id = c.id; peer = c.peer; arrived = c.arrived; state = c.state } };
}

impl Row for Client {
    type Key = u64;

    ghost use Rattle.radio_tables.proofs.KeyLaws.{number_is};
    ghost use Rattle.radio_parts_station.specs.Clients.{is_client};

    ghost key = { λ client. client.id };

    ghost has_key = { is_client };

    ghost has_key_is = { λ id client. number_is id client.id };

    fn key(&self) -> u64 {
        self.id
    }
}

/// The client does something else from now on.
#[derive(Drop)]
pub(crate) struct SetState {
    pub(crate) state: ClientState,
}

impl RowChange<Client> for SetState {
    ghost use Rattle.std.specs.Prelude.{refl};
    ghost use Rattle.radio_parts_station.specs.Clients.{with_client_state};

    ghost gives = { λ change client. with_client_state change.state client };

    ghost keeps_key = { λ change client. refl };

    fn apply(&self, row: &mut Client) {
        row.state = self.state;
    }
}
