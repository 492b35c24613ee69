//! The relays that are there.

use radio_policy::Rule;
use radio_tables::{Row, RowChange};
use radio_values::MountName;
use std::marker::Model;

/// What a relay does.
#[derive(Clone, Copy)]
pub enum RelayState {
    /// It feeds the mount.
    Feeds(MountName),
    /// Its session was ended by the rule.
    Ended(Rule),
}

/// A relay that has come up and has not gone down. It is no client.
#[derive(Drop)]
pub(crate) struct Relay {
    pub(crate) id: u64,
    pub(crate) state: RelayState,
}

impl Model for Relay {
    ghost use Rattle.radio_parts_station.specs.Relays.{Relay};

    ghost Value = { Relay };

    ghost view = { λ c. record { id = c.id; state = c.state } };
}

impl Row for Relay {
    type Key = u64;

    ghost use Rattle.radio_tables.proofs.KeyLaws.{number_is};
    ghost use Rattle.radio_parts_station.specs.Relays.{is_relay};

    ghost key = { λ relay. relay.id };

    ghost has_key = { is_relay };

    ghost has_key_is = { λ id relay. number_is id relay.id };

    fn key(&self) -> u64 {
        self.id
    }
}

/// The relay does this from now on.
#[derive(Drop)]
pub(crate) struct SetRelayState {
    pub(crate) state: RelayState,
}

impl RowChange<Relay> for SetRelayState {
    ghost use Rattle.std.specs.Prelude.{refl};
    ghost use Rattle.radio_parts_station.specs.Relays.{doing};

    ghost gives = { λ change relay. doing change.state relay };

    ghost keeps_key = { λ change relay. refl };

    fn apply(&self, row: &mut Relay) {
        row.state = self.state;
    }
}
