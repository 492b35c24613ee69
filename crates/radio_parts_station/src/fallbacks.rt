//! The fallbacks that commands have set.

use radio_tables::Row;
use radio_values::MountName;
use std::marker::Model;

/// The listeners of a mount fall back to another one, or to none, whatever the settings say.
#[derive(Drop)]
pub(crate) struct Fallback {
    pub(crate) mount: MountName,
    pub(crate) fallback: Option<MountName>,
}

impl Model for Fallback {
    ghost use Rattle.radio_parts_station.specs.Fallbacks.{Fallback};

    ghost Value = { Fallback };

    ghost view = { λ f. record { mount = f.mount; fallback = f.fallback } };
}

impl Row for Fallback {
    type Key = MountName;

    ghost use Rattle.radio_tables.proofs.KeyLaws.{name_is};
    ghost use Rattle.radio_parts_station.specs.Fallbacks.{is_set_for};

    ghost key = { λ set. set.mount };

    ghost has_key = { is_set_for };

    ghost has_key_is = { λ mount set. name_is mount set.mount };

    fn key(&self) -> MountName {
        self.mount
    }
}
