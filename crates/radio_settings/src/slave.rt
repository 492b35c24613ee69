//! The table `[slave]`.
ghost use Rattle.toml.specs.View.{table_view};
ghost use Rattle.radio_keys.specs.Reading.{Reads};
ghost use Rattle.radio_settings.specs.Slave.{slave_fault, slave_of};

use crate::logins::login;
use crate::masters::master;
use crate::{Key, SettingsFault};
use radio_keys::number_or;
use radio_settings_values::SlaveSetting;
use std::alloc::Global;
use toml::Table;

/// A master whose mounts are all pulled in.
#[tactic(auto, using(crate::proofs::PartLemmas::slave_parts), unfolding(crate::specs::Slave::slave_of))]
pub fn slave(alloc: Global, table: &Table) -> Result<SlaveSetting, SettingsFault>
    ensures { let t = table_view table.now in
        Reads (slave_fault t) (slave_of t) result }
{
    Ok(SlaveSetting {
        master: master(alloc, table, Key::MasterServer, Key::MasterPort)?,
        login: login(
            alloc,
            table,
            Key::MasterUsername,
            "relay",
            Key::MasterPassword,
        )?,
        master_update_interval: number_or(table, Key::MasterUpdateInterval, 120)?,
    })
}
