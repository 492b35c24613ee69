//! A server that streams are pulled from.
ghost use Rattle.toml.specs.View.{table_view};
ghost use Rattle.radio_keys.specs.Reading.{Reads};
ghost use Rattle.radio_settings.specs.Masters.{master_fault, master_of};

use crate::{Key, SettingsFault};
use radio_keys::{number_or, required_field};
use radio_settings_values::Master;
use std::alloc::Global;
use toml::Table;

/// The server that must be at one key, and the port at another, or 8000.
#[tactic(auto, unfolding(crate::specs::Masters::master_fault, crate::specs::Masters::master_of))]
pub fn master(alloc: Global, table: &Table, server: Key, port: Key) -> Result<Master, SettingsFault>
    ensures { let t = table_view table.now in
        Reads (master_fault server port t) (master_of server port t) result }
{
    Ok(Master {
        server: required_field(alloc, table, server)?,
        port: number_or(table, port, 8000)?,
    })
}
