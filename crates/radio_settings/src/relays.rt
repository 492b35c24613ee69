//! The tables `[[relay]]`.
ghost use Rattle.std.specs.Prelude.{◌≡◌, map};
ghost use Rattle.std.specs.List.{flat_map};
ghost use Rattle.toml.specs.View.{table_view};
ghost use Rattle.radio_keys.specs.Rows.{faults_in, first_fault};
ghost use Rattle.radio_keys.specs.Reading.{Reads, ReadsAs};
ghost use Rattle.radio_settings.specs.Parts.{relays_fault};
ghost use Rattle.radio_settings.specs.Relays.{local_mount_of, login_from, pulled_mount_of, relay_mounts_fault, pair_fault};
ghost use Rattle.radio_settings.specs.Relays.{relay_fault, relay_keys, relay_login, relays_of, relay_setting_of};

use crate::masters::master;
use crate::{Key, SettingsFault};
use radio_keys::{flag_or, name_or, required_name, tables_at, text_with};
use radio_settings_values::{Login, RelaySetting};
use radio_values::{MountName, Text};
use std::alloc::Global;
use toml::Table;

/// All relays.
#[tactic(auto, unfolding(crate::specs::Parts::relays_fault))]
pub fn relays(alloc: Global, document: &Table) -> Result<Vec<RelaySetting>, SettingsFault>
    ensures { let d = table_view document.now in
        ReadsAs (λ v. v.items) (relays_fault d) (relays_of d) result }
{
    let tables = tables_at(alloc, document, Key::Relay)?;
    relays_in(alloc, tables.as_slice())
}

fn relays_in(alloc: Global, tables: &[&Table]) -> Result<Vec<RelaySetting>, SettingsFault>
    ensures { let ts = map (λ t. table_view t.now) tables.now in
        ReadsAs (λ v. v.items) (first_fault (flat_map (faults_in relay_keys) ts)) (map relay_setting_of ts) result }
{
    let mut relays = Vec::new(alloc);
    for table in tables {
        relays.push(relay(alloc, table)?)?;
    }
    Ok(relays)
}

#[tactic(auto, using(crate::proofs::PartLemmas::relay_parts), unfolding(crate::specs::Relays::relay_setting_of))]
pub(crate) fn relay(alloc: Global, table: &Table) -> Result<RelaySetting, SettingsFault>
    ensures { let t = table_view table.now in
        Reads (relay_fault t) (relay_setting_of t) result }
{
    let master = master(alloc, table, Key::Server, Key::Port)?;
    let (mount, local_mount) = mounts(table)?;
    Ok(RelaySetting {
        master,
        mount,
        local_mount,
        login: pair(alloc, table)?,
        on_demand: flag_or(table, Key::OnDemand, false)?,
    })
}

/// The mount to pull, and the mount that it feeds.
#[tactic(auto, unfolding(crate::specs::Relays::relay_mounts_fault))]
fn mounts(table: &Table) -> Result<(MountName, MountName), SettingsFault>
    ensures { let t = table_view table.now in
        Reads (relay_mounts_fault t) (pulled_mount_of t, local_mount_of t) result }
{
    let mount = required_name(table, Key::Mount)?;
    let local_mount = name_or(table, Key::LocalMount, mount)?;
    Ok((mount, local_mount))
}

/// A user and a password: both, or neither.
#[tactic(auto, unfolding(crate::specs::Relays::pair_fault, crate::specs::Relays::relay_login))]
fn pair(alloc: Global, table: &Table) -> Result<Option<Login>, SettingsFault>
    ensures { let t = table_view table.now in
        Reads (pair_fault t) (relay_login t) result }
{
    let username = text_with(alloc, table, Key::Username, Key::Password)?;
    let password = text_with(alloc, table, Key::Password, Key::Username)?;
    Ok(login_from(username, password))
}

/// The login of a user and a password, if both are there.
fn login_from(username: Option<Text>, password: Option<Text>) -> Option<Login>
    ensures { result ≡ login_from username password }
{
    match (username, password) {
        (Some(username), Some(password)) => Some(Login { username, password }),
        _ => None,
    }
}
