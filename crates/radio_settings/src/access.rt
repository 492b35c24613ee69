//! The keys above all tables.
ghost use Rattle.toml.specs.View.{table_view};
ghost use Rattle.radio_keys.specs.Reading.{Reads};
ghost use Rattle.radio_keys.specs.Rows.{first_fault};
ghost use Rattle.radio_settings.specs.Access.{access_fault, access_of, addresses_fault, addresses_of, relay_access_fault, relay_access_of};
ghost use Rattle.std.specs.Prelude.{[], ◌∷◌};

use crate::logins::login;
use crate::{Key, SettingsFault};
use radio_keys::{required_text, text, text_or};
use radio_settings_values::{AccessSettings, AddressLists, RelayAccess};
use std::alloc::Global;
use toml::Table;

/// Passwords, users and address lists.
#[tactic(auto, using(crate::proofs::PartLemmas::access_parts), unfolding(crate::specs::Access::access_of))]
pub fn access(alloc: Global, document: &Table) -> Result<AccessSettings, SettingsFault>
    ensures { let t = table_view document.now in
        Reads (access_fault t) (access_of t) result }
{
    let source_password = required_text(alloc, document, Key::SourcePassword)?;
    let admin = login(alloc, document, Key::AdminUser, "admin", Key::AdminPassword)?;
    let (relays, addresses) = relays_and_addresses(alloc, document)?;
    Ok(AccessSettings {
        source_password,
        admin,
        relays,
        addresses,
    })
}

fn relays_and_addresses(
    alloc: Global,
    document: &Table,
) -> Result<(RelayAccess, AddressLists), SettingsFault>
    ensures { let t = table_view document.now in
        Reads (first_fault (relay_access_fault t ∷ addresses_fault t ∷ [])) (relay_access_of t, addresses_of t) result }
{
    let relays = relay_access(alloc, document)?;
    let addresses = addresses(alloc, document)?;
    Ok((relays, addresses))
}

#[tactic(auto, unfolding(crate::specs::Access::relay_access_fault, crate::specs::Access::relay_access_of))]
fn relay_access(alloc: Global, document: &Table) -> Result<RelayAccess, SettingsFault>
    ensures { let t = table_view document.now in
        Reads (relay_access_fault t) (relay_access_of t) result }
{
    Ok(RelayAccess {
        username: text_or(alloc, document, Key::RelayUser, "relay")?,
        password: text(alloc, document, Key::RelayPassword)?,
    })
}

#[tactic(auto, unfolding(crate::specs::Access::addresses_fault, crate::specs::Access::addresses_of))]
fn addresses(alloc: Global, document: &Table) -> Result<AddressLists, SettingsFault>
    ensures { let t = table_view document.now in
        Reads (addresses_fault t) (addresses_of t) result }
{
    Ok(AddressLists {
        deny_ip: text(alloc, document, Key::DenyIp)?,
        allow_ip: text(alloc, document, Key::AllowIp)?,
    })
}
