//! Which relays are to start, and which are to stop.
ghost use Rattle.std.specs.Prelude.{◌≡◌, ◌++◌, IfOk, OnOk};
ghost use Rattle.radio_relay.specs.Orders.{orders, mounts_in_question, with_other_names, wished_at, listed_at, relay_listed, is_wished, order_of, relayed_mounts};

use crate::OutOfMemory;
use radio_settings_values::{RelaySetting, Settings, SlaveSetting};
use radio_values::MountName;
use std::alloc::Global;
use std::collections::BTreeSet;

/// What is to be done with a relay.
#[derive(Drop)]
pub enum RelayOrder {
    /// It is to be pulled.
    Start(RelaySetting),
    /// The one that feeds this mount is to be ended.
    Stop(MountName),
}

/// Orders in the order of the mounts that the relays feed: a relay that is wished and not live is started, and a live one
/// that is not wished is stopped.
///
/// - `list`: the names that the master of the slave listed last. Each is relayed under its own name, without a login,
///   unless the settings have a mount or a relay of that name, or no slave.
/// - `live`: the mounts that relays feed now.
/// - `wanted`: the mounts that somebody waits for. A relay of the settings that is on demand is wished while its mount
///   is among them, every other one always.
///
/// The only error is `OutOfMemory`.
// rule: Pulls on demand; Pulled relays
pub fn plan(
    alloc: Global,
    settings: &Settings,
    list: &BTreeSet<MountName>,
    live: &[MountName],
    wanted: &[MountName],
) -> Result<Vec<RelayOrder>, OutOfMemory>
    ensures { IfOk result (λ found. found.items ≡ orders settings.now list.now.keys live.now wanted.now) }
{
    let mut mounts = mounts_in_question(settings, list, live)?;
    let mut orders = Vec::new(alloc);
    'mounts: while let Some(mount) = mounts.pop_first() {
        let relay = wished_at(settings, list, wanted, &mount)?;
        push_order(&mut orders, mount, relay, live.contains(&mount))?;
    }
    Ok(orders)
}

/// All mounts that relays may feed, and those that they feed.
fn mounts_in_question(
    settings: &Settings,
    list: &BTreeSet<MountName>,
    live: &[MountName],
) -> Result<BTreeSet<MountName>, OutOfMemory>
    ensures { IfOk result (λ mounts. mounts.keys ≡ mounts_in_question settings.now list.now.keys live.now) }
{
    let mut mounts = list.clone()?;
    add_relays(&mut mounts, settings.relays.as_slice())?;
    add_all(&mut mounts, live)?;
    Ok(mounts)
}

fn add_relays(mounts: &mut BTreeSet<MountName>, relays: &[RelaySetting]) -> Result<(), OutOfMemory>
    ensures { OnOk result (mounts.new.keys ≡ with_other_names mounts.old.keys (relayed_mounts relays.now)) }
{
    for relay in relays {
        mounts.insert(relay.local_mount)?;
    }
    Ok(())
}

fn add_all(mounts: &mut BTreeSet<MountName>, names: &[MountName]) -> Result<(), OutOfMemory>
    ensures { OnOk result (mounts.new.keys ≡ with_other_names mounts.old.keys names.now) }
{
    for name in names {
        mounts.insert(*name)?;
    }
    Ok(())
}

/// The relay that is wished at a mount.
fn wished_at(
    settings: &Settings,
    list: &BTreeSet<MountName>,
    wanted: &[MountName],
    mount: &MountName,
) -> Result<Option<RelaySetting>, OutOfMemory>
    ensures { IfOk result (λ relay. relay ≡ wished_at settings.now list.now.keys wanted.now mount.now) }
{
    match settings.relays.get(mount) {
        Some(relay) => {
            if is_wished(relay, wanted) {
                Ok(Some(relay.clone()?))
            } else {
                Ok(None)
            }
        }
        None => listed_at(settings, list, mount),
    }
}

/// Whether a relay of the settings is wished.
fn is_wished(relay: &RelaySetting, wanted: &[MountName]) -> bool
    ensures { result ≡ is_wished wanted.now relay.now }
{
    !relay.on_demand || wanted.contains(&relay.local_mount)
}

/// The relay of a listed name, if it is to be one.
fn listed_at(
    settings: &Settings,
    list: &BTreeSet<MountName>,
    mount: &MountName,
) -> Result<Option<RelaySetting>, OutOfMemory>
    ensures { IfOk result (λ relay. relay ≡ listed_at settings.now list.now.keys mount.now) }
{
    if !list.contains(mount) || settings.mounts.get(mount).is_some() {
        return Ok(None);
    }
    match &settings.slave {
        Some(slave) => Ok(Some(relay_listed(*mount, slave)?)),
        None => Ok(None),
    }
}

fn relay_listed(mount: MountName, slave: &SlaveSetting) -> Result<RelaySetting, OutOfMemory>
    ensures { IfOk result (λ relay. relay ≡ relay_listed mount slave.now) }
{
    Ok(RelaySetting {
        master: slave.master.clone()?,
        mount,
        local_mount: mount,
        login: None,
        on_demand: false,
    })
}

/// Appends the order for a mount, if there is one.
fn push_order(
    orders: &mut Vec<RelayOrder>,
    mount: MountName,
    relay: Option<RelaySetting>,
    is_live: bool,
) -> Result<(), OutOfMemory>
    ensures { OnOk result (orders.new.items ≡ orders.old.items ++ order_of mount relay is_live) }
{
    match relay {
        Some(relay) if !is_live => orders.push(RelayOrder::Start(relay))?,
        None if is_live => orders.push(RelayOrder::Stop(mount))?,
        _ => {}
    }
    Ok(())
}
