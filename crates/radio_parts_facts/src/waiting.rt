//! Mounts that wait for a session: what is heard there, and where somebody sits.

ghost use Rattle.std.specs.Prelude.{◌≡◌, [], fold, IfOk, OnOk};
ghost use Rattle.radio_parts_station.specs.Waiting.{silence_at};
ghost use Rattle.radio_parts_station.specs.World.{world};
ghost use Rattle.radio_parts_facts.specs.Wanted.{is_wanted, wanted, with_wanted};

use crate::OutOfMemory;
use crate::streams::shown_for;
use radio_parts_mount::Session;
use radio_parts_station::StationState;
use radio_parts_table::Listeners;
use radio_settings_values::RelaySetting;
use radio_values::{MountName, Shown};
use std::alloc::Global;
use std::collections::BTreeSet;

/// What is heard at a mount that waits for a session. `OutOfMemory` if memory was refused.
pub fn silence(
    alloc: Global,
    station: &StationState<'_>,
    mount: MountName,
) -> Result<Session, OutOfMemory>
    ensures { IfOk result (λ session. session ≡ silence_at station.now mount) }
{
    let shown = shown_for(
        station,
        &mount,
        &Shown::clean(alloc, b"audio/mpeg", b"", b"")?,
    )?;
    Session::new(alloc, mount, 0, shown, 0)
}

/// The mounts where one of these listeners sits, which relays feed on demand, in the order of
/// their bytes. `OutOfMemory` if memory was refused.
pub fn wanted(
    alloc: Global,
    station: &StationState<'_>,
    seats: &Listeners,
) -> Result<Vec<MountName>, OutOfMemory>
    ensures { IfOk result (λ mounts. mounts.items ≡ wanted (world station.now seats.now.seats)) }
{
    let names = wanted_among(alloc, station.settings().relays.as_slice(), seats)?;
    names_of(alloc, &names)
}

/// The mounts that these relays feed on demand where somebody sits. `OutOfMemory` if memory was
/// refused.
fn wanted_among(
    alloc: Global,
    relays: &[RelaySetting],
    seats: &Listeners,
) -> Result<BTreeSet<MountName>, OutOfMemory>
    ensures { IfOk result (λ names. names.keys ≡ fold (with_wanted seats.now.seats) [] relays.now) }
{
    let mut names = BTreeSet::new(alloc);
    for relay in relays {
        add_wanted(&mut names, seats, relay)?;
    }
    Ok(names)
}

/// The mount is named too that the relay feeds, if somebody sits there and it is on demand.
/// `OutOfMemory` if memory was refused.
fn add_wanted(
    names: &mut BTreeSet<MountName>,
    seats: &Listeners,
    relay: &RelaySetting,
) -> Result<(), OutOfMemory>
    ensures { OnOk result (names.new.keys ≡ with_wanted seats.now.seats names.old.keys relay.now) }
{
    if is_wanted(seats, relay) {
        names.insert(relay.local_mount)?;
    }
    Ok(())
}

/// The names, in their order.
fn names_of(alloc: Global, names: &BTreeSet<MountName>) -> Result<Vec<MountName>, OutOfMemory>
    ensures { IfOk result (λ all. all.items ≡ names.now.keys) }
{
    let mut all = Vec::new(alloc);
    for name in names.iter() {
        all.push(*name)?;
    }
    Ok(all)
}

/// Whether the relay is on demand, and somebody sits at the mount that it feeds.
fn is_wanted(seats: &Listeners, relay: &RelaySetting) -> bool
    ensures { result ≡ is_wanted seats.now.seats relay.now }
{
    relay.on_demand && seats.count(&relay.local_mount) > 0
}
