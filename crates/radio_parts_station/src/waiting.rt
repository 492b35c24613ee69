//! Mounts that wait for a session: relays feed them on demand, and listeners may sit there before
//! anything is to be heard.

ghost use Rattle.std.specs.Prelude.{◌≡◌, true, OnOk};
ghost use Rattle.radio_seats_rows.specs.SeatTable.{is_prepared};
ghost use Rattle.radio_parts_station.specs.Waiting.{is_on_demand, feeds_on_demand};

use crate::OutOfMemory;
use crate::registry::Registry;
use crate::station::StationState;
use radio_parts_table::Listeners;
use radio_settings_values::RelaySetting;
use radio_values::MountName;

impl StationState<'_> {
    /// Returns whether a relay of the settings feeds the mount on demand.
    pub fn is_on_demand(&self, mount: &MountName) -> bool
        ensures { result ≡ is_on_demand self.now.settings mount.now }
    {
        self.registry.is_on_demand(mount)
    }
}

impl Registry {
    /// Returns whether a relay of the settings feeds the mount on demand.
    pub(crate) fn is_on_demand(&self, mount: &MountName) -> bool
        ensures { result ≡ is_on_demand self.now.settings mount.now }
    {
        match self.settings.relays.get(mount) {
            Some(relay) => relay.on_demand,
            None => false,
        }
    }

    /// Listeners can be seated from now on at each mount that a relay feeds on demand. `OutOfMemory`
    /// if memory was refused; then they can be at some of these.
    fn prepare_on_demand(&self, seats: &mut Listeners) -> Result<(), OutOfMemory>
        ensures each { OnOk result ((mount : _) → is_on_demand self.now.settings mount ≡ true → is_prepared seats.new.prepared mount ≡ true) }
        ensures others { (mount : _) → is_prepared seats.old.prepared mount ≡ true → is_prepared seats.new.prepared mount ≡ true }
        ensures seats { seats.new.seats ≡ seats.old.seats }
        ensures live { seats.new.live ≡ seats.old.live }
    {
        prepare_each(self.settings.relays.as_slice(), seats)
    }

    /// Listeners can be seated from now on at the mount, and at each that a relay feeds on demand.
    /// `OutOfMemory` if memory was refused; then they can be at some of these.
    pub fn prepare_to_seat(
        &self,
        seats: &mut Listeners,
        mount: &MountName,
    ) -> Result<(), OutOfMemory>
        ensures mount { OnOk result (is_prepared seats.new.prepared mount.now ≡ true) }
        ensures each { OnOk result ((mount : _) → is_on_demand self.now.settings mount ≡ true → is_prepared seats.new.prepared mount ≡ true) }
        ensures others { (mount : _) → is_prepared seats.old.prepared mount ≡ true → is_prepared seats.new.prepared mount ≡ true }
        ensures seats { seats.new.seats ≡ seats.old.seats }
        ensures live { seats.new.live ≡ seats.old.live }
    {
        self.prepare_on_demand(seats)?;
        // where it is live it is prepared already
        seats.prepare(mount)
    }
}

/// Listeners can be seated from now on where these relays feed on demand. `OutOfMemory` if memory
/// was refused; then they can be at some of these mounts.
fn prepare_each(relays: &[RelaySetting], seats: &mut Listeners) -> Result<(), OutOfMemory>
    ensures each { OnOk result ((mount : _) → feeds_on_demand relays.now mount ≡ true → is_prepared seats.new.prepared mount ≡ true) }
    ensures others { (mount : _) → is_prepared seats.old.prepared mount ≡ true → is_prepared seats.new.prepared mount ≡ true }
    ensures seats { seats.new.seats ≡ seats.old.seats }
    ensures live { seats.new.live ≡ seats.old.live }
{
    for relay in relays {
        prepare_for(relay, seats)?;
    }
    Ok(())
}

/// Listeners can be seated from now on where this relay feeds on demand, if it does. `OutOfMemory`
/// if memory was refused; nothing has changed then.
fn prepare_for(relay: &RelaySetting, seats: &mut Listeners) -> Result<(), OutOfMemory>
    ensures its { OnOk result (relay.now.on_demand ≡ true → is_prepared seats.new.prepared relay.now.local_mount ≡ true) }
    ensures others { (mount : _) → is_prepared seats.old.prepared mount ≡ true → is_prepared seats.new.prepared mount ≡ true }
    ensures seats { seats.new.seats ≡ seats.old.seats }
    ensures live { seats.new.live ≡ seats.old.live }
{
    if relay.on_demand {
        seats.prepare(&relay.local_mount)
    } else {
        Ok(())
    }
}
