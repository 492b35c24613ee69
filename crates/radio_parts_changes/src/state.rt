//! Registry, listeners and parts, which are all of the server's state.

ghost use Rattle.std.specs.Prelude.{◌≡◌};
ghost use Rattle.std.specs.Option.{option_copied};
ghost use Rattle.radio_seats_rows.specs.Seats.{last_mount_of};
ghost use Rattle.radio_parts_station.specs.World.{opening};

use radio_access::Lists;
use radio_parts_station::{Registry, StationState};
use radio_parts_table::Listeners;
use radio_settings_values::Settings;
use radio_values::MountName;
use std::alloc::Global;
use std::marker::Model;

/// All of the server's state: what is kept of all mounts together, the listeners, and the parts of the
/// mounts with their sessions. Contracts see it as a `World` in which of each stream the last blocks
/// are kept. Each live mount is prepared for listeners, and as long as there are some, so is each that
/// waits for a session. The registry notes of each session its mount and its number.
pub struct ServerState {
    pub(crate) registry: Registry,
    /// The listeners, with the parts of the mounts.
    pub(crate) listeners: Listeners,
}

impl Drop for ServerState {
    fn drop(self) {
        let ServerState {
            registry,
            listeners,
        } = self;
        drop(registry);
        drop(listeners);
    }
}

impl Model for ServerState {
    ghost use Rattle.radio_parts_station.specs.Registry.{station_state};
    ghost use Rattle.radio_parts_station.specs.Live.{AreLive};
    ghost use Rattle.radio_parts_station.specs.World.{World, world};
    ghost use Rattle.radio_parts_mount.specs.Prepared.{LiveArePrepared};
    ghost use Rattle.radio_parts_changes.specs.Prepared.{OnDemandArePrepared};
    ghost use Rattle.std.specs.Coded.{codes};
    ghost use Rattle.radio_creds.specs.contracts.user_list.Users as creds_users;

    ghost Value = { World };

    ghost coded = { Prim.hlevel (codes, creds_users.the_row.coded) };

    ghost view = { λ c. world (station_state c.registry c.listeners.live) c.listeners.seats };

    ghost invariant = { λ c. (LiveArePrepared c.listeners.live c.listeners.prepared × OnDemandArePrepared c.registry.settings c.listeners) × AreLive c.registry.live c.listeners.live };
}

impl ServerState {
    /// Returns a state in which nothing has happened yet. It takes no memory.
    pub fn new(alloc: Global, settings: Settings, lists: Lists) -> ServerState
        ensures { result ≡ opening settings lists }
    {
        ServerState {
            registry: Registry::new(alloc, settings, lists),
            listeners: Listeners::new(alloc),
        }
    }

    /// Makes each part that is created from now on keep a list of what happens to it.
    pub fn keep_lists(&mut self, alloc: Global)
        ensures { self.new ≡ self.old }
    {
        let queue = self.registry.settings().limits.queue_size.get() as u64;
        self.listeners.keep_lists(alloc, queue);
    }

    /// Returns the state of the station, which is all of the state but the table of listeners.
    pub fn station(&self) -> StationState<'_>
        ensures { result ≡ self.now.station }
    {
        StationState::of(&self.registry, self.listeners.parts())
    }

    /// Returns the table of listeners.
    pub fn seats(&self) -> &Listeners
        ensures seats { result.now.seats ≡ self.now.seats }
        ensures live { result.now.live ≡ self.now.station.live }
    {
        &self.listeners
    }

    /// The mount where the listener of this number sits, or sat last; none if there is no such
    /// listener.
    pub(crate) fn last_mount(&self, id: u64) -> Option<&MountName>
        ensures { option_copied result ≡ last_mount_of self.now.seats id }
    {
        self.listeners.last_mount(id)
    }
}
