//! What is kept of all mounts together.

ghost use Rattle.std.specs.Prelude.{◌≡◌, [], length};
ghost use Rattle.radio_parts_station.specs.Registry.{station_state};
ghost use Rattle.radio_parts_station.specs.World.{opening};

use crate::clients::Client;
use crate::fallbacks::Fallback;
use crate::live::LiveMount;
use crate::relays::Relay;
use radio_access::Lists;
use radio_settings_values::Settings;
use radio_tables::Table;
use std::alloc::Global;
use std::marker::Model;

/// What is kept of all mounts together: the moment, the settings and their lists, which mounts are
/// live, the fallbacks that were set, clients, relays, and the number that was given last.
pub struct Registry {
    /// The moment, in milliseconds.
    pub(crate) time: u64,
    pub(crate) settings: Settings,
    /// What the files that the settings name hold, and the users who were set or taken away since.
    pub(crate) lists: Lists,
    /// The mounts that are live, in the order of their names.
    pub(crate) live: Table<LiveMount>,
    /// The fallbacks that commands have set, in the order of their mounts' names.
    pub(crate) fallbacks: Table<Fallback>,
    /// The clients, in the order of their numbers.
    pub(crate) clients: Table<Client>,
    /// The relays, in the order of their numbers.
    pub(crate) relays: Table<Relay>,
    /// The number that was given last, to a client or a relay.
    pub(crate) last_id: u64,
}

impl Drop for Registry {
    fn drop(self) {
        let Registry {
            time: _,
            settings,
            lists,
            live,
            fallbacks,
            clients,
            relays,
            last_id: _,
        } = self;
        drop(settings);
        drop(lists);
        drop(live);
        drop(fallbacks);
        drop(clients);
        drop(relays);
    }
}

impl Model for Registry {
    ghost use Rattle.radio_parts_station.specs.Registry.{Registry};
    ghost use Rattle.std.specs.Coded.{codes};
    ghost use Rattle.radio_creds.specs.contracts.user_list.Users as creds_users;

    ghost Value = { Registry };

    ghost coded = { Prim.hlevel (codes, creds_users.the_row.coded) };

    ghost view = { λ c. record {
      time = c.time;
      settings = c.settings;
      lists = c.lists;
      live = c.live;
      fallbacks = c.fallbacks;
      clients = c.clients;
      relays = c.relays;
      last_id = c.last_id;
    } };
}

impl Registry {
    /// Nothing has happened yet. It takes no memory.
    pub fn new(alloc: Global, settings: Settings, lists: Lists) -> Registry
        ensures station { station_state result [] ≡ (opening settings lists).station }
        ensures live { result.live ≡ [] }
    {
        Registry {
            time: 0,
            settings,
            lists,
            live: Table::new(alloc),
            fallbacks: Table::new(alloc),
            clients: Table::new(alloc),
            relays: Table::new(alloc),
            last_id: 0,
        }
    }

    /// The moment, in milliseconds.
    pub fn time(&self) -> u64
        ensures { result ≡ self.now.time }
    {
        self.time
    }

    /// The settings.
    pub fn settings(&self) -> &Settings
        ensures { result.now ≡ self.now.settings }
    {
        &self.settings
    }

    /// What the files that the settings name hold, and the users who were set or taken away since.
    pub(crate) fn lists(&self) -> &Lists
        ensures { result.now ≡ self.now.lists }
    {
        &self.lists
    }

    /// The number that was given last, to a client or a relay.
    pub(crate) fn last_number(&self) -> u64
        ensures { result ≡ self.now.last_id }
    {
        self.last_id
    }

    /// How many clients there are; relays are none.
    pub(crate) fn client_count(&self) -> u64
        ensures { result ≡ length self.now.clients }
    {
        self.clients.len() as u64
    }
}
