//! All of the server's state but the table of listeners, as it is looked at.

ghost use Rattle.std.specs.Prelude.{◌≡◌, ◌+◌, nat_lt, find, length, map, IfOk};
ghost use Rattle.std.specs.Cmp.Lexicographic.{slice_cmp};
ghost use Rattle.std.specs.List.Sorted.{IsStrictlySortedBy};
ghost use Rattle.std.specs.Option.{option_copied};
ghost use Rattle.std.specs.Ordering.{nat_cmp};
ghost use Rattle.radio_parts_mount.specs.Sessions.{Session as SessionOf, session_of};
ghost use Rattle.radio_parts_mount.specs.Timeouts.{is_silent};
ghost use Rattle.radio_parts_station.specs.Registry.{station_state};
ghost use Rattle.radio_parts_station.specs.Facts.{largest_number, live_end};
ghost use Rattle.radio_parts_station.specs.Live.{AreLive};

use crate::OutOfMemory;
use crate::registry::Registry;
use radio_access::Lists;
use radio_parts_mount::Session;
use radio_parts_table::MountParts;
use radio_seats_rows::KeptName;
use radio_settings_values::Settings;
use radio_values::MountName;
use std::alloc::Global;
use std::marker::Model;

/// All of the server's state but the table of listeners, as it is looked at: what is kept of all
/// mounts together, and the live mounts' sessions.
#[derive(Drop)]
pub struct StationState<'a> {
    pub(crate) registry: &'a Registry,
    pub(crate) parts: &'a MountParts,
}

impl<'a> Model for StationState<'a> {
    ghost use Rattle.radio_parts_station.specs.StationState.{StationState};
    ghost use Rattle.radio_parts_station.specs.Registry.{station_state};
    ghost use Rattle.radio_parts_station.specs.Live.{AreLive};
    ghost use Rattle.std.specs.Coded.{codes};
    ghost use Rattle.radio_creds.specs.contracts.user_list.Users as creds_users;

    ghost Value = { StationState };

    ghost coded = { Prim.hlevel (codes, creds_users.the_row.coded) };

    ghost view = { λ h. station_state h.registry.now h.parts.now.live };

    ghost invariant = { λ h. AreLive h.registry.now.live h.parts.now.live };
}

impl<'a> StationState<'a> {
    /// Returns the state of the station that has these.
    pub fn of(registry: &'a Registry, parts: &'a MountParts) -> StationState<'a>
        requires { AreLive registry.now.live parts.now.live }
        ensures { result ≡ station_state registry.now parts.now.live }
    {
        StationState { registry, parts }
    }

    /// The moment, in milliseconds.
    pub fn time(&self) -> u64
        ensures { result ≡ self.now.time }
    {
        self.registry.time()
    }

    /// The settings.
    pub fn settings(&self) -> &'a Settings
        ensures { result.now ≡ self.now.settings }
    {
        self.registry.settings()
    }

    /// What the files that the settings name hold, and the users who were set or taken away since.
    pub fn lists(&self) -> &'a Lists
        ensures { result.now ≡ self.now.lists }
    {
        self.registry.lists()
    }

    /// The number that was given last, to a client or a relay.
    pub fn last_number(&self) -> u64
        ensures { result ≡ self.now.last_id }
    {
        self.registry.last_number()
    }

    /// How many clients there are, who asks among them; relays are none.
    pub fn client_count(&self) -> u64
        ensures { result ≡ length self.now.clients }
    {
        self.registry.client_count()
    }

    /// Returns the parts of the mounts, with the sessions of those that are live.
    pub fn parts(&self) -> &'a MountParts
        ensures { result.now.live ≡ self.now.live }
    {
        self.parts
    }

    /// Returns how many mounts are live.
    pub fn live_count(&self) -> u64
        ensures { result ≡ length self.now.live }
    {
        self.registry.live_count()
    }

    /// The session of the mount, if it is live.
    pub fn session(&self, mount: &MountName) -> Option<&'a Session>
        ensures { option_copied result ≡ session_of self.now.live mount.now }
    {
        self.parts.session(mount)
    }

    /// Whether the mount's stream would have more bytes than can be counted with so many more.
    pub fn is_spent_by(&self, mount: &MountName, more: u64) -> bool
        ensures { result ≡ nat_lt largest_number (live_end self.now mount.now + more) }
    {
        self.parts.is_spent_by(mount, more)
    }

    /// The name of the mount, shared with its session where it is live. `OutOfMemory` if memory
    /// was refused.
    pub fn shared_name(&self, alloc: Global, mount: MountName) -> Result<KeptName, OutOfMemory>
        ensures { IfOk result (λ name. name ≡ mount) }
    {
        match self.session(&mount) {
            Some(session) => session.mount.clone(),
            None => KeptName::new(alloc, mount),
        }
    }

    /// The first session whose source has sent nothing in its time, in the order of the mounts'
    /// names.
    pub fn first_silent(&self) -> Option<&'a Session>
        ensures first { option_copied result ≡ find (is_silent self.now.settings.limits.source_timeout self.now.time) self.now.live }
        // so that each ends once
        ensures rising { IsStrictlySortedBy (slice_cmp nat_cmp) (map (λ (session : SessionOf). session.mount) self.now.live) }
    {
        let seconds = self.settings().limits.source_timeout.get();
        self.parts.first_silent(seconds, self.time())
    }
}
