//! What a walk sees of the registry.

ghost use Rattle.std.specs.Prelude.{◌≡◌};
ghost use Rattle.std.specs.Option.{option_copied};
ghost use Rattle.radio_settings_values.specs.Options.{options_for};
ghost use Rattle.radio_fallback.specs.Walk.{found_at};
ghost use Rattle.radio_parts_station.specs.Facts.{fallback_of, sight_of, walks_to};
ghost use Rattle.radio_parts_station.specs.Live.{bare_station};

use crate::registry::Registry;
use crate::station::StationState;
use radio_creds::Pair;
use radio_fallback::{View, Walk};
use radio_parts_table::Listeners;
use radio_settings_values::Settings;
use radio_values::MountName;

impl Registry {
    /// Returns the mount to which the listeners of this one fall back, if to any: what a command has
    /// set, else what the settings say.
    fn fallback_name(&self, mount: &MountName) -> Option<&MountName>
        ensures { option_copied result ≡ fallback_of (bare_station self.now) mount.now }
    {
        match self.fallbacks.get(mount) {
            Some(set) => set.fallback.as_ref(),
            None => self
                .settings
                .options(mount)
                .listeners
                .fallback_mount
                .as_ref(),
        }
    }
}

impl View for Registry {
    ghost use Rattle.radio_parts_station.specs.Live.{sight_in};

    ghost sight = { sight_in };

    fn is_live(&self, mount: &MountName) -> bool {
        self.can_be_heard(mount)
    }

    fn limit(&self, mount: &MountName) -> Option<u32> {
        limit_of(&self.settings, mount)
    }

    fn lets_in(&self, mount: &MountName, pair: Option<&Pair>) -> bool {
        self.lists.lets_in(mount, pair)
    }

    fn allows_duplicates(&self, mount: &MountName) -> bool {
        self.settings.options(mount).users.allow_duplicate_users
    }

    fn fallback(&self, mount: &MountName) -> Option<MountName> {
        self.fallback_name(mount).copied()
    }

    fn hands_on_when_full(&self, mount: &MountName) -> bool {
        self.settings.options(mount).listeners.fallback_when_full
    }

    fn session_number(&self, mount: &MountName) -> u64 {
        self.live_number(mount)
    }
}

impl<'a> StationState<'a> {
    /// Returns the mount to which the listeners of this one fall back, if to any.
    pub fn fallback_name(&self, mount: &MountName) -> Option<&'a MountName>
        ensures { option_copied result ≡ fallback_of self.now mount.now }
    {
        self.registry.fallback_name(mount)
    }

    /// Walks from the mount, for one who sends this pair, or none, and does not sit yet, as
    /// `walk_from` of `radio_fallback` does.
    pub fn walk_from(&self, seats: &Listeners, mount: &MountName, pair: Option<&Pair>) -> Walk
        ensures first { result.first ≡ found_at (sight_of self.now) seats.now.seats mount.now (option_copied pair.entry) }
        ensures landing { result.landing ≡ walks_to self.now seats.now.seats mount.now (option_copied pair.entry) }
    {
        seats.walk_from(self.registry, mount, pair)
    }
}

/// How many may sit at the mount; `None` for no limit.
fn limit_of(settings: &Settings, mount: &MountName) -> Option<u32>
    ensures { result ≡ (options_for settings.now mount.now).listeners.max_listeners }
{
    match settings.options(mount).listeners.max_listeners {
        Some(most) => Some(most.get()),
        None => None,
    }
}
