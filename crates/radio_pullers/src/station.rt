//! What relays are kept running over.

ghost use Rattle.std.specs.Prelude.{◌≡◌};

use radio_board::Shared;
use radio_lines::Network;
use radio_settings_values::Settings;
use radio_values::MountName;
use std::collections::BTreeSet;
use std::sync::Mutex;

/// The newest list of a slave's master, until it is taken.
pub(crate) type NewestList = Mutex<Option<BTreeSet<MountName>>>;

/// A station whose relays are kept running. It has the net over which their masters are reached, the server that
/// they feed, and what its threads report to each other. It has its settings, and where the slave's newest list
/// is put.
#[derive(Drop)]
pub(crate) struct RelayedStation<'a, N: Network, S> {
    pub(crate) net: &'a N,
    pub(crate) server: &'a S,
    pub(crate) shared: &'a Shared,
    pub(crate) settings: &'a Settings,
    pub(crate) list: &'a NewestList,
}

impl<'a, N: Network, S> RelayedStation<'a, N, S> {
    /// Returns the station of these.
    pub(crate) fn new(
        net: &'a N,
        server: &'a S,
        shared: &'a Shared,
        settings: &'a Settings,
        list: &'a NewestList,
    ) -> RelayedStation<'a, N, S>
        ensures { result.settings.now ≡ settings.entry.now }
    {
        RelayedStation {
            net,
            server,
            shared,
            settings,
            list,
        }
    }
}
