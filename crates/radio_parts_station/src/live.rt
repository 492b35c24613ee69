//! Which mounts are live, and who feeds them.

ghost use Rattle.std.specs.Prelude.{◌≡◌, is_some, length};
ghost use Rattle.radio_parts_station.specs.Facts.{live_number};
ghost use Rattle.radio_parts_station.specs.Live.{bare_station, without_live};
ghost use Rattle.radio_parts_station.specs.Waiting.{heard_at};

use crate::registry::Registry;
use radio_tables::Row;
use radio_values::MountName;

/// A mount that is live.
#[derive(Clone, Copy)]
pub(crate) struct LiveMount {
    pub(crate) mount: MountName,
    /// The number of the client or relay that feeds it, which is its session's.
    pub(crate) number: u64,
}

impl Row for LiveMount {
    type Key = MountName;

    ghost use Rattle.radio_tables.proofs.KeyLaws.{name_is};
    ghost use Rattle.radio_parts_station.specs.Live.{is_live_mount};

    ghost key = { λ row. row.mount };

    ghost has_key = { is_live_mount };

    ghost has_key_is = { λ mount row. name_is mount row.mount };

    fn key(&self) -> MountName {
        self.mount
    }
}

impl Registry {
    /// Returns how many mounts are live.
    pub(crate) fn live_count(&self) -> u64
        ensures { result ≡ length self.now.live }
    {
        self.live.len() as u64
    }

    /// Returns the number of the mount's session; 0 if the mount is not live.
    pub(crate) fn live_number(&self, mount: &MountName) -> u64
        ensures { result ≡ live_number (bare_station self.now) mount.now }
    {
        match self.live.get(mount) {
            Some(live) => live.number,
            None => 0,
        }
    }

    /// Returns whether there is something to be heard at the mount, or will be when a session begins
    /// for which it waits.
    pub fn can_be_heard(&self, mount: &MountName) -> bool
        ensures { result ≡ is_some (heard_at (bare_station self.now) mount.now) }
    {
        self.live.get(mount).is_some() || self.is_on_demand(mount)
    }

    /// Notes that the mount is not live any more. It takes no memory.
    pub fn end_session(&mut self, mount: &MountName)
        ensures { self.new ≡ record self.old { live = without_live self.old.live mount.now } }
    {
        drop(self.live.remove(mount));
    }
}
