//! Where listeners sit, or sat last.

ghost use Rattle.std.specs.Prelude.{◌≡◌};
ghost use Rattle.std.specs.Option.{option_copied};
ghost use Rattle.radio_seats_rows.specs.Seats.{last_mount_of, named_at};

use crate::Seats;
use radio_values::MountName;

impl Seats {
    /// The mount where the listener of this number sits, or sat last if it has finished; none where
    /// there is no such listener.
    // rule: Last mount
    pub fn last_mount(&self, id: u64) -> Option<&MountName>
        ensures { option_copied result ≡ last_mount_of self.now.seats id }
    {
        let Some(row) = self.rows.get(&id) else {
            return None;
        };
        match self.mounts.get(row.state.last_mount()) {
            Some(mount) => Some(&mount.name),
            None => unreachable!(),
        }
    }

    /// How many listeners sit at the mount, or sat there last.
    pub(crate) fn named_at(&self, mount: &MountName) -> u64
        ensures { result ≡ named_at self.now.seats mount.now }
    {
        let Some(number) = self.mounts.number(mount) else {
            return 0;
        };
        match self.mounts.get(number) {
            Some(mount) => mount.naming,
            None => 0,
        }
    }
}
