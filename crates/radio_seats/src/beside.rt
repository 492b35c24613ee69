//! What the table says of others than one listener: who comes after it, and who else sits at a
//! mount.

ghost use Rattle.std.specs.Prelude.{◌≡◌, length};
ghost use Rattle.radio_seats_rows.specs.SeatTable.{is_prepared};
ghost use Rattle.radio_seats_rows.specs.Seats.{others_of, without_listener, count_at, sits_there, sits_at, next_number, AreByNumber};

use crate::Seats;
use crate::users::UserAt;
use radio_values::MountName;

impl Seats {
    /// How many listeners there are, with those who have finished.
    pub fn len(&self) -> usize
        ensures count { result ≡ length self.now.seats }
        // the listeners are in the order of their numbers, so that each is counted once
        ensures rising { AreByNumber self.now.seats }
    {
        self.rows.len()
    }

    /// Whether the mount was prepared.
    pub fn is_prepared(&self, mount: &MountName) -> bool
        ensures { result ≡ is_prepared self.now.prepared mount.now }
    {
        self.mounts.number(mount).is_some()
    }

    /// The least number of a listener past the last one, or of all where no last one is given. The
    /// time grows as the logarithm of the number of listeners.
    pub fn next(&self, last: Option<u64>) -> Option<u64>
        ensures next { result ≡ next_number self.now.seats last }
        // so that each has its turn once
        ensures rising { AreByNumber self.now.seats }
    {
        match self.rows.after(last) {
            Some(row) => Some(row.id),
            None => None,
        }
    }

    /// How many sit at the mount, but for one who is left out.
    pub fn count_beside(&self, mount: &MountName, own: Option<u64>) -> u64
        ensures { result ≡ count_at (others_of self.now.seats own) mount.now }
    {
        match own {
            Some(id) => self.count_others(mount, id),
            None => self.count(mount),
        }
    }

    /// Whether somebody sits at the mount who sent this user, but for one who is left out. The time
    /// grows as the number of those who sent it, and as the logarithm of the number of listeners.
    pub fn user_beside(&self, mount: &MountName, user: &[u8], own: Option<u64>) -> bool
        ensures { result ≡ sits_there (others_of self.now.seats own) mount.now user.now }
    {
        match own {
            Some(id) => self.user_of_others(mount, user, id),
            None => self.user_at(mount, user),
        }
    }

    /// Whether the listener sits at the mount.
    fn sits_at(&self, id: u64, mount: &MountName) -> bool
        ensures { result ≡ sits_at self.now.seats id mount.now }
    {
        match self.seat(id) {
            Some(seat) => *seat.mount == *mount,
            None => false,
        }
    }

    /// How many others sit at the mount.
    fn count_others(&self, mount: &MountName, id: u64) -> u64
        ensures { result ≡ count_at (without_listener self.now.seats id) mount.now }
    {
        let all = self.count(mount);
        if self.sits_at(id, mount) {
            all.saturating_sub(1)
        } else {
            all
        }
    }

    /// Whether another sits at the mount who sent this user.
    fn user_of_others(&self, mount: &MountName, user: &[u8], id: u64) -> bool
        ensures { result ≡ sits_there (without_listener self.now.seats id) mount.now user.now }
    {
        let Some(number) = self.mounts.number(mount) else {
            return false;
        };
        let asked = UserAt {
            number,
            user,
            own: Some(id),
        };
        self.users.has(&self.rows, &asked)
    }
}
