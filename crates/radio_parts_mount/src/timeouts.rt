//! What has had its time at a mount.

ghost use Rattle.std.specs.Prelude.{◌≡◌};
ghost use Rattle.radio_parts_mount.specs.Timeouts.{lies_back};

use radio_seats_rows::{Guest, SeatTest};
use radio_settings_values::Settings;

/// Whether the moment lies so many seconds back, or more.
pub fn lies_back(seconds: u32, moment: u64, now: u64) -> bool
    ensures { result ≡ lies_back seconds moment now }
{
    now.saturating_sub(moment) >= 1000 * u64::from(seconds)
}

/// A listener has sat as long as the mount allows that it asked for.
#[derive(Drop)]
pub struct HasSatOut<'a> {
    /// The settings, which have each mount's longest duration.
    pub settings: &'a Settings,
    /// The moment, in milliseconds.
    pub now: u64,
}

impl SeatTest for HasSatOut<'_> {
    ghost use Rattle.std.specs.Prelude.{[]};
    ghost use Rattle.radio_seats_rows.specs.Guests.{seat_of_guest};
    ghost use Rattle.radio_parts_mount.specs.Timeouts.{has_sat_out};

    ghost passes = { λ test guest. has_sat_out test.settings.now test.now (seat_of_guest 0 [] 0 guest) };

    fn passes(&self, guest: &Guest) -> bool {
        match self
            .settings
            .options(guest.home.get())
            .listeners
            .max_listener_duration
        {
            Some(seconds) => lies_back(seconds.get(), guest.since, self.now),
            None => false,
        }
    }
}
