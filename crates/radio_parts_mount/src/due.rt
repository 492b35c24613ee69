//! From which moment on the time of something at a mount is over.

ghost use Rattle.std.specs.Prelude.{◌≡◌};
ghost use Rattle.radio_parts_mount.specs.Due.{due_at, home_due, seat_due};

use radio_seats_rows::{Guest, GuestMoment, Seat};
use radio_settings_values::Settings;
use radio_values::MountName;

/// The last moment that there is, for what is due at none.
pub const LAST_MOMENT: u64 = u64::MAX;

/// The first moment at which the other lies so many seconds back; none at all have always passed.
pub fn due_at(seconds: u32, moment: u64) -> u64
    ensures { result ≡ due_at seconds moment }
{
    if seconds == 0 {
        0
    } else {
        moment.saturating_add(1000 * u64::from(seconds))
    }
}

/// When one is due who has a seat, by the mount that it asked for.
#[derive(Clone, Copy)]
pub struct GuestDue<'a> {
    /// The settings, which have each mount's longest duration.
    pub settings: &'a Settings,
}

impl GuestMoment for GuestDue<'_> {
    ghost use Rattle.radio_parts_mount.specs.Due.{guest_due};

    ghost gives = { λ due guest. guest_due due.settings.now guest };

    fn moment(&self, guest: &Guest) -> u64 {
        due_of(self.settings, guest.home.get(), guest.since)
    }
}

/// When a seat is due, by the mount that its listener asked for.
pub fn seat_due(settings: &Settings, seat: &Seat) -> u64
    ensures { result ≡ seat_due settings.now seat.now }
{
    due_of(settings, seat.home.get(), seat.since)
}

/// When one is due who asked for the mount and was seated at that moment.
fn due_of(settings: &Settings, home: &MountName, since: u64) -> u64
    ensures { result ≡ home_due settings.now home.now since }
{
    match settings.options(home).listeners.max_listener_duration {
        Some(seconds) => due_at(seconds.get(), since),
        None => LAST_MOMENT,
    }
}
