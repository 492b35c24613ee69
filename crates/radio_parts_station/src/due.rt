//! From which moment on the time of somebody is over.

ghost use Rattle.std.specs.Prelude.{◌≡◌};
ghost use Rattle.radio_parts_mount.specs.Due.{earliest, guest_due, last_moment};
ghost use Rattle.radio_seats_rows.specs.Guests.{first_moment};
ghost use Rattle.radio_parts_station.specs.Due.{client_due, first_due};
ghost use Rattle.radio_parts_station.specs.World.{world};

use crate::clients::{Client, ClientState};
use crate::registry::Registry;
use crate::station::StationState;
use radio_parts_mount::{GuestDue, LAST_MOMENT, due_at};
use radio_parts_table::Listeners;

impl StationState<'_> {
    /// The earliest moment at which a client, one of these listeners, or a session is due, in
    /// milliseconds. The time grows as their number.
    pub fn first_due(&self, seats: &Listeners) -> u64
        ensures { result ≡ first_due (world self.now seats.now.seats) }
    {
        let seconds = self.settings().limits.source_timeout.get();
        let sessions = self.parts.first_session_due(seconds);
        let others = self.registry.first_listener_due(seats).min(sessions);
        self.registry.first_client_due().min(others)
    }
}

impl Registry {
    fn first_client_due(&self) -> u64
        ensures { result ≡ earliest (client_due self.now.settings.limits.header_timeout) self.now.clients }
    {
        let seconds = self.settings.limits.header_timeout.get();
        self.clients.iter().fold(
            LAST_MOMENT,
            |first, client| first.min(client_due(seconds, client)),
        )
    }

    fn first_listener_due(&self, seats: &Listeners) -> u64
        ensures { result ≡ first_moment (guest_due self.now.settings) last_moment seats.now.seats }
    {
        let settings = &self.settings;
        seats.first_moment(&GuestDue { settings }, LAST_MOMENT)
    }
}

/// When a client is due who may ask for nothing for so many seconds.
fn client_due(seconds: u32, client: &Client) -> u64
    ensures { result ≡ client_due seconds client.now }
{
    match client.state {
        ClientState::Undecided => due_at(seconds, client.arrived),
        ClientState::Feeds(_)
        | ClientState::Listens
        | ClientState::Answered
        | ClientState::Ended(_) => LAST_MOMENT,
    }
}
