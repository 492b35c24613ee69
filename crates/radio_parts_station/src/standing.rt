//! The standing of clients and relays.

ghost use Rattle.std.specs.Prelude.{◌≡◌, is_some};
ghost use Rattle.radio_seats_rows.specs.Seats.{listener_of};
ghost use Rattle.radio_parts_station.specs.Relays.{relay_of};
ghost use Rattle.radio_parts_station.specs.World.{world, standing_of, standing_of_listener, standing_of_relay};

use crate::clients::ClientState;
use crate::registry::Registry;
use crate::relays::RelayState;
use crate::station::StationState;
use radio_addr::Peer;
use radio_parts_table::Listeners;
use radio_policy::Rule;
use radio_seats::ListenerStanding;
use radio_values::MountName;

/// What a client or relay is now, which decides which of its events count.
#[derive(Clone, Copy)]
pub enum Standing {
    /// There is neither a client nor a relay of that number.
    Unknown,
    /// It has asked for nothing yet.
    Undecided(Peer),
    /// It is the source of the mount, or it is the relay that feeds it.
    Feeds(MountName),
    /// It is a listener who has a seat.
    Sits,
    /// It has had its answer, and nothing more is to come.
    Answered,
    /// It was finished by the rule.
    Finished(Rule),
}

impl StationState<'_> {
    /// Returns the standing of the client or relay of this number. The seat of a listener is among
    /// these listeners.
    pub fn standing(&self, seats: &Listeners, id: u64) -> Standing
        ensures { result ≡ standing_of (world self.now seats.now.seats) id }
    {
        let registry = self.registry;
        let Some(client) = registry.clients.get(&id) else {
            return registry.relay_standing(id);
        };
        let state = client.state;
        match state {
            ClientState::Undecided => Standing::Undecided(client.peer),
            ClientState::Feeds(mount) => Standing::Feeds(mount),
            ClientState::Listens => listener_standing(seats, id),
            ClientState::Answered => Standing::Answered,
            ClientState::Ended(rule) => Standing::Finished(rule),
        }
    }

    /// Whether there is a relay of this number.
    pub fn has_relay(&self, id: u64) -> bool
        ensures { result ≡ is_some (relay_of self.now.relays id) }
    {
        self.registry.has_relay(id)
    }
}

impl Registry {
    /// Returns the standing of the relay of this number.
    fn relay_standing(&self, id: u64) -> Standing
        ensures { result ≡ standing_of_relay (relay_of self.now.relays id) }
    {
        let Some(relay) = self.relays.get(&id) else {
            return Standing::Unknown;
        };
        let state = relay.state;
        match state {
            RelayState::Feeds(mount) => Standing::Feeds(mount),
            RelayState::Ended(rule) => Standing::Finished(rule),
        }
    }

    fn has_relay(&self, id: u64) -> bool
        ensures { result ≡ is_some (relay_of self.now.relays id) }
    {
        self.relays.get(&id).is_some()
    }
}

/// Returns the standing of the listener of this number.
fn listener_standing(seats: &Listeners, id: u64) -> Standing
    ensures { result ≡ standing_of_listener (listener_of seats.now.seats id) }
{
    match seats.standing(id) {
        None => Standing::Answered,
        Some(ListenerStanding::HasSeat) => Standing::Sits,
        Some(ListenerStanding::HasLost(rule)) => Standing::Finished(rule),
    }
}
