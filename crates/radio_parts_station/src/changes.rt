//! What can be changed in the registry, and in the sessions with it, one change by each call.

ghost use Rattle.std.specs.Prelude.{◌≡◌, true, map, OnOk, OnErr};
ghost use Rattle.std.specs.Option.{option_map};
ghost use Rattle.radio_access.specs.Lists.{with_user_at, without_user_at};
ghost use Rattle.radio_parts_station.specs.Clients.{undecided_client, in_state, with_client, without_client};
ghost use Rattle.radio_parts_station.specs.Fallbacks.{with_fallback};
ghost use Rattle.radio_parts_station.specs.Live.{with_live_mount};
ghost use Rattle.radio_parts_mount.specs.Sessions.{opened, with_session};
ghost use Rattle.radio_seats_rows.specs.SeatTable.{is_prepared};
ghost use Rattle.radio_parts_station.specs.Relays.{Relay as RelayOf, relay_of, risen, with_relay, with_relay_ended, without_relay, put_back};
ghost use Rattle.radio_parts_station.specs.Timeouts.{timed_out};
ghost use Rattle.radio_parts_station.specs.declared.clients.ClientState.TheVariants.{Ended, Feeds};

use crate::OutOfMemory;
use crate::clients::{Client, ClientState, SetState};
use crate::fallbacks::Fallback;
use crate::live::LiveMount;
use crate::registry::Registry;
use crate::relays::{Relay, RelayState, SetRelayState};
use crate::timeouts::TimesOut;
use radio_addr::Peer;
use radio_parts_mount::NewSession;
use radio_parts_table::Listeners;
use radio_policy::Rule;
use radio_tables::Table;
use radio_values::{MountName, Shown};
use std::alloc::Global;

impl Registry {
    /// The client of this number does something else from now on. It takes no memory.
    pub fn set_state(&mut self, id: u64, state: ClientState)
        ensures { self.new ≡ record self.old { clients = in_state self.old.clients id state } }
    {
        self.clients.change(&id, &SetState { state });
    }

    /// A client has come, and has this number. `OutOfMemory` if memory was refused; nothing has
    /// changed then.
    pub fn admit(&mut self, id: u64, peer: Peer) -> Result<(), OutOfMemory>
        ensures ok { OnOk result (self.new ≡ record self.old { clients = with_client self.old.clients (undecided_client id peer self.old.time); last_id = id }) }
        ensures err { OnErr result (self.new ≡ self.old) }
    {
        self.clients.insert(Client {
            id,
            peer,
            arrived: self.time,
            state: ClientState::Undecided,
        })?;
        self.last_id = id;
        Ok(())
    }

    /// Begins a session on the mount, which the client feeds. `OutOfMemory` if memory was refused;
    /// nothing has changed then.
    // rule: Session
    pub fn begin(
        &mut self,
        seats: &mut Listeners,
        alloc: Global,
        id: u64,
        mount: MountName,
        shown: Shown,
    ) -> Result<(), OutOfMemory>
        requires { is_prepared seats.old.prepared mount ≡ true }
        ensures ok { OnOk result (self.new ≡ record self.old { clients = in_state self.old.clients id (Feeds mount); live = with_live_mount self.old.live (record { mount = mount; number = id }) }) }
        ensures seats { OnOk result (seats.new ≡ record seats.old { live = with_session seats.old.live (opened mount id shown self.old.time) }) }
        ensures err { OnErr result (self.new ≡ self.old) }
        ensures err_seats { OnErr result (seats.new ≡ seats.old) }
    {
        let session = NewSession::new(alloc, mount, id, shown, self.time)?;
        self.live.insert(LiveMount { mount, number: id })?;
        seats.open(session);
        self.set_state(id, ClientState::Feeds(mount));
        Ok(())
    }

    /// Begins a session on the mount, which a relay feeds that has come up with this number.
    /// `OutOfMemory` if memory was refused; nothing has changed then.
    pub fn raise(
        &mut self,
        seats: &mut Listeners,
        alloc: Global,
        id: u64,
        mount: MountName,
        shown: Shown,
    ) -> Result<(), OutOfMemory>
        requires { is_prepared seats.old.prepared mount ≡ true }
        ensures ok { OnOk result (self.new ≡ record self.old { relays = with_relay self.old.relays (risen id mount); live = with_live_mount self.old.live (record { mount = mount; number = id }); last_id = id }) }
        ensures seats { OnOk result (seats.new ≡ record seats.old { live = with_session seats.old.live (opened mount id shown self.old.time) }) }
        ensures err { OnErr result (self.new ≡ self.old) }
        ensures err_seats { OnErr result (seats.new ≡ seats.old) }
    {
        let session = NewSession::new(alloc, mount, id, shown, self.time)?;
        let before = relay_state(&self.relays, id);
        // their numbers rise, so that what is put back is what was there
        let _relays = self.relays.len();
        self.relays.insert(Relay {
            id,
            state: RelayState::Feeds(mount),
        })?;
        match self.live.insert(LiveMount { mount, number: id }) {
            Ok(()) => {
                seats.open(session);
                self.last_id = id;
                Ok(())
            }
            Err(refused) => {
                drop(session);
                put_relay_back(&mut self.relays, id, before);
                Err(refused)
            }
        }
    }

    /// The users of the mount let this one in with this password from now on, and no more as they did before; where it has
    /// no users, nothing changes. `OutOfMemory` if memory was refused; nothing has changed then.
    // rule: Change of users
    pub fn add_user(
        &mut self,
        alloc: Global,
        mount: &MountName,
        user: &[u8],
        password: &[u8],
    ) -> Result<(), OutOfMemory>
        ensures ok { OnOk result (self.new ≡ record self.old { lists = with_user_at self.old.lists mount.now user.now password.now }) }
        ensures err { OnErr result (self.new ≡ self.old) }
    {
        self.lists.set_user(alloc, mount, user, password)
    }

    /// The users of the mount let this one in no more. It takes no memory.
    // rule: Change of users
    pub fn delete_user(&mut self, mount: &MountName, user: &[u8])
        ensures { self.new ≡ record self.old { lists = without_user_at self.old.lists mount.now user.now } }
    {
        self.lists.remove_user(mount, user);
    }

    /// The rule finishes the client, or the relay, of this number. It takes no memory.
    pub fn finish(&mut self, id: u64, rule: Rule)
        ensures { self.new ≡ record self.old { clients = in_state self.old.clients id (Ended rule); relays = with_relay_ended self.old.relays id rule } }
    {
        self.set_state(id, ClientState::Ended(rule));
        let state = RelayState::Ended(rule);
        self.relays.change(&id, &SetRelayState { state });
    }

    /// Nothing is left of the client, or of the relay, of this number. It takes no memory.
    pub fn forget(&mut self, id: u64)
        ensures { self.new ≡ record self.old { clients = without_client self.old.clients id; relays = without_relay self.old.relays id } }
    {
        self.clients.remove(&id);
        self.relays.remove(&id);
    }

    /// The mount's listeners fall back to this one from now on, or to none. `OutOfMemory` where
    /// memory was refused; nothing has changed then.
    pub fn set_fallback(
        &mut self,
        mount: MountName,
        fallback: Option<MountName>,
    ) -> Result<(), OutOfMemory>
        ensures ok { OnOk result (self.new ≡ record self.old { fallbacks = with_fallback self.old.fallbacks mount fallback }) }
        ensures err { OnErr result (self.new ≡ self.old) }
    {
        self.fallbacks.insert(Fallback { mount, fallback })
    }

    /// It is this moment, in milliseconds. It takes no memory.
    pub fn set_time(&mut self, ms: u64)
        ensures { self.new ≡ record self.old { time = ms } }
    {
        self.time = ms;
    }

    /// It is this moment, and the clients who have asked for nothing in their time are finished. It
    /// takes no memory.
    pub fn time_out(&mut self, ms: u64)
        ensures { self.new ≡ record self.old { time = ms; clients = map (timed_out self.old.settings.limits.header_timeout ms) self.old.clients } }
    {
        self.time = ms;
        let seconds = self.settings.limits.header_timeout.get();
        self.clients.change_all(&TimesOut { seconds, now: ms });
    }
}

/// What the relay of this number does, if it is there.
fn relay_state(relays: &Table<Relay>, id: u64) -> Option<RelayState>
    ensures { result ≡ option_map (λ (relay : RelayOf). relay.state) (relay_of relays.now id) }
{
    match relays.get(&id) {
        Some(relay) => Some(relay.state),
        None => None,
    }
}

/// The relay of this number is as it was before. It takes no memory.
fn put_relay_back(relays: &mut Table<Relay>, id: u64, before: Option<RelayState>)
    ensures { relays.new ≡ put_back relays.old id before }
{
    match before {
        Some(state) => relays.change(&id, &SetRelayState { state }),
        None => drop(relays.remove(&id)),
    }
}
