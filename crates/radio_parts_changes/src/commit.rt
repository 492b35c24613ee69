ghost use Rattle.std.specs.Prelude.{◌≡◌, true, IsOk, IfOk, OnOk, OnErr};
ghost use Rattle.radio_seats_rows.specs.Seats.{sits_at, with_session_at};
ghost use Rattle.radio_parts_changes.specs.Changes.{answered, changed, carried_along, called_home, session_ended, client_gone, ChangeTakesNoMemory};
ghost use Rattle.radio_parts_changes.specs.Counts.{nobody, counted, counts_along, counts_home, counts_ended};
ghost use Rattle.radio_parts_changes.specs.KeptChanges.{kept_changed, kept_taken_in};

use crate::OutOfMemory;
use crate::change::Change;
use crate::state::ServerState;
use radio_addr::Peer;
use radio_blocks::{Block, Place};
use radio_fallback::{Carried, Move};
use radio_parts_station::ClientState;
use radio_seats_rows::Seat;
use radio_values::{MountName, Shown, Title};
use std::alloc::Global;

/// What a change answers that carries nobody along.
pub(crate) const NOBODY: Carried = Carried { moved: 0, ended: 0 };

impl ServerState {
    /// Makes a change, and returns how many listeners it has moved and finished. `OutOfMemory` if memory was refused;
    /// nothing has changed then.
    pub fn commit(&mut self, alloc: Global, change: Change) -> Result<Carried, OutOfMemory>
        ensures ok { OnOk result (self.new ≡ kept_changed self.old change) }
        ensures counts { IfOk result (λ counts. counts ≡ counted self.old change) }
        ensures err { OnErr result (self.new ≡ self.old) }
        ensures frees { ChangeTakesNoMemory change → IsOk result }
    {
        match change {
            Change::Nothing => Ok(NOBODY),
            Change::Answer { id } => {
                self.answer(id);
                Ok(NOBODY)
            }
            Change::Admit { id, peer } => self.admit(id, peer),
            Change::Begin { id, mount, shown } => self.begin(alloc, id, mount, shown),
            Change::Raise { id, mount, shown } => self.raise(alloc, id, mount, shown),
            Change::Receive { mount, block } => self.take_in(mount, block),
            Change::SetTitle { mount, title } => {
                self.set_title(&mount, title);
                Ok(NOBODY)
            }
            Change::TakeSeat { id, seat } => self.seat_listener(alloc, id, seat),
            Change::Advance { id, place } => {
                self.advance(id, place);
                Ok(NOBODY)
            }
            Change::End { id, mount } => Ok(self.end_and_answer(id, mount)),
            Change::EndAndLeave { id, mount } => Ok(self.end_and_forget(id, mount)),
            Change::Forget { id } => {
                self.forget(id);
                Ok(NOBODY)
            }
            Change::Tick { ms } => {
                self.tick(ms);
                Ok(NOBODY)
            }
            Change::Obey { id, command } => self.obey(alloc, id, command),
        }
    }

    /// Adds a client that has arrived; no listener is moved. `OutOfMemory` if memory was refused;
    /// nothing has changed then.
    fn admit(&mut self, id: u64, peer: Peer) -> Result<Carried, OutOfMemory>
        ensures ok { OnOk result (self.new ≡ changed self.old (Change.Admit id peer)) }
        ensures counts { IfOk result (λ counts. counts ≡ nobody) }
        ensures err { OnErr result (self.new ≡ self.old) }
    {
        self.registry.admit(id, peer)?;
        Ok(NOBODY)
    }

    /// Ends the mount's session and marks its source as answered; returns how many listeners it has
    /// moved and finished. It takes no memory.
    fn end_and_answer(&mut self, id: u64, mount: MountName) -> Carried
        ensures state { self.new ≡ changed self.old (Change.End id mount) }
        ensures counts { result ≡ counts_ended self.old mount }
    {
        let counts = self.end_session(mount);
        self.answer(id);
        counts
    }

    /// Ends the mount's session and removes its source or relay; returns how many listeners it has
    /// moved and finished. It takes no memory.
    fn end_and_forget(&mut self, id: u64, mount: MountName) -> Carried
        ensures state { self.new ≡ changed self.old (Change.EndAndLeave id mount) }
        ensures counts { result ≡ counts_ended self.old mount }
    {
        let counts = self.end_session(mount);
        self.forget(id);
        counts
    }

    /// The client has had its answer. It takes no memory.
    pub(crate) fn answer(&mut self, id: u64)
        ensures { self.new ≡ answered self.old id }
    {
        self.registry.set_state(id, ClientState::Answered);
    }

    /// The listener has heard its stream up to this place. It takes no memory.
    fn advance(&mut self, id: u64, place: Place)
        ensures { self.new ≡ changed self.old (Change.Advance id place) }
    {
        self.listeners.advance(id, place);
    }

    /// Moves the listener, which sits at this mount, to this place of its stream. The mount is named, so that its seat
    /// is not looked up again. It takes no memory.
    pub fn advance_at(&mut self, mount: &MountName, id: u64, place: Place)
        requires { sits_at self.old.seats id mount.now ≡ true }
        ensures { self.new ≡ kept_changed self.old (Change.Advance id place) }
    {
        self.listeners.advance_at(mount, id, place);
    }

    /// What the mount's source feeds has this title from now on. It takes no memory.
    pub(crate) fn set_title(&mut self, mount: &MountName, title: Title)
        ensures { self.new ≡ changed self.old (Change.SetTitle mount.now title) }
    {
        self.listeners.set_title(mount, title);
    }

    /// The mount's session has delivered a block, and the listeners of the mount lose their seats
    /// who are further behind than a queue is long; nobody is carried along.
    fn take_in(&mut self, mount: MountName, block: Block) -> Result<Carried, OutOfMemory>
        ensures ok { OnOk result (self.new ≡ kept_taken_in self.old mount block) }
        ensures counts { IfOk result (λ counts. counts ≡ nobody) }
        ensures err { OnErr result (self.new ≡ self.old) }
    {
        let moment = self.registry.time();
        let limit = self.registry.settings().limits.queue_size.get() as u64;
        let end = self.listeners.receive(&mount, &block, moment, limit)?;
        self.listeners.end_lagging(&mount, end, limit);
        Ok(NOBODY)
    }

    /// The client has this seat from now on; nobody is carried along.
    fn seat_listener(&mut self, alloc: Global, id: u64, seat: Seat) -> Result<Carried, OutOfMemory>
        ensures ok { OnOk result (self.new ≡ changed self.old (Change.TakeSeat id seat)) }
        ensures counts { IfOk result (λ counts. counts ≡ nobody) }
        ensures err { OnErr result (self.new ≡ self.old) }
    {
        self.registry
            .prepare_to_seat(&mut self.listeners, &seat.mount)?;
        self.listeners.add(alloc, id, seat)?;
        self.registry.set_state(id, ClientState::Listens);
        Ok(NOBODY)
    }

    /// The client feeds the mount from now on, and listeners can be seated there. Those that sat
    /// there and waited for a session hear it, and those that the mount calls come home.
    fn begin(
        &mut self,
        alloc: Global,
        id: u64,
        mount: MountName,
        shown: Shown,
    ) -> Result<Carried, OutOfMemory>
        ensures ok { OnOk result (self.new ≡ changed self.old (Change.Begin id mount shown)) }
        ensures counts { IfOk result (λ counts. counts ≡ counted self.old (Change.Begin id mount shown)) }
        ensures err { OnErr result (self.new ≡ self.old) }
    {
        self.listeners.prepare(&mount)?;
        match self
            .registry
            .begin(&mut self.listeners, alloc, id, mount, shown)
        {
            Ok(()) => Ok(self.open_session(mount, id)),
            Err(refused) => {
                self.release_idle(&mount);
                Err(refused)
            }
        }
    }

    /// A relay has come up and feeds the mount from now on, and listeners can be seated there. Those that sat there and
    /// waited for a session hear it, and those that the mount calls come home. `OutOfMemory` if memory was refused;
    /// nothing has changed then.
    fn raise(
        &mut self,
        alloc: Global,
        id: u64,
        mount: MountName,
        shown: Shown,
    ) -> Result<Carried, OutOfMemory>
        ensures ok { OnOk result (self.new ≡ changed self.old (Change.Raise id mount shown)) }
        ensures counts { IfOk result (λ counts. counts ≡ counted self.old (Change.Raise id mount shown)) }
        ensures err { OnErr result (self.new ≡ self.old) }
    {
        self.listeners.prepare(&mount)?;
        match self
            .registry
            .raise(&mut self.listeners, alloc, id, mount, shown)
        {
            Ok(()) => Ok(self.open_session(mount, id)),
            Err(refused) => {
                self.release_idle(&mount);
                Err(refused)
            }
        }
    }

    /// A mount that is not live, and waits for no session, and where no listener sits or sat last, is
    /// not prepared any more. It takes no memory.
    fn release_idle(&mut self, mount: &MountName)
        ensures { self.new ≡ self.old }
    {
        if !self.registry.can_be_heard(mount) {
            self.listeners.release(mount);
        }
    }

    /// The session of this number has begun on the mount. Those that sat there and waited for one
    /// hear it, and those that the mount calls come home. It takes no memory.
    fn open_session(&mut self, mount: MountName, number: u64) -> Carried
        ensures state { self.new ≡ called_home (record self.old { seats = with_session_at self.old.seats mount number }) mount }
        ensures counts { result ≡ counts_home (record self.old { seats = with_session_at self.old.seats mount number }) mount }
    {
        self.listeners.give_session(&mount, number);
        self.call_home(mount)
    }

    /// A move carries listeners along; how many. It takes no memory.
    pub(crate) fn carry_along(&mut self, moving: &Move) -> Carried
        ensures state { self.new ≡ carried_along self.old moving.now }
        ensures counts { result ≡ counts_along self.old moving.now }
    {
        // before anybody has sat, not all mounts are prepared that wait for a session
        if self.listeners.len() == 0 {
            return NOBODY;
        }
        self.listeners.carry_along(&self.registry, moving)
    }

    /// Where the mount calls its listeners home, those come who had asked for it and sit elsewhere.
    /// It takes no memory.
    fn call_home(&mut self, mount: MountName) -> Carried
        ensures state { self.new ≡ called_home self.old mount }
        ensures counts { result ≡ counts_home self.old mount }
    {
        let options = self.registry.settings().options(&mount);
        if options.listeners.fallback_override {
            self.carry_along(&Move::Up(mount))
        } else {
            NOBODY
        }
    }

    /// The mount's session ends, and its listeners go where their walks land, or finish. It takes no
    /// memory.
    pub(crate) fn end_session(&mut self, mount: MountName) -> Carried
        ensures state { self.new ≡ session_ended self.old mount }
        ensures counts { result ≡ counts_ended self.old mount }
    {
        self.listeners.close(&mount);
        self.registry.end_session(&mount);
        let counts = self.carry_along(&Move::Ended(mount));
        self.release_idle(&mount);
        counts
    }

    /// Nothing is left of the client or relay. It takes no memory.
    fn forget(&mut self, id: u64)
        ensures { self.new ≡ client_gone self.old id }
    {
        let mount = self.last_mount(id).copied();
        self.listeners.remove(id);
        self.registry.forget(id);
        if let Some(mount) = mount {
            self.release_idle(&mount);
        }
    }
}
