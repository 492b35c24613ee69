//! The outcome of an event in the state, and the state after it.

ghost use Rattle.std.specs.Prelude.{◌≡◌, ℕ, IsOk, IfOk, OnOk, OnErr};
ghost use Rattle.std.specs.Option.{option_copied};
ghost use Rattle.radio_seats_rows.specs.Seats.{last_mount_of};
ghost use Rattle.radio_parts_facts.specs.Wanted.{wanted};
ghost use Rattle.radio_parts_station.specs.World.{opening, standing_of, has_relay};
ghost use Rattle.radio_parts_changes.specs.KeptChanges.{kept_changed};
ghost use Rattle.radio_parts.specs.Common.{common_after, common_of};
ghost use Rattle.radio_parts.specs.Draw.{draws, IsMove};
ghost use Rattle.radio_parts.specs.Planned.{planned};
ghost use Rattle.radio_parts.specs.CanStep.{MayDraw, CanStep};
ghost use Rattle.radio_parts.specs.ControlSteps.{control_after, control_reply, three_of};
ghost use Rattle.radio_events.specs.declared.event.Event.{Event as EventOf};
ghost use Rattle.radio_events.specs.declared.reply.Reply.{Reply as ReplyOf};
ghost use Rattle.radio_events.specs.Events.{EventTakesNoMemory};

use crate::OutOfMemory;
use crate::draw::Drawing;
use crate::outcome::Outcome;
use crate::replies::thrice;
use crate::telling::{all_with_counts, with_counts};
use radio_access::Lists;
use radio_events::{Event, Reply};
use radio_parts_changes::ServerState;
use radio_parts_facts::wanted;
use radio_parts_mount::LAST_MOMENT;
use radio_parts_station::{Standing, StationState};
use radio_parts_table::{Hearing, Listeners};
use radio_settings_values::Settings;
use radio_values::MountName;
use std::alloc::{AllocError, Global};
use std::marker::Model;

/// What all mounts share, the table of listeners, and the parts of the mounts that are here. These are all parts, or
/// those that were lent by [`Control::exchange`](Control::exchange); each other mount has a part without data in its
/// place.
///
/// Contracts see it as a `World` that has only the last blocks of each stream.
pub struct Control {
    pub(crate) alloc: Global,
    pub(crate) state: ServerState,
    /// Each client, each listener and each session is due then or later: a clock before it ends nothing.
    pub(crate) due_from: u64,
}

impl Drop for Control {
    fn drop(self) {
        let Control {
            alloc: _,
            state,
            due_from: _,
        } = self;
        drop(state);
    }
}

impl Model for Control {
    ghost use Rattle.radio_parts_station.specs.World.{World};
    ghost use Rattle.radio_parts_changes.specs.Due.{IsDueFrom};
    ghost use Rattle.std.specs.Coded.{codes};
    ghost use Rattle.radio_creds.specs.contracts.user_list.Users as creds_users;

    ghost Value = { World };

    ghost coded = { Prim.hlevel (codes, creds_users.the_row.coded) };

    ghost view = { λ c. c.state };

    ghost invariant = { λ c. IsDueFrom c.due_from c.state };
}

impl Control {
    /// Returns a control to which nothing has happened yet. It takes no memory.
    pub fn new(alloc: Global, settings: Settings, lists: Lists) -> Control
        ensures { result ≡ opening settings lists }
    {
        Control {
            alloc,
            state: ServerState::new(alloc, settings, lists),
            due_from: LAST_MOMENT,
        }
    }

    /// Returns the state of the station, which is all of the state but the table of listeners.
    pub(crate) fn station(&self) -> StationState<'_>
        ensures { result ≡ self.now.station }
    {
        self.state.station()
    }

    /// The table of listeners.
    pub(crate) fn seats(&self) -> &Listeners
        ensures seats { result.now.seats ≡ self.now.seats }
        ensures live { result.now.live ≡ self.now.station.live }
    {
        self.state.seats()
    }

    /// Returns the settings.
    pub fn settings(&self) -> &Settings
        ensures { result.now ≡ self.now.station.settings }
    {
        self.station().settings()
    }

    /// Returns the moment of the last clock event, in milliseconds.
    pub fn time(&self) -> u64
        ensures { result ≡ self.now.station.time }
    {
        self.station().time()
    }

    /// Returns the outcome of an event, before its change is made. `OutOfMemory` if memory was
    /// refused.
    #[tactic(auto, unfolding(crate::specs::Step::outcome, crate::specs::Planned::planned))]
    pub(crate) fn outcome(&self, event: Event) -> Result<Outcome, OutOfMemory>
        ensures value { CanStep self.now event → IfOk result (λ o. o ≡ planned self.now event) }
        ensures drawn { (id room : ℕ) → event ≡ EventOf.Draw id room → IfOk result (λ o. IsMove id o.change) }
        ensures frees { EventTakesNoMemory event → IsOk result }
    {
        match event {
            Event::Arrive { peer } => Ok(self.arrive(peer)),
            Event::Source(asked) => self.source(asked.into_inner()),
            Event::Push { id, block } => Ok(self.push(id, block)),
            Event::SourceEnd { id } => Ok(self.source_end(id)),
            Event::Title { id, text } => Ok(self.title(id, text)),
            Event::Listen(asked) => self.get(asked.into_inner()),
            Event::Draw { id, room } => self.drawing_outcome(id, room),
            Event::Command(asked) => self.command(asked.into_inner()),
            Event::Leave { id } => Ok(self.leave(id)),
            Event::RelayUp { mount, shown } => self.relay_up(mount.as_slice(), &shown),
            Event::RelayDown { id } => Ok(self.relay_down(id)),
            Event::Clock { ms } => Ok(self.clock(ms)),
        }
    }

    /// Returns the outcome of a draw, before its change is made. `OutOfMemory` if memory was
    /// refused.
    fn drawing_outcome(&self, id: u64, room: u32) -> Result<Outcome, OutOfMemory>
        ensures value { MayDraw self.now id → IfOk result (λ outcome. outcome ≡ draws self.now id room) }
        ensures drawn { IfOk result (λ outcome. IsMove id outcome.change) }
    {
        Ok(self.draw(id, room)?.outcome(id))
    }

    /// Applies one event and returns its reply.
    ///
    /// `OutOfMemory` if memory was refused; nothing has changed then.
    pub fn step(&mut self, event: Event) -> Result<Reply, OutOfMemory>
        // for a draw, the client is known as a listener, and the data after its place are not forgotten
        ensures ok { CanStep self.old event → OnOk result (self.new ≡ control_after self.old event) }
        ensures told { CanStep self.old event → IfOk result (λ reply. reply ≡ control_reply self.old event) }
        // what all mounts have in common changes by the event and its reply alone, whatever was lent
        ensures common { IfOk result (λ reply. common_of self.new ≡ common_after (common_of self.old) event reply) }
        ensures err { OnErr result (self.new ≡ self.old) }
        ensures frees { EventTakesNoMemory event → IsOk result }
    {
        match event {
            Event::Draw { id, room } => self.step_drawing(id, room),
            Event::Clock { ms } => {
                self.step_clock(ms);
                Ok(Reply::Noted)
            }
            other @ (Event::Arrive { .. }
            | Event::Source(_)
            | Event::Push { .. }
            | Event::SourceEnd { .. }
            | Event::Title { .. }
            | Event::Listen(_)
            | Event::Command(_)
            | Event::Leave { .. }
            | Event::RelayUp { .. }
            | Event::RelayDown { .. }) => {
                let Outcome { reply, change } = self.outcome(other)?;
                self.due_from = self.due_from.min(self.state.due_by(&change));
                let Ok(counts) = self.state.commit(self.alloc, change) else {
                    drop(reply);
                    return Err(AllocError);
                };
                Ok(with_counts(reply, counts))
            }
        }
    }

    /// Applies one event as `step` does, and returns its reply three times: for the record, for the client and for the
    /// caller.
    ///
    /// `OutOfMemory` if memory was refused; nothing has changed then.
    pub fn step3(&mut self, event: Event) -> Result<[Reply; 3], OutOfMemory>
        ensures ok { CanStep self.old event → OnOk result (self.new ≡ control_after self.old event) }
        ensures told { CanStep self.old event → IfOk result (λ replies. replies ≡ three_of (control_reply self.old event)) }
        ensures common { IfOk result (λ replies. (reply : ReplyOf) × (replies ≡ three_of reply) × (common_of self.new ≡ common_after (common_of self.old) event reply)) }
        ensures err { OnErr result (self.new ≡ self.old) }
        ensures frees { EventTakesNoMemory event → IsOk result }
    {
        match event {
            Event::Clock { ms } => {
                self.step_clock(ms);
                Ok([Reply::Noted, Reply::Noted, Reply::Noted])
            }
            other @ (Event::Arrive { .. }
            | Event::Source(_)
            | Event::Push { .. }
            | Event::SourceEnd { .. }
            | Event::Title { .. }
            | Event::Listen(_)
            | Event::Draw { .. }
            | Event::Command(_)
            | Event::Leave { .. }
            | Event::RelayUp { .. }
            | Event::RelayDown { .. }) => {
                let Outcome { reply, change } = self.outcome(other)?;
                let Ok(replies) = thrice(reply) else {
                    drop(change);
                    return Err(AllocError);
                };
                self.due_from = self.due_from.min(self.state.due_by(&change));
                let Ok(counts) = self.state.commit(self.alloc, change) else {
                    drop(replies);
                    return Err(AllocError);
                };
                Ok(all_with_counts(replies, counts))
            }
        }
    }

    /// Applies a draw. A draw happens for each listener and block, so it makes no outcome, which is large.
    fn step_drawing(&mut self, id: u64, room: u32) -> Result<Reply, OutOfMemory>
        ensures ok { MayDraw self.old id → OnOk result (self.new ≡ kept_changed self.old (draws self.old id room).change) }
        ensures told { MayDraw self.old id → IfOk result (λ reply. reply ≡ (draws self.old id room).reply) }
        ensures common { common_of self.new ≡ common_of self.old }
        ensures err { OnErr result (self.new ≡ self.old) }
    {
        let Some(hearing) = self.seats().hearing(id) else {
            return Ok(self.draw_without_seat(id).reply);
        };
        let Hearing { seat, session } = hearing;
        let mount = *seat.mount;
        let Drawing { reply, place } = self.hand_out(id, seat, session, room)?;
        let Some(place) = place else {
            return Ok(reply);
        };
        self.state.advance_at(&mount, id, place);
        Ok(reply)
    }

    /// Returns the mounts where somebody sits and that relays feed on demand, in the order of their bytes.
    /// `OutOfMemory` if memory was refused.
    pub fn wanted(&self) -> Result<Vec<MountName>, OutOfMemory>
        ensures { IfOk result (λ mounts. mounts.items ≡ wanted self.now) }
    {
        wanted(self.alloc, &self.station(), self.seats())
    }

    /// Returns the standing of the client or relay of this number, if there is one.
    pub fn standing(&self, id: u64) -> Standing
        ensures { result ≡ standing_of self.now id }
    {
        self.station().standing(self.seats(), id)
    }

    /// Returns the mount where the listener of this number sits, or sat last, if there is such a listener.
    pub fn last_mount(&self, id: u64) -> Option<&MountName>
        ensures { option_copied result ≡ last_mount_of self.now.seats id }
    {
        self.seats().last_mount(id)
    }

    /// Whether there is a relay of this number.
    pub(crate) fn has_relay(&self, id: u64) -> bool
        ensures { result ≡ has_relay self.now id }
    {
        self.station().has_relay(id)
    }
}
