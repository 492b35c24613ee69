ghost use Rattle.std.specs.Prelude.{◌≡◌, Some, IfOk, MatchResult};
ghost use Rattle.radio_parts_station.specs.Waiting.{heard_at, silence_at, silence_of};
ghost use Rattle.radio_events.specs.declared.reply.Reply.TheVariants.{Seated};
ghost use Rattle.radio_parts_changes.specs.declared.change.Change.TheVariants.{TakeSeat};
ghost use Rattle.radio_parts.specs.Outcomes.{says};
ghost use Rattle.radio_parts.specs.Listen.{listen_outcome, sits_where, takes_seat, first_seat};
ghost use Rattle.radio_parts_facts.specs.Streams.{head_of};

use crate::OutOfMemory;
use crate::control::Control;
use crate::outcome::Outcome;
use radio_addr::Peer;
use radio_events::{Boxed, ListenRequest, Reply, StreamHead};
use radio_fallback::Landing;
use radio_parts_changes::Change;
use radio_parts_facts::{burst_of, head_of, interval_for, listen_facts, mount_named, silence};
use radio_parts_mount::Session;
use radio_parts_station::{Standing, StationState};
use radio_policy::{Action, Rule, Verdict, judge};
use radio_seats_rows::Seat;
use radio_values::{MountName, Shown};
use std::alloc::Global;

/// A client that may hear the mount that it asked for.
#[derive(Clone, Copy)]
struct AdmittedGuest {
    peer: Peer,
    /// The mount that it asked for.
    home: MountName,
    /// Where its walk from there ends.
    landing: Landing,
}

impl Control {
    /// Returns the outcome of a request to hear a mount. `OutOfMemory` if memory was refused.
    pub(crate) fn listen(&self, asked: ListenRequest) -> Result<Outcome, OutOfMemory>
        ensures { IfOk result (λ o. o ≡ listen_outcome self.now asked) }
    {
        match self.may_listen(&asked) {
            Ok(welcome) => self.sit_where(asked, welcome),
            Err(other) => Ok(other),
        }
    }

    /// Returns the client, the mount and where its walk ends, if it may hear the mount. `Err` has
    /// the outcome of its request if it may not.
    fn may_listen(&self, asked: &ListenRequest) -> Result<AdmittedGuest, Outcome>
        ensures { MatchResult result
            (λ may. (may.home ≡ asked.now.mount) × (listen_outcome self.now asked.now ≡ sits_where self.now.station asked.now may.peer may.landing))
            (λ other. other ≡ listen_outcome self.now asked.now) }
    {
        let peer = match self.standing(asked.id) {
            Standing::Undecided(peer) => peer,
            Standing::Finished(rule) => return Err(Outcome::finished(rule)),
            Standing::Unknown | Standing::Feeds(_) | Standing::Sits | Standing::Answered => {
                return Err(Outcome::stray());
            }
        };
        let station = self.station();
        let Some(home) = mount_named(&station, asked.mount.as_slice()) else {
            return Err(Outcome::refused(Rule::BadMount, asked.id));
        };
        let (facts, landing) = listen_facts(&station, self.seats(), &home, asked.pair.as_ref());
        match judge(&Action::Listen(Some(facts))) {
            Verdict::Deny(rule) => Err(Outcome::refused(rule, asked.id)),
            Verdict::Allow => Ok(AdmittedGuest {
                peer,
                home,
                landing,
            }),
        }
    }

    /// The listener sits down where its walk has landed.
    fn sit_where(
        &self,
        asked: ListenRequest,
        welcome: AdmittedGuest,
    ) -> Result<Outcome, OutOfMemory>
        requires { welcome.home ≡ asked.mount }
        ensures { IfOk result (λ o. o ≡ sits_where self.now.station asked welcome.peer welcome.landing) }
    {
        let landing = welcome.landing;
        match landing {
            Landing::Lands(mount) => self.take_seat(asked, welcome, &mount),
            Landing::Stops(_) => Ok(Outcome::stray()),
        }
    }

    /// The listener sits down at the mount.
    fn take_seat(
        &self,
        asked: ListenRequest,
        welcome: AdmittedGuest,
        mount: &MountName,
    ) -> Result<Outcome, OutOfMemory>
        requires { welcome.home ≡ asked.mount }
        ensures { IfOk result (λ o. o ≡ takes_seat self.now.station asked welcome.peer (heard_at self.now.station mount.now)) }
    {
        match self.station().session(mount) {
            Some(session) => self.welcome(asked, welcome, session),
            None => self.wait_there(asked, welcome, mount),
        }
    }

    /// The listener sits down at the mount, which has no session, if it waits for one.
    fn wait_there(
        &self,
        asked: ListenRequest,
        welcome: AdmittedGuest,
        mount: &MountName,
    ) -> Result<Outcome, OutOfMemory>
        requires { welcome.home ≡ asked.mount }
        ensures { IfOk result (λ o. o ≡ takes_seat self.now.station asked welcome.peer (silence_of self.now.station mount.now)) }
    {
        if self.station().is_on_demand(mount) {
            self.await_session(asked, welcome, mount)
        } else {
            drop(asked);
            Ok(Outcome::stray())
        }
    }

    /// The listener sits down at the mount and waits for a session. `OutOfMemory` if memory was refused.
    fn await_session(
        &self,
        asked: ListenRequest,
        welcome: AdmittedGuest,
        mount: &MountName,
    ) -> Result<Outcome, OutOfMemory>
        requires { welcome.home ≡ asked.mount }
        ensures { IfOk result (λ o. o ≡ takes_seat self.now.station asked welcome.peer (Some (silence_at self.now.station mount.now))) }
    {
        match silence(self.alloc, &self.station(), *mount) {
            Ok(session) => {
                let outcome = self.welcome(asked, welcome, &session);
                drop(session);
                outcome
            }
            Err(refused) => {
                drop(asked);
                Err(refused)
            }
        }
    }

    /// A listener is welcome in the session, or where it is awaited. `OutOfMemory` if memory was refused.
    fn welcome(
        &self,
        asked: ListenRequest,
        welcome: AdmittedGuest,
        session: &Session,
    ) -> Result<Outcome, OutOfMemory>
        requires { welcome.home ≡ asked.mount }
        ensures { IfOk result (λ o. o ≡ takes_seat self.now.station asked welcome.peer (Some session.now)) }
    {
        let id = asked.id;
        let seat = first_seat(self.alloc, &self.station(), asked, welcome, session)?;
        match self.head(&session.shown) {
            Ok(head) => Ok(seated(id, head, seat)),
            Err(refused) => {
                drop(seat);
                Err(refused)
            }
        }
    }

    /// Returns the head for a listener of a session that shows this. `OutOfMemory` if memory was refused.
    fn head(&self, shown: &Shown) -> Result<Boxed<StreamHead>, OutOfMemory>
        ensures { IfOk result (λ head. head ≡ head_of self.now.station shown.now) }
    {
        Boxed::new(self.alloc, head_of(&self.station(), shown)?)
    }
}

/// The seat of a new listener in the session. `OutOfMemory` if memory was refused.
fn first_seat(
    alloc: Global,
    station: &StationState<'_>,
    asked: ListenRequest,
    welcome: AdmittedGuest,
    session: &Session,
) -> Result<Seat, OutOfMemory>
    requires { welcome.home ≡ asked.mount }
    ensures { IfOk result (λ seat. seat ≡ first_seat station.now asked welcome.peer session.now) }
{
    let AdmittedGuest {
        peer,
        home: asked_for,
        ..
    } = welcome;
    let home = station.shared_name(alloc, asked_for)?;
    let mount = session.mount.get();
    let burst = burst_of(station, mount);
    let interval = interval_for(station, &asked_for, asked.wants_metadata);
    Ok(Seat {
        home,
        mount: *mount,
        session: session.number,
        place: session.stream.burst_start(burst),
        peer,
        pair: asked.pair,
        interval,
        since: station.time(),
    })
}

/// Returns the outcome by which the client of this number is seated and reads this head.
fn seated(id: u64, head: Boxed<StreamHead>, seat: Seat) -> Outcome
    ensures { result ≡ says (Seated seat.interval head) (TakeSeat id seat) }
{
    Outcome {
        reply: Reply::Seated {
            interval: seat.interval,
            head,
        },
        change: Change::TakeSeat { id, seat },
    }
}
