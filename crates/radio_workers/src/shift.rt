//! One worker, at its slot.

ghost use Rattle.std.specs.Prelude.{◌≡◌, ◌⊎◌, ◌+◌, ◌*◌, ◌-◌, ◌^◌, ◌++◌, ◌∷◌, [], Bool, Some, min, length, filter, nat_lt};
ghost use Rattle.radio_connections.specs.Connections.{Connection, lingers};
ghost use Rattle.radio_serving.specs.Sources.{nobody_feeds};
ghost use Rattle.radio_serving.specs.Turns.{IsTurn};
ghost use Rattle.radio_serving.specs.Watching.{WatchedOf, WatchedSteps, watched_of};
ghost use Rattle.radio_serving.specs.Workers.{WorkerOf};
ghost use Rattle.radio_workers.specs.TakenConnections.{HasTakenMore};
ghost use Rattle.radio_workers.specs.Leaving.{LeavesAll};
ghost use Rattle.radio_workers.specs.Shifts.{HasParted, first_source, has_listeners, has_more_to_draw, without_oldest};
ghost use Rattle.radio_workers.specs.Working.{WorkerHasDone, HasWorkedAtSlot, IsWorkOf, shift_of};

use crate::leaving::leave_all;
use crate::listeners::{has_listeners, has_more_to_draw};
use crate::{Intake, IntakePass, Seen, TurnSource, TurnStart, WorkerSlot, Workplace};
use radio_events::SharedServer;
use radio_serving::{
    Conn, Found, Gate, Line, Take, Turn, Watched, WebAnswers, Worker, close_first_lingering,
    count_lingering,
};
use std::alloc::Global;
use std::sync::Wait;

/// A worker and its connections.
#[derive(Drop)]
struct Shift<'a, R: Wait, S: SharedServer, L: Line> {
    worker: Worker<Watched<'a, R, S>>,
    /// Those of clients that feed a mount, or have.
    sources: Vec<Conn<L>>,
    /// The others.
    conns: Vec<Conn<L>>,
}

/// Works at this slot, turn after turn, until its turn source stops it, or it has made all turns. Then all of its
/// clients leave, and their connections are closed.
pub(crate) fn work<R: Wait, S: SharedServer, T: Drop, L: Line, P: TurnSource<T, L>, G: Gate>(
    rt: &R,
    alloc: Global,
    place: &Workplace<'_, S, T, G>,
    slot: &mut WorkerSlot<S::Pass, T, P>,
)
    requires own { slot.old.intake_pass.intake ≡ place.now.intake.now }
    ensures taken { HasTakenMore slot.old.intake_pass slot.new.intake_pass }
    ensures worked { IsWorkOf S.steps S.refuses place.now.web slot.old.pass slot.new.pass }
{
    if let Some(pass) = slot.pass.take() {
        let pass = serve(
            rt,
            alloc,
            place,
            &mut slot.turn_source,
            &mut slot.intake_pass,
            pass,
        );
        put_back(&mut slot.pass, pass);
    }
}

/// Puts the pass back at its slot.
fn put_back<A: Drop>(own: &mut Option<A>, pass: A)
    ensures { own.new ≡ Some pass }
{
    *own = Some(pass);
}

/// Serves connections with this pass of the server, turn after turn, until all have been made or the turn source says stop; gives the
/// pass back once all clients have left.
fn serve<R: Wait, S: SharedServer, T: Drop, L: Line, P: TurnSource<T, L>, G: Gate>(
    rt: &R,
    alloc: Global,
    place: &Workplace<'_, S, T, G>,
    turn_source: &mut P,
    intake_pass: &mut IntakePass<T>,
    pass: S::Pass,
) -> S::Pass
    requires own { intake_pass.old.intake ≡ place.now.intake.now }
    ensures taken { HasTakenMore intake_pass.old intake_pass.new }
    ensures worked { HasWorkedAtSlot S.steps S.refuses place.now.web pass result }
{
    let watched = Watched::new(alloc, rt, place.server, pass);
    let mut shift: Shift<'_, R, S, L> = Shift::new(alloc, watched, place.web, place.patience_s);
    if !place.log_polls {
        shift.worker.log().leave_out_polls();
    }
    shift.make_turns(rt, place, turn_source, intake_pass);
    shift.end()
}

impl<'a, R: Wait, S: SharedServer, L: Line> Shift<'a, R, S, L> {
    /// Returns a worker without connections, which applies to this server and has this patience, in seconds.
    fn new(
        alloc: Global,
        watched: Watched<'a, R, S>,
        web: WebAnswers,
        patience_s: u32,
    ) -> Shift<'a, R, S, L>
        ensures server { result.worker.server ≡ watched.entry }
        ensures web { result.worker.web ≡ web }
        ensures patience { result.worker.patience_ms ≡ patience_s * 1000 }
        ensures nobody { (result.sources.items ≡ []) × (result.conns.items ≡ []) }
    {
        Shift {
            worker: Worker::new(alloc, watched, web, patience_s),
            sources: Vec::new(alloc),
            conns: Vec::new(alloc),
        }
    }

    /// Turn after turn, as long as the turn source goes on.
    #[tactic(auto, using(crate::proofs::Takings::taken_none, crate::proofs::Takings::taken_one, crate::proofs::Takings::taken_then, crate::proofs::Doings::done_none, crate::proofs::Doings::done_then))]
    fn make_turns<T: Drop, P: TurnSource<T, L>, G: Gate>(
        &mut self,
        rt: &R,
        place: &Workplace<'_, S, T, G>,
        turn_source: &mut P,
        intake_pass: &mut IntakePass<T>,
    )
        requires own { intake_pass.old.intake ≡ place.now.intake.now }
        ensures taken { HasTakenMore intake_pass.old intake_pass.new }
        ensures does { WorkerHasDone S.steps S.refuses (shift_of self.old.worker self.old.sources.items self.old.conns.items)
            (shift_of self.new.worker self.new.sources.items self.new.conns.items) }
    {
        'turns: for _ in 0..place.turns {
            if !self.goes_on(rt, place, turn_source, intake_pass) {
                return;
            }
        }
    }

    /// The next turn, unless the turn source stops it. Whether it does not.
    #[tactic(auto, using(crate::proofs::Takings::taken_none, crate::proofs::Doings::done_none))]
    fn goes_on<T: Drop, P: TurnSource<T, L>, G: Gate>(
        &mut self,
        rt: &R,
        place: &Workplace<'_, S, T, G>,
        turn_source: &mut P,
        intake_pass: &mut IntakePass<T>,
    ) -> bool
        requires own { intake_pass.old.intake ≡ place.now.intake.now }
        ensures taken { HasTakenMore intake_pass.old intake_pass.new }
        ensures does { WorkerHasDone S.steps S.refuses (shift_of self.old.worker self.old.sources.items self.old.conns.items)
            (shift_of self.new.worker self.new.sources.items self.new.conns.items) }
    {
        match turn_source.next(self.worker.log()) {
            Some(call) => {
                self.follow(rt, place, turn_source, intake_pass, call);
                true
            }
            None => false,
        }
    }

    /// Does what it is called to: takes in waiting connections, and makes the turn.
    fn follow<T: Drop, P: TurnSource<T, L>, G: Gate>(
        &mut self,
        rt: &R,
        place: &Workplace<'_, S, T, G>,
        turn_source: &mut P,
        intake_pass: &mut IntakePass<T>,
        call: TurnStart,
    )
        requires own { intake_pass.old.intake ≡ place.now.intake.now }
        ensures taken { HasTakenMore intake_pass.old intake_pass.new }
        ensures does { WorkerHasDone S.steps S.refuses (shift_of self.old.worker self.old.sources.items self.old.conns.items)
            (shift_of self.new.worker self.new.sources.items self.new.conns.items) }
    {
        self.take_in(rt, place.intake, turn_source, intake_pass, call);
        self.make_turn(place.gate, turn_source, call);
    }

    /// Takes in as many of the waiting connections as it is called to.
    #[tactic(auto, using(crate::proofs::Takings::taken_none, crate::proofs::Takings::taken_one, crate::proofs::Takings::taken_then, crate::proofs::Doings::done_none, crate::proofs::Doings::done_then))]
    fn take_in<T: Drop, P: TurnSource<T, L>>(
        &mut self,
        rt: &R,
        intake: &Intake<T>,
        turn_source: &mut P,
        intake_pass: &mut IntakePass<T>,
        call: TurnStart,
    )
        requires own { intake_pass.old.intake ≡ intake.now }
        ensures taken { HasTakenMore intake_pass.old intake_pass.new }
        ensures does { WorkerHasDone S.steps S.refuses (shift_of self.old.worker self.old.sources.items self.old.conns.items)
            (shift_of self.new.worker self.new.sources.items self.new.conns.items) }
    {
        'newcomers: for _ in 0..call.newcomers {
            let Some(newcomer) = intake.take(rt, intake_pass) else {
                return;
            };
            self.admit(turn_source, newcomer, call.turn.ms);
        }
    }

    /// Takes one in, behind the others. The line of one that can't be served, or is refused memory, is closed.
    fn admit<T, P: TurnSource<T, L>>(&mut self, turn_source: &mut P, newcomer: T, ms: u64)
        ensures sources { self.new.sources.items ≡ self.old.sources.items }
        ensures others { (self.new.conns.items ≡ self.old.conns.items) ⊎ ((conn : Connection) × (self.new.conns.items ≡ self.old.conns.items ++ conn ∷ [])) }
        ensures does { WorkerHasDone S.steps S.refuses (shift_of self.old.worker self.old.sources.items self.old.conns.items)
            (shift_of self.new.worker self.new.sources.items self.new.conns.items) }
    {
        if let Some((line, peer)) = turn_source.open(newcomer) {
            let _ = self.worker.admit(&mut self.conns, line, peer, ms);
        }
    }

    /// Serves each connection once, closes those that are too many to linger, and reports to the turn source what was seen.
    fn make_turn<T, P: TurnSource<T, L>, G: Gate>(
        &mut self,
        gate: &G,
        turn_source: &mut P,
        call: TurnStart,
    )
        ensures does { WorkerHasDone S.steps S.refuses (shift_of self.old.worker self.old.sources.items self.old.conns.items)
            (shift_of self.new.worker self.new.sources.items self.new.conns.items) }
    {
        let before = self.count();
        self.serve_all(gate, turn_source, call.turn);
        let found = self.worker.server().take_found(Take::All);
        self.part_sources(found);
        self.close_oldest(turn_source);
        let seen = self.seen(before, call.turn.ms, found);
        turn_source.note(seen, self.worker.log());
    }

    /// Serves sources first, so that the others draw in the same turn what these bring.
    fn serve_all<T, P: TurnSource<T, L>, G: Gate>(
        &mut self,
        gate: &G,
        turn_source: &mut P,
        turn: Turn,
    )
        // the others get news if the turn was, or the turn source says so
        ensures turns { (news : Bool) × (between : WorkerOf (WatchedOf _))
            × IsTurn (WatchedSteps S.steps) (λ watched event. S.refuses watched.server event) turn
            self.old.worker self.old.sources.items between self.new.sources.items
            × IsTurn (WatchedSteps S.steps) (λ watched event. S.refuses watched.server event) (record turn { news = news })
            between self.old.conns.items self.new.worker self.new.conns.items }
        ensures does { WorkerHasDone S.steps S.refuses (shift_of self.old.worker self.old.sources.items self.old.conns.items)
            (shift_of self.new.worker self.new.sources.items self.new.conns.items) }
    {
        self.worker.serve_turn(&mut self.sources, gate, turn);
        let brings = self.worker.server().take_found(Take::News).has_news;
        let news = turn_source.begins_round(turn.news, brings);
        self.worker
            .serve_turn(&mut self.conns, gate, Turn { news, ..turn });
    }

    /// Returns how many connections it has.
    fn count(&self) -> usize
        ensures { result ≡ min (2 ^ 64 - 1) (length self.now.sources.items + length self.now.conns.items) }
    {
        self.sources.len().saturating_add(self.conns.len())
    }

    /// Returns what is seen after a turn at this moment, in milliseconds, that began with `before` connections, and in which this
    /// was found.
    // rule: Failed accepts
    fn seen(&self, before: usize, ms: u64, found: Found) -> Seen
        ensures news { result.news ≡ found.has_news }
        ensures more { result.more ≡ has_more_to_draw ms self.now.conns.items }
        ensures connections { result.connections ≡ min (2 ^ 64 - 1) (length self.now.sources.items + length self.now.conns.items) }
        ensures sources { result.sources ≡ length self.now.worker.server.feeding.numbers }
        ensures listeners { result.has_listeners ≡ has_listeners self.now.conns.items }
        ensures closed { result.has_closed ≡ nat_lt result.connections before }
        ensures clock { result.clock_ms ≡ self.now.worker.clock_ms }
    {
        let connections = self.count();
        Seen {
            news: found.has_news,
            more: has_more_to_draw(self.conns.as_slice(), ms),
            connections,
            sources: self.worker.server().sources(),
            has_listeners: has_listeners(self.conns.as_slice()),
            has_closed: connections < before,
            clock_ms: self.worker.clock_ms(),
        }
    }

    /// Moves the connections of clients that have begun to feed a mount behind those of sources, if some have; unless memory is
    /// refused for that. None is lost.
    #[tactic(auto, using(crate::proofs::Partings::parted_count))]
    fn part_sources(&mut self, found: Found)
        ensures all { length self.new.sources.items + length self.new.conns.items ≡ length self.old.sources.items + length self.old.conns.items }
        ensures worker { self.new.worker ≡ self.old.worker }
        ensures does { WorkerHasDone S.steps S.refuses (shift_of self.old.worker self.old.sources.items self.old.conns.items)
            (shift_of self.new.worker self.new.sources.items self.new.conns.items) }
    {
        if !found.has_started {
            return;
        }
        'started: for _ in 0..self.worker.server().sources() {
            if !self.part_source() {
                return;
            }
        }
    }

    /// Moves the first source's connection that is among the others. Returns whether there was one, and memory for it.
    fn part_source(&mut self) -> bool
        ensures parted { HasParted result self.old.worker.server.feeding self.old.sources.items self.old.conns.items self.new.sources.items self.new.conns.items }
        ensures worker { self.new.worker ≡ self.old.worker }
    {
        let Some(at) = first_source(self.worker.server(), self.conns.as_slice()) else {
            return false;
        };
        if self.sources.reserve(1).is_err() {
            return false;
        }
        let conn = self.conns.remove(at);
        self.sources.push_reserved(conn);
        true
    }

    /// Closes the oldest lingering connection, if too many linger.
    fn close_oldest<T, P: TurnSource<T, L>>(&mut self, turn_source: &mut P)
        ensures does { WorkerHasDone S.steps S.refuses (shift_of self.old.worker self.old.sources.items self.old.conns.items)
            (shift_of self.new.worker self.new.sources.items self.new.conns.items) }
    {
        let count = self.count_lingering();
        'oldest: for _ in turn_source.most_lingering(count)..count {
            self.close_first_lingering();
        }
    }

    /// Returns how many linger.
    fn count_lingering(&self) -> usize
        ensures { result ≡ min (2 ^ 64 - 1) (length (filter lingers self.now.sources.items) + length (filter lingers self.now.conns.items)) }
    {
        let sources = count_lingering(self.sources.as_slice());
        sources.saturating_add(count_lingering(self.conns.as_slice()))
    }

    /// Closes the first of those that linger, a source's only if no other does.
    // rule: Most that linger
    fn close_first_lingering(&mut self)
        ensures oldest { (self.new.sources.items, self.new.conns.items) ≡ without_oldest self.old.sources.items self.old.conns.items }
        ensures worker { self.new.worker ≡ self.old.worker }
    {
        if count_lingering(self.conns.as_slice()) > 0 {
            close_first_lingering(&mut self.conns);
        } else {
            close_first_lingering(&mut self.sources);
        }
    }

    /// Has all clients leave that have not, and closes their connections: those of sources first, then the others, each in order.
    fn end(self) -> S::Pass
        ensures { (between last : WatchedOf _)
            × LeavesAll (WatchedSteps S.steps) (λ watched event. S.refuses watched.server event) self.entry.worker.server self.entry.sources.items between
            × LeavesAll (WatchedSteps S.steps) (λ watched event. S.refuses watched.server event) between self.entry.conns.items last
            × (result ≡ last.server) }
    {
        let mut watched = self.worker.into_server();
        leave_all(&mut watched, self.sources.as_slice());
        leave_all(&mut watched, self.conns.as_slice());
        drop(self.sources);
        drop(self.conns);
        watched.into_pass()
    }
}

/// Returns the index of the first connection whose client feeds a mount.
fn first_source<R: Wait, S: SharedServer, L: Line>(
    watched: &Watched<'_, R, S>,
    conns: &[Conn<L>],
) -> Option<usize>
    ensures { result ≡ first_source watched.now.feeding conns.now }
{
    conns.iter().position(|conn| watched.feeds(conn.id()))
}
