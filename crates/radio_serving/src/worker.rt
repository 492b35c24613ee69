//! A worker, who serves connections.

ghost use Rattle.std.specs.Prelude.{◌≡◌, ◌*◌, IfOk, OnOk, OnErr};
ghost use Rattle.radio_events.specs.declared.event.Event.TheVariants.{Arrive};
ghost use Rattle.radio_events.specs.declared.reply.Reply.{Reply};
ghost use Rattle.radio_serving.specs.Turns.{HasApplied, Ticks, is_time_known, IsTurn};
ghost use Rattle.radio_connections.specs.Admission.{IsTakenIn};
ghost use Rattle.radio_serving.specs.Admission.{IsAdmission, IsTurnedOff};

use crate::round::serve_each;
use crate::{Conn, Gate, Line, OutOfMemory, Server, Turn, WebAnswers};
use radio_addr::Peer;
use radio_connections::{Now, Workspace};
use radio_events::Event;
use radio_notes::Log;
use std::alloc::Global;
use std::marker::Model;

/// After how long the server gets the time again, in milliseconds.
const TICK_AFTER_MS: u64 = 50;

/// After how long a worker gives the server the time itself, in milliseconds, though others have.
const OWN_TICK_AFTER_MS: u64 = 1000;

/// A worker: the server that it asks, when it last gave that the time, and for how long it keeps a
/// line that takes nothing. In contracts it is these three.
#[derive(Drop)]
pub struct Worker<S: Server + Drop> {
    alloc: Global,
    server: S,
    web: WebAnswers,
    clock_ms: u64,
    patience_ms: u64,
    log: Log,
    workspace: Workspace,
}

impl<S: Server + Drop> Model for Worker<S> {
    ghost use Rattle.radio_serving.specs.Workers.{WorkerOf};

    ghost Value = { WorkerOf S };

    ghost view = { λ w. record { server = w.server; web = w.web; clock_ms = w.clock_ms; patience_ms = w.patience_ms } };
}

impl<S: Server + Drop> Worker<S> {
    /// Returns a worker that asks this server. It gives up a line that takes nothing of what is pending for so many
    /// seconds (the settings' `source-timeout`). Its connections are answered as the settings say.
    pub fn new(alloc: Global, server: S, web: WebAnswers, patience_s: u32) -> Worker<S>
        ensures server { result.server ≡ server }
        ensures web { result.web ≡ web }
        ensures clock { result.clock_ms ≡ 0 }
        ensures patience { result.patience_ms ≡ patience_s * 1000 }
    {
        Worker {
            alloc,
            server,
            web,
            clock_ms: 0,
            patience_ms: patience_s as u64 * 1000,
            log: Log::new(alloc),
            workspace: Workspace::new(alloc),
        }
    }

    /// Whom it asks.
    pub fn server(&self) -> &S
        ensures { result.now ≡ self.now.server }
    {
        &self.server
    }

    /// Returns when it last gave the server the time, in milliseconds; 0 if it never did.
    pub fn clock_ms(&self) -> u64
        ensures { result ≡ self.now.clock_ms }
    {
        self.clock_ms
    }

    /// Returns the log of what it has served. Its caller takes the lines, and gives it the time.
    pub fn log(&self) -> &Log {
        &self.log
    }

    /// Whom it asked, when it serves no more.
    pub fn into_server(self) -> S
        ensures { result ≡ self.server }
    {
        self.server
    }

    /// Adds a connection from this peer to the others. If the server denies it, the next turns write
    /// the denial and close it.
    ///
    /// `OutOfMemory` if memory was refused: the line is closed without a byte, the other
    /// connections are as they were, and the server has let nobody in.
    // rule: Newcomers
    pub fn admit<L: Line>(
        &mut self,
        conns: &mut Vec<Conn<L>>,
        line: L,
        peer: Peer,
        ms: u64,
    ) -> Result<(), OutOfMemory>
        ensures ok { OnOk result (IsAdmission S.steps self.old.web peer (L.given line) (L.taken line) self.old.server conns.old.items self.new.server conns.new.items) }
        ensures err { OnErr result (conns.new.items ≡ conns.old.items) }
        ensures nobody { OnErr result (IsTurnedOff S.steps peer self.old.server self.new.server) }
        ensures clock { (self.new.clock_ms ≡ self.old.clock_ms) × (self.new.patience_ms ≡ self.old.patience_ms) }
        ensures web { self.new.web ≡ self.old.web }
    {
        conns.reserve(1)?;
        let conn = self.arrival(line, peer, ms)?;
        conns.push_reserved(conn);
        Ok(())
    }

    /// The connection of a peer who has come, as the server replies to its arrival.
    fn arrival<L: Line>(&mut self, line: L, peer: Peer, ms: u64) -> Result<Conn<L>, OutOfMemory>
        ensures applied { IfOk result (λ conn. (reply : Reply) × S.steps self.old.server (Arrive peer) reply self.new.server
            × IsTakenIn (record { web = self.old.web; peer = peer; reply = reply }) (L.given line) (L.taken line) conn
            × (conn.session.says.web ≡ self.old.web)) }
        ensures nobody { OnErr result (IsTurnedOff S.steps peer self.old.server self.new.server) }
        ensures clock { (self.new.clock_ms ≡ self.old.clock_ms) × (self.new.patience_ms ≡ self.old.patience_ms) }
        ensures web { self.new.web ≡ self.old.web }
    {
        let reply = self.server.apply(Event::Arrive { peer })?;
        Conn::admitted(self.alloc, self.web, peer, line, reply, ms)
    }

    /// Serves each connection once, at the turn's moment, and closes those that are over. The worker gives the server
    /// the time if a twentieth of a second has passed since any is known to have done so, or a second since it last
    /// did.
    // rule: Finishes are silent; Pending bytes first; Reading; Drawing; Cut off; Lingering
    // rule: Closed by the peer; Unwanted bytes; Server time; Connection without memory
    pub fn serve_turn<L: Line, G: Gate>(&mut self, conns: &mut Vec<Conn<L>>, gate: &G, turn: Turn)
        ensures { IsTurn S.steps S.refuses turn self.old conns.old.items self.new conns.new.items }
    {
        self.tick(turn.ms, turn.clock_ms);
        let now = Now {
            ms: turn.ms,
            patience_ms: self.patience_ms,
            news: turn.news,
        };
        let workspace = &mut self.workspace;
        serve_each(&mut self.server, conns, workspace, gate, now, &self.log);
        conns.retain(|conn| conn.stays());
    }

    /// Gives the server the time `ms`, unless that is known: another worker is known to have given it `clock_ms`.
    // rule: Server time
    fn tick(&mut self, ms: u64, clock_ms: u64)
        ensures { Ticks S.steps S.refuses ms clock_ms self.old self.new }
    {
        if is_known(ms, clock_ms, self.clock_ms) {
            return;
        }
        if apply_quietly(&mut self.server, Event::Clock { ms }) {
            self.clock_ms = ms;
        }
    }
}

/// Returns whether the server has `ms` by now, or nearly so: from a worker that gave it `own_ms` itself, or from
/// another that is known to have given it `clock_ms`.
fn is_known(ms: u64, clock_ms: u64, own_ms: u64) -> bool
    ensures { result ≡ is_time_known ms clock_ms own_ms }
{
    let own_age_ms = ms.saturating_sub(own_ms);
    own_age_ms < TICK_AFTER_MS
        || (ms.saturating_sub(clock_ms) < TICK_AFTER_MS && own_age_ms < OWN_TICK_AFTER_MS)
}

/// Applies an event whose reply is written to nobody. Returns whether memory was not refused.
fn apply_quietly<S: Server>(server: &mut S, event: Event) -> bool
    ensures { HasApplied S.steps S.refuses result server.old event server.new }
{
    match server.apply(event) {
        Ok(reply) => {
            drop(reply);
            true
        }
        Err(_) => false,
    }
}
