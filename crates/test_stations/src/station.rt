//! A worker over a core, and connections over lines in memory.

use crate::memory_line::{Look, Manners, MemoryLine};
use radio_addr::Peer;
use radio_core::{Core, OutOfMemory};
use radio_events::{Event, Reply};
use radio_serving::{Conn, Gate, OpenGate, Server, Turn, WebAnswers, Worker};
use radio_settings::SettingsFault;
use radio_values::MountName;
use std::alloc::{AllocError, Global};
use std::marker::Model;
use test_calls::{core, title_event};

/// How many seconds a line may take nothing.
pub const PATIENCE_S: u32 = 10;

/// What is done to a core in addition to what connections ask of it.
#[derive(Clone, Copy)]
pub struct Meddling {
    /// Whether the first client's mount has the title `Night` as soon as it feeds it.
    pub has_title: bool,
    /// At which call the core is refused memory, counted from 0.
    pub refuses_at: u64,
}

/// Nothing.
pub const NO_MEDDLING: Meddling = Meddling {
    has_title: false,
    refuses_at: u64::MAX,
};

/// A server that is refused memory at one call. In contracts it is the server.
#[derive(Drop)]
pub struct Refusing<S: Server + Drop> {
    server: S,
    refuses_at: u64,
    calls: u64,
}

impl<S: Server + Drop> Model for Refusing<S> {
    ghost Value = { S };

    ghost view = { λ r. r.server };
}

impl<S: Server + Drop> Server for Refusing<S> {
    ghost steps = { λ from event reply to. Unit {0} };

    ghost refuses = { λ from event. Unit {0} };

    fn apply(&mut self, event: Event) -> Result<Reply, OutOfMemory> {
        let refuses = self.calls == self.refuses_at;
        self.calls = self.calls.saturating_add(1);
        if refuses {
            drop(event);
            return Err(AllocError);
        }
        self.server.apply(event)
    }

    fn last_mount(&self, id: u64) -> Option<MountName> {
        self.server.last_mount(id)
    }
}

impl<S: Server + Drop> Refusing<S> {
    /// Returns this server, refused memory at that call, counted from 0.
    pub fn new(server: S, refuses_at: u64) -> Refusing<S> {
        Refusing {
            server,
            refuses_at,
            calls: 0,
        }
    }

    /// Returns the server.
    pub fn into_server(self) -> S {
        self.server
    }
}

/// A core whose mount may have a title. In contracts it is the core.
#[derive(Drop)]
pub struct Titled {
    alloc: Global,
    core: Core,
    has_title: bool,
}

/// A core to which something is done.
pub type Meddled = Refusing<Titled>;

impl Model for Titled {
    ghost use Rattle.std.specs.Coded.{codes};
    ghost use Rattle.radio_core.specs.contracts.server.Core as the_core;
    ghost use Rattle.radio_parts_station.specs.World.{World};

    ghost Value = { World };

    ghost coded = { Prim.hlevel (codes, the_core.the_row.coded) };

    ghost view = { λ m. m.core };
}

impl Server for Titled {
    ghost steps = { λ from event reply to. Unit {0} };

    ghost refuses = { λ from event. Unit {0} };

    fn apply(&mut self, event: Event) -> Result<Reply, OutOfMemory> {
        match self.core.apply(event) {
            Ok(reply) => {
                self.note(&reply);
                Ok(reply)
            }
            Err(refused) => Err(refused),
        }
    }

    fn last_mount(&self, id: u64) -> Option<MountName> {
        self.core.last_mount(id).copied()
    }
}

impl Titled {
    fn note(&mut self, reply: &Reply) {
        if self.has_title && matches!(reply, Reply::Feeding) {
            self.set_title();
        }
    }

    /// There is no title if memory is refused for it.
    fn set_title(&mut self) {
        if let Ok(event) = title_event(self.alloc, 1, b"Night") {
            drop(self.core.step(event));
        }
    }
}

/// A worker, and its connections.
#[derive(Drop)]
pub struct Station<S: Server + Drop> {
    alloc: Global,
    worker: Worker<S>,
    conns: Vec<Conn<MemoryLine>>,
}

/// Returns a worker over a core of these settings, to which that is done, and no connection. A fault if the lines are no settings, or
/// memory was refused.
pub fn make_station(
    alloc: Global,
    more: &str,
    meddling: Meddling,
) -> Result<Station<Meddled>, SettingsFault> {
    let core = core(alloc, more)?;
    let titled = Titled {
        alloc,
        core,
        has_title: meddling.has_title,
    };
    Ok(Station::new(alloc, Refusing::new(titled, meddling.refuses_at)))
}

impl<S: Server + Drop> Station<S> {
    /// Returns a worker that asks this server, and no connection.
    pub fn new(alloc: Global, server: S) -> Station<S> {
        Station {
            alloc,
            worker: Worker::new(alloc, server, WebAnswers::none(), PATIENCE_S),
            conns: Vec::new(alloc),
        }
    }

    /// Returns the server that the worker asked.
    pub fn into_server(self) -> S {
        self.worker.into_server()
    }

    /// A connection comes with this line, at this millisecond. Returns whether it was taken in: it is not if memory was refused.
    pub fn comes(&mut self, manners: Manners, ms: u64) -> bool {
        let line = MemoryLine::new(self.alloc, manners);
        let peer = Peer::of_v4(0x0a00_0001);
        self.worker.admit(&mut self.conns, line, peer, ms).is_ok()
    }

    /// Makes so many turns, each so many milliseconds after the one before it, all with news or without.
    pub fn turns(&mut self, from_ms: u64, step_ms: u64, count: u64, news: bool) {
        let mut ms = from_ms;
        for _ in 0..count {
            let turn = Turn {
                ms,
                news,
                clock_ms: 0,
            };
            self.turn(&OpenGate, turn);
            ms = ms.saturating_add(step_ms);
        }
    }

    /// Makes a turn, through this gate.
    pub fn turn<G: Gate>(&mut self, gate: &G, turn: Turn) {
        self.worker.serve_turn(&mut self.conns, gate, turn);
    }

    /// Returns how many connections there are.
    pub fn count(&self) -> usize {
        self.conns.len()
    }

    /// Returns whether the connections are those of these clients, and no others.
    pub fn is_of(&self, ids: &[u64]) -> bool {
        for conn in self.conns.as_slice() {
            if !ids.contains(&conn.id()) {
                return false;
            }
        }
        self.conns.len() == ids.len()
    }

    /// Returns whether the line of the connection at this place shows that.
    pub fn shows(&self, at: usize, look: Look) -> bool {
        match self.conns.as_slice().get(at) {
            Some(conn) => conn.line().shows(look),
            None => false,
        }
    }
}
