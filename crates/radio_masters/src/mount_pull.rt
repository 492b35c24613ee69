//! A relay's connection to its master.

ghost use Rattle.std.specs.Prelude.{◌≡◌, ◌<◌, ℕ, List, [], length, Option, Result, IfOk, OnErr, OnOk};
ghost use Rattle.radio_relay.specs.Request.{request_text};
ghost use Rattle.radio_relay.specs.Pulling.{pulling_begun};
ghost use Rattle.radio_relay.specs.Course.{GoesDown, RefusesDown};
ghost use Rattle.radio_heads.specs.declared.outcome.HeadFault.{HeadFault};
ghost use Rattle.radio_heads.specs.declared.outcome.Progress.{Progress};
ghost use Rattle.radio_heads.specs.Reading.{IsReading};
ghost use Rattle.radio_heads.specs.Response.{ResponseParts, ShowsResponse};
ghost use Rattle.radio_masters.specs.Pulls.{Comes, GoesOnHere, IsPullTurn, KeepsFront, front_with, status_in, turn_by_state};

use crate::OutOfMemory;
use crate::asking::Asking;
use radio_connections::{Line, Received};
use radio_events::Event;
use radio_heads::{MAX_HEAD, Progress, read_response};
use radio_relay::{RelayPull, ask, close, request_text, take};
use radio_session::{Ending, Server, State};
use radio_settings_values::RelaySetting;
use std::alloc::Global;
use std::marker::Model;

/// The result of a turn of a pull.
#[derive(Clone, Copy, Debug, PartialEq, Eq)]
pub enum PullTurn {
    /// It goes on.
    Running,
    /// It is shut, and the relay has gone down if it was up.
    Shut(Ending),
    /// The master has closed; the relay is to go down.
    Closed,
    /// The line has failed; the relay is to go down.
    Failed,
    /// Memory was refused: what came brought its first events at most, and the rest is lost. The relay is to go down.
    OutOfMemory,
}

/// A relay's connection to its master: the line, what it has not taken of the request, the pull, and the front of the answer.
///
/// In contracts it is a `PullOver`: the pull, what is pending, what the line gave and took, how often it was called,
/// and the front of the answer.
#[derive(Drop)]
pub struct MountPull<L: Line> {
    relay: RelayPull,
    asking: Asking,
    line: L,
    /// The answer so far, as far as a head may reach.
    front: Vec<u8>,
}

impl<L: Line> Model for MountPull<L> {
    ghost use Rattle.radio_masters.specs.Pulls.{PullOver};

    ghost Value = { PullOver };

    ghost view = { λ p. record { relay = p.relay; outgoing = p.asking; given = L.given p.line; taken = L.taken p.line; calls = L.calls p.line; front = p.front.items } };
}

impl<L: Line> MountPull<L> {
    /// The pull of this relay over this line, which is connected to its master. Nothing was written.
    /// `OutOfMemory` if memory was refused; the line is closed then.
    pub fn new(alloc: Global, relay: &RelaySetting, line: L) -> Result<MountPull<L>, OutOfMemory>
        ensures { IfOk result (λ pull. pull ≡ record {
          relay = pulling_begun relay.now.local_mount;
          outgoing = request_text relay.now;
          given = L.given line;
          taken = L.taken line;
          calls = L.calls line;
          front = [];
        }) }
    {
        let text = request_text(alloc, relay)?;
        Ok(MountPull {
            relay: RelayPull::new(alloc, relay.local_mount),
            asking: Asking::new(text),
            line,
            front: Vec::new(alloc),
        })
    }

    /// The number of the relay; `None` until it is up.
    pub fn number(&self) -> Option<u64>
        ensures { result ≡ self.now.relay.number }
    {
        self.relay.number()
    }

    /// The status of the master's answer (RFC 9112, section 4); `None` if no whole head of one has come.
    // rule: Failures of relays
    pub fn status(&self) -> Option<u16>
        ensures { (reading : Result (Progress ResponseParts) HeadFault) × IsReading ShowsResponse self.now.front reading × (result ≡ status_in reading) }
    {
        match read_response(self.front.as_slice()) {
            Ok(Progress::Whole(head, _)) => Some(head.status()),
            Ok(Progress::More) | Err(_) => None,
        }
    }

    /// Writes once what the line takes of the request, and reads once into the buffer. It pulls in the bytes that came. If
    /// none came, it asks the server whether the relay goes on.
    // rule: Turn of a pull
    pub fn turn<S: Server>(&mut self, server: &mut S, buffer: &mut [u8]) -> PullTurn
        ensures { IsPullTurn S.steps self.old server.old result self.new server.new }
    {
        if !self.asking.write(&mut self.line) {
            return PullTurn::Failed;
        }
        match self.line.read(buffer) {
            Received::Bytes(count) => {
                let bytes = &buffer[..count];
                keep_and_apply(server, &mut self.relay, &mut self.front, bytes)
            }
            Received::Nothing => probe(server, &mut self.relay),
            Received::Closed => PullTurn::Closed,
            Received::Fault => PullTurn::Failed,
        }
    }

    /// The relay goes down, if it is up. `OutOfMemory` if memory was refused for that; nothing was applied then.
    // rule: Relay goes down
    pub fn close<S: Server>(&self, server: &mut S) -> Result<(), OutOfMemory>
        ensures down { OnOk result (GoesDown S.steps self.now.relay.number server.old server.new) }
        ensures err { OnErr result (server.new ≡ server.old) }
        ensures refused { OnErr result (RefusesDown S.refuses self.now.relay.number server.old) }
    {
        close(server, &self.relay)
    }
}

/// The next bytes of the master's answer, which are added to its front.
#[tactic(auto, using(crate::proofs::Called::kept_on))]
fn keep_and_apply<S: Server>(
    server: &mut S,
    relay: &mut RelayPull,
    front: &mut Vec<u8>,
    bytes: &[u8],
) -> PullTurn
    ensures comes { Comes S.steps relay.old bytes.now server.old result relay.new server.new }
    ensures goes { GoesOnHere result }
    ensures front { KeepsFront result front.old.items bytes.now front.new.items }
{
    match keep_front(front, bytes) {
        Ok(()) => apply_bytes(server, relay, bytes),
        Err(_) => PullTurn::OutOfMemory,
    }
}

/// Adds these bytes to the front of an answer, as far as a head may reach.
fn keep_front(front: &mut Vec<u8>, bytes: &[u8]) -> Result<(), OutOfMemory>
    ensures { OnOk result (front.new.items ≡ front_with front.old.items bytes.now) }
{
    let room = MAX_HEAD.saturating_sub(front.len());
    front.extend_from_slice(&bytes[..bytes.len().min(room)])
}

/// The next bytes of the master's answer, if there are some.
fn apply_bytes<S: Server>(server: &mut S, relay: &mut RelayPull, bytes: &[u8]) -> PullTurn
    ensures comes { Comes S.steps relay.old bytes.now server.old result relay.new server.new }
    ensures goes { GoesOnHere result }
{
    if bytes.is_empty() {
        return probe(server, relay);
    }
    apply_some(server, relay, bytes)
}

#[tactic(auto, using(crate::proofs::PullEntries::taken_comes))]
fn apply_some<S: Server>(server: &mut S, relay: &mut RelayPull, bytes: &[u8]) -> PullTurn
    requires { 0 < length bytes.now }
    ensures comes { Comes S.steps relay.old bytes.now server.old result relay.new server.new }
    ensures goes { GoesOnHere result }
{
    match take(server, relay, bytes) {
        Ok(state) => turn_of(state),
        Err(_) => PullTurn::OutOfMemory,
    }
}

/// Makes a draw without room, whose reply says whether the relay has finished.
fn probe<S: Server>(server: &mut S, relay: &mut RelayPull) -> PullTurn
    ensures comes { Comes S.steps relay.old [] server.old result relay.new server.new }
    ensures goes { GoesOnHere result }
{
    let draw = relay.room(0);
    match ask(server, relay, draw) {
        Ok(state) => turn_of(state),
        Err(_) => PullTurn::OutOfMemory,
    }
}

fn turn_of(state: State) -> PullTurn
    ensures { result ≡ turn_by_state state }
{
    match state {
        State::Running => PullTurn::Running,
        State::Shut(ending) => PullTurn::Shut(ending),
    }
}
