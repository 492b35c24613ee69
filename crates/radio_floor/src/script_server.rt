//! The server behind a script: its core, and the connections of the labels.

ghost use Rattle.std.specs.Prelude.{◌≡◌, ℕ, List, [], ◌++◌, true, false, Ok, IfOk, OnOk, Some, None};
ghost use Rattle.std.specs.Option.{option_copied};
ghost use Rattle.radio_parts_station.specs.World.{World, opening};
ghost use Rattle.radio_events.specs.declared.event.Event.TheVariants.{Arrive};
ghost use Rattle.radio_core.specs.Represents.{Represents};
ghost use Rattle.radio_parts.specs.Step.{reply_to, world_after};
ghost use Rattle.radio_session.specs.Conversation.{asking};
ghost use Rattle.radio_session.specs.Saying.{said};
ghost use Rattle.radio_floor.specs.ScriptState.{connects, relay_named, taken_in, written_lines};
ghost use Rattle.radio_floor.specs.ScriptServer.{ConnectsAs, OpensAs};

use crate::OutOfMemory;
use crate::handler::Handler;
use crate::labelled::{Connection, Labelled};
use radio_access::Lists;
use radio_addr::Peer;
use radio_core::Core;
use radio_events::{Event, Reply};
use radio_relay::{RelayPull, request_text};
use radio_script::push_answer;
use radio_session::{Session, State, WebAnswers};
use radio_settings_values::{RelaySetting, Settings};
use radio_tables::Table;
use radio_values::MountName;
use std::alloc::Global;

/// The server behind a script.
#[derive(Drop)]
pub(crate) struct ScriptServer {
    /// What the settings say of answers.
    pub(crate) web: WebAnswers,
    pub(crate) handler: Handler,
    /// The labels that were opened, in rising order.
    pub(crate) connections: Table<Labelled>,
}

impl ScriptServer {
    /// A server of these settings and lists, to which no connection has come. It takes no memory.
    pub(crate) fn new(
        alloc: Global,
        web: WebAnswers,
        settings: Settings,
        lists: Lists,
    ) -> ScriptServer
        ensures web { result.web ≡ web }
        ensures core { Represents result.handler.core (opening settings lists) }
        ensures connections { result.connections ≡ [] }
    {
        ScriptServer {
            web,
            handler: Handler {
                alloc,
                core: Core::new(alloc, settings, lists),
                spare: Vec::new(alloc),
            },
            connections: Table::new(alloc),
        }
    }

    /// A connection arrives under a new label.
    pub(crate) fn open(
        &mut self,
        label: u32,
        peer: Peer,
        lines: &mut Vec<u8>,
    ) -> Result<(), OutOfMemory>
        ensures web { self.new.web ≡ self.old.web }
        ensures opens { OnOk result (OpensAs self.old.web self.old.handler.core self.old.connections label peer lines.old.items
            self.new.handler.core self.new.connections lines.new.items) }
    {
        let alloc = self.handler.alloc;
        let mut bytes = Vec::new(alloc);
        let (connection, state) = arrive(
            alloc,
            self.web,
            &mut self.handler.core,
            peer,
            &mut bytes,
        )?;
        self.connections.insert(Labelled { label, connection })?;
        push_lines(label, bytes.as_slice(), state, lines)?;
        Ok(())
    }

    /// The relay that feeds the mount of this name connects to its master under a new label; whether
    /// there is one.
    pub(crate) fn connect(
        &mut self,
        label: u32,
        mount: &[u8],
        lines: &mut Vec<u8>,
    ) -> Result<bool, OutOfMemory>
        ensures web { self.new.web ≡ self.old.web }
        ensures core { self.new.handler.core ≡ self.old.handler.core }
        ensures one { result ≡ Ok true → (text : List ℕ) × (lines.new.items ≡ lines.old.items ++ text)
            × ConnectsAs self.old.handler.core self.old.connections label mount.now (Some text) self.new.connections }
        ensures none { result ≡ Ok false → ConnectsAs self.old.handler.core self.old.connections label mount.now None self.new.connections }
    {
        let alloc = self.handler.alloc;
        let Some(relay) = relay_named(&self.handler.core, mount) else {
            return Ok(false);
        };
        let request = request_text(alloc, relay)?;
        let connection = Some(Connection::Relay(RelayPull::new(alloc, relay.local_mount)));
        self.connections.insert(Labelled { label, connection })?;
        push_lines(label, request.as_slice(), State::Running, lines)?;
        Ok(true)
    }
}

/// The relay that feeds the mount of this name, by the settings.
fn relay_named<'a>(core: &'a Core, mount: &[u8]) -> Option<&'a RelaySetting>
    ensures { (w : World) → Represents core.now w → option_copied result ≡ relay_named w mount.now }
{
    let name = MountName::read(mount)?;
    core.settings().relays.get(&name)
}

/// A connection arrives at the server: the connection, if it is taken in, and whether it goes
/// on.
fn arrive(
    alloc: Global,
    web: WebAnswers,
    core: &mut Core,
    peer: Peer,
    out: &mut Vec<u8>,
) -> Result<(Option<Connection>, State), OutOfMemory>
    ensures { IfOk result (λ arrived. (w : World) → Represents core.old w →
        let reply = reply_to w (Arrive peer) in
        let written = said (asking web) reply in
        Represents core.new (world_after w (Arrive peer)) × (out.new.items ≡ out.old.items ++ written.bytes) × (arrived.0 ≡ taken_in web peer reply) × (arrived.1
        ≡ written.state)) }
{
    let reply = core.step(Event::Arrive { peer })?;
    answer_arrival(alloc, web, peer, reply, out)
}

/// Serves the reply to an arrival. Returns the connection, if it is taken in, and whether it goes
/// on.
fn answer_arrival(
    alloc: Global,
    web: WebAnswers,
    peer: Peer,
    reply: Reply,
    out: &mut Vec<u8>,
) -> Result<(Option<Connection>, State), OutOfMemory>
    ensures { let written = said (asking web) reply in
        IfOk result (λ arrived. (out.new.items ≡ out.old.items ++ written.bytes) × (arrived.0 ≡ taken_in web peer reply) × (arrived.1 ≡ written.state)) }
{
    let connection = taken_in(alloc, web, peer, &reply);
    let state = append_arrival(alloc, web, peer, reply, out)?;
    Ok((connection, state))
}

/// Appends the bytes that a newly arrived peer reads. Returns whether its connection goes on.
fn append_arrival(
    alloc: Global,
    web: WebAnswers,
    peer: Peer,
    reply: Reply,
    out: &mut Vec<u8>,
) -> Result<State, OutOfMemory>
    ensures { let written = said (asking web) reply in
        IfOk result (λ state. (out.new.items ≡ out.old.items ++ written.bytes) × (state ≡ written.state)) }
{
    let mut session = Session::new(alloc, web, 0, peer);
    session.give(reply, out)
}

/// The new connection, if the server takes it in.
fn taken_in(alloc: Global, web: WebAnswers, peer: Peer, reply: &Reply) -> Option<Connection>
    ensures { result ≡ taken_in web peer reply.now }
{
    match reply {
        Reply::Arrived(id) => Some(Connection::Client(Session::new(alloc, web, *id, peer))),
        Reply::Feeding
        | Reply::Seated { .. }
        | Reply::Drawn { .. }
        | Reply::Noted
        | Reply::Text(_)
        | Reply::Deny(_)
        | Reply::Finished(_)
        | Reply::Stray => None,
    }
}

/// Adds the lines of one delivery: the bytes that were written, and how the connection ended, if it
/// did.
pub(crate) fn push_lines(
    label: u32,
    bytes: &[u8],
    state: State,
    lines: &mut Vec<u8>,
) -> Result<(), OutOfMemory>
    ensures { OnOk result (lines.new.items ≡ lines.old.items ++ written_lines label bytes.now state) }
{
    match state {
        State::Running => push_answer(lines, label, bytes, None),
        State::Shut(ending) => push_answer(lines, label, bytes, Some(ending.word())),
    }
}
