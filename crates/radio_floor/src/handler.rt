//! How the server serves what arrives on a connection.

ghost use Rattle.std.specs.Prelude.{◌≡◌, ℕ, List, [], ◌∷◌, ◌++◌, IfOk, OnOk};
ghost use Rattle.radio_values.specs.Cleaning.{cleaned};
ghost use Rattle.radio_values.specs.Limits.{max_title};
ghost use Rattle.radio_parts_station.specs.World.{World};
ghost use Rattle.radio_events.specs.declared.event.Event.TheVariants.{Leave, Clock};
ghost use Rattle.radio_core.specs.Represents.{Represents};
ghost use Rattle.radio_parts.specs.Step.{world_after};
ghost use Rattle.radio_session.specs.Hearing.{EventReading, IsHeard};
ghost use Rattle.radio_floor.specs.ScriptState.{exchanges, closes, connection_unless, ComesTo, ComesToClient};
ghost use Rattle.radio_floor.specs.ScriptServer.{AnswersAs};

use crate::labelled::{Connection, Labelled};
use crate::one_draw::exchange_draw;
use crate::{OutOfMemory, cores_exchange_as_their_states};
use radio_core::Core;
use radio_events::Event;
use radio_script::Input;
use radio_session::{Ending, Session, State, exchange};
use radio_tables::RowVisit;
use radio_values::Title;
use std::alloc::Global;
use std::mem;

/// What a delivery yields on a connection: the bytes to write, and how the connection goes on.
#[derive(Drop)]
pub(crate) struct DeliveryAnswer {
    pub(crate) bytes: Vec<u8>,
    pub(crate) state: State,
}

/// Serves what arrives on a connection, with the server's core.
#[derive(Drop)]
pub(crate) struct Handler {
    pub(crate) alloc: Global,
    pub(crate) core: Core,
    /// The memory of the last answer, for the next one.
    pub(crate) spare: Vec<u8>,
}

impl Handler {
    /// Serves what arrives on a connection, and returns what it yields.
    fn answer(
        &mut self,
        connection: &mut Connection,
        input: &Input,
    ) -> Result<DeliveryAnswer, OutOfMemory>
        ensures { IfOk result (λ answered. AnswersAs self.old.core self.new.core answered connection.new
            (λ state label done. ComesTo state label connection.old input.now done)) }
    {
        match connection {
            Connection::Client(session) => self.answer_client(session, input),
            Connection::Relay(pull) => self.answer_relay(pull, input),
        }
    }

    /// Serves what arrives on a client's connection, and returns what it yields.
    fn answer_client(
        &mut self,
        connection: &mut Session,
        input: &Input,
    ) -> Result<DeliveryAnswer, OutOfMemory>
        ensures { IfOk result (λ answered. AnswersAs self.old.core self.new.core answered (Connection.Client connection.new)
            (λ state label done. ComesToClient state label connection.old input.now done)) }
    {
        match input {
            Input::Data(bytes) => self.hear(connection, bytes.as_slice()),
            Input::Room(room) => self.draw(connection, *room),
            Input::Title(text) => self.title(connection, text.as_slice()),
            Input::End => self.close(connection),
        }
    }

    /// Serves the bytes that arrive on the connection.
    fn hear(
        &mut self,
        connection: &mut Session,
        bytes: &[u8],
    ) -> Result<DeliveryAnswer, OutOfMemory>
        ensures { IfOk result (λ answered. AnswersAs self.old.core self.new.core answered (Connection.Client connection.new)
            (λ state label done. (heard : EventReading) × IsHeard connection.old bytes.now heard × (exchanges state label heard.conversation heard.events ≡ done))) }
    {
        let events = connection.take(bytes)?;
        self.exchange(connection, events)
    }

    /// Serves room for so many bytes on the connection. It makes no list of events, since a listener draws for each block.
    fn draw(&mut self, connection: &mut Session, room: u32) -> Result<DeliveryAnswer, OutOfMemory>
        ensures { IfOk result (λ answered. AnswersAs self.old.core self.new.core answered (Connection.Client connection.new)
            (λ state label done. exchanges state label connection.old (Event.Draw connection.old.id room ∷ []) ≡ done)) }
    {
        cores_exchange_as_their_states();
        let mut bytes = self.empty_answer();
        let state = exchange_draw(&mut self.core, connection, room, &mut bytes)?;
        Ok(DeliveryAnswer { bytes, state })
    }

    /// Serves a title that its source names.
    fn title(
        &mut self,
        connection: &mut Session,
        text: &[u8],
    ) -> Result<DeliveryAnswer, OutOfMemory>
        ensures { IfOk result (λ answered. AnswersAs self.old.core self.new.core answered (Connection.Client connection.new)
            (λ state label done. exchanges state label connection.old (Event.Title connection.old.id (cleaned max_title text.now) ∷ []) ≡ done)) }
    {
        let id = connection.id();
        let text = Title::clean(self.alloc, text)?;
        self.event(connection, Event::Title { id, text })
    }

    /// Ends the connection: the peer has closed it.
    fn close(&mut self, connection: &Session) -> Result<DeliveryAnswer, OutOfMemory>
        ensures { IfOk result (λ answered. AnswersAs self.old.core self.new.core answered (Connection.Client connection.now)
            (λ state label done. closes state label connection.now ≡ done)) }
    {
        leave(&mut self.core, connection.id())?;
        Ok(DeliveryAnswer {
            bytes: Vec::new(self.alloc),
            state: State::Shut(Ending::Done),
        })
    }

    /// Applies one event of the connection and writes its reply.
    fn event(
        &mut self,
        connection: &mut Session,
        event: Event,
    ) -> Result<DeliveryAnswer, OutOfMemory>
        ensures { IfOk result (λ answered. AnswersAs self.old.core self.new.core answered (Connection.Client connection.new)
            (λ state label done. exchanges state label connection.old (event ∷ []) ≡ done)) }
    {
        let mut events = Vec::new(self.alloc);
        events.push(event)?;
        self.exchange(connection, events)
    }

    /// Applies the connection's events and writes their replies.
    fn exchange(
        &mut self,
        connection: &mut Session,
        events: Vec<Event>,
    ) -> Result<DeliveryAnswer, OutOfMemory>
        ensures { IfOk result (λ answered. AnswersAs self.old.core self.new.core answered (Connection.Client connection.new)
            (λ state label done. exchanges state label connection.old events.items ≡ done)) }
    {
        cores_exchange_as_their_states();
        let mut bytes = self.empty_answer();
        let state = exchange(&mut self.core, connection, events, &mut bytes)?;
        Ok(DeliveryAnswer { bytes, state })
    }

    /// Returns no bytes, in the memory of the last answer.
    fn empty_answer(&mut self) -> Vec<u8>
        ensures bytes { result.items ≡ [] }
        ensures core { self.new.core ≡ self.old.core }
    {
        let mut bytes = mem::replace(&mut self.spare, Vec::new(self.alloc));
        bytes.clear();
        bytes
    }
}

impl RowVisit<Labelled> for Handler {
    type Given = Input;

    type Answer = Result<Option<DeliveryAnswer>, OutOfMemory>;

    ghost use Rattle.radio_floor.specs.ScriptServer.{AnswersUnder};

    ghost visits = { λ handler input row answer handler' row'. AnswersUnder handler.core input row answer handler'.core row' };

    ghost keeps_key = { λ handler handler' input row row' answer visited. visited.0 };

    fn visit(
        &mut self,
        row: &mut Labelled,
        input: &Input,
    ) -> Result<Option<DeliveryAnswer>, OutOfMemory> {
        let Some(connection) = &mut row.connection else {
            return Ok(None);
        };
        let answered = self.answer(connection, input)?;
        close_if_shut(&mut row.connection, answered.state);
        Ok(Some(answered))
    }
}

/// Nothing is left of a connection that was shut.
fn close_if_shut(connection: &mut Option<Connection>, state: State)
    ensures { connection.new ≡ connection_unless connection.old state }
{
    if let State::Shut(_) = state {
        *connection = None;
    }
}

/// The client leaves the server.
fn leave(core: &mut Core, id: u64) -> Result<(), OutOfMemory>
    ensures { OnOk result ((w : World) → Represents core.old w → Represents core.new (world_after w (Leave id))) }
{
    drop(core.step(Event::Leave { id })?);
    Ok(())
}

/// Applies the clock at this moment.
pub(crate) fn tick(core: &mut Core, ms: u64) -> Result<(), OutOfMemory>
    ensures { OnOk result ((w : World) → Represents core.old w → Represents core.new (world_after w (Clock ms))) }
{
    drop(core.step(Event::Clock { ms })?);
    Ok(())
}
