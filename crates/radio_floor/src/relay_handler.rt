//! How the server serves what arrives on a relay's connection to its master.

ghost use Rattle.std.specs.Prelude.{◌≡◌, IfOk};
ghost use Rattle.std.specs.Option.{option_map};
ghost use Rattle.radio_values.specs.Cleaning.{cleaned};
ghost use Rattle.radio_values.specs.Limits.{max_title};
ghost use Rattle.radio_floor.specs.declared.labelled.Connection.TheVariants.{Relay};
ghost use Rattle.radio_floor.specs.ScriptState.{AsksOn, ComesToRelay};
ghost use Rattle.radio_floor.specs.ScriptServer.{AnswersAs, PullsAs};

use crate::handler::{DeliveryAnswer, Handler};
use crate::{OutOfMemory, cores_pull_as_their_states};
use radio_events::Event;
use radio_relay::{RelayPull, ask, close, take};
use radio_script::Input;
use radio_session::{Ending, State};
use radio_values::Title;

impl Handler {
    /// Serves what arrives on a relay's connection, and returns how it goes on. No bytes are
    /// written.
    pub(crate) fn answer_relay(
        &mut self,
        pull: &mut RelayPull,
        input: &Input,
    ) -> Result<DeliveryAnswer, OutOfMemory>
        ensures { IfOk result (λ answered. AnswersAs self.old.core self.new.core answered (Relay pull.new)
            (λ state label done. ComesToRelay state label pull.old input.now done)) }
    {
        let state = self.pull(pull, input)?;
        Ok(DeliveryAnswer {
            bytes: Vec::new(self.alloc),
            state,
        })
    }

    fn pull(&mut self, pull: &mut RelayPull, input: &Input) -> Result<State, OutOfMemory>
        ensures { IfOk result (λ ends. PullsAs self.old.core self.new.core ends pull.new
            (λ state label done. ComesToRelay state label pull.old input.now done)) }
    {
        match input {
            Input::Data(bytes) => self.pull_in(pull, bytes.as_slice()),
            Input::Room(room) => self.make_room(pull, *room),
            Input::Title(text) => self.name(pull, text.as_slice()),
            Input::End => self.hang_up(pull),
        }
    }

    /// Serves bytes of the master's answer that arrive on the connection.
    fn pull_in(&mut self, pull: &mut RelayPull, bytes: &[u8]) -> Result<State, OutOfMemory>
        ensures { IfOk result (λ ends. PullsAs self.old.core self.new.core ends pull.new
            (λ state label done. ComesToRelay state label pull.old (Input.Data bytes.now) done)) }
    {
        cores_pull_as_their_states();
        take(&mut self.core, pull, bytes)
    }

    /// Serves room for so many bytes on the connection.
    fn make_room(&mut self, pull: &mut RelayPull, room: u32) -> Result<State, OutOfMemory>
        ensures { IfOk result (λ ends. PullsAs self.old.core self.new.core ends pull.new
            (λ state label done. AsksOn state label pull.old (option_map (λ id. Event.Draw id room) pull.old.number) done)) }
    {
        let event = pull.room(room);
        self.ask(pull, event)
    }

    /// Serves a title that the script names.
    fn name(&mut self, pull: &mut RelayPull, text: &[u8]) -> Result<State, OutOfMemory>
        ensures { IfOk result (λ ends. PullsAs self.old.core self.new.core ends pull.new
            (λ state label done. AsksOn state label pull.old (option_map (λ id. Event.Title id (cleaned max_title text.now)) pull.old.number) done)) }
    {
        let text = Title::clean(self.alloc, text)?;
        let event = pull.title(text);
        self.ask(pull, event)
    }

    /// Applies the event that the relay asks for, if it asks for one.
    fn ask(&mut self, pull: &mut RelayPull, event: Option<Event>) -> Result<State, OutOfMemory>
        ensures { IfOk result (λ ends. PullsAs self.old.core self.new.core ends pull.new
            (λ state label done. AsksOn state label pull.old event done)) }
    {
        cores_pull_as_their_states();
        ask(&mut self.core, pull, event)
    }

    /// Ends the pull: the master has closed the connection.
    fn hang_up(&mut self, pull: &RelayPull) -> Result<State, OutOfMemory>
        ensures { IfOk result (λ ends. PullsAs self.old.core self.new.core ends pull.now
            (λ state label done. ComesToRelay state label pull.now Input.End done)) }
    {
        cores_pull_as_their_states();
        close(&mut self.core, pull)?;
        Ok(State::Shut(Ending::Done))
    }
}
