ghost use Rattle.std.specs.Prelude.{◌≡◌, IfOk};
ghost use Rattle.radio_parts.specs.Command.{command_outcome, does_asked, said_of};
ghost use Rattle.radio_parts_facts.specs.CommandFacts.{rows_to_command};
ghost use Rattle.radio_parts.specs.Outcomes.{on_verdict};
ghost use Rattle.radio_parts_changes.specs.Counts.{nobody};
ghost use Rattle.radio_parts.specs.Planned.{uncounted, told_counts};
ghost use Rattle.radio_fallback.specs.declared.moves.Carried.{Carried as CarriedOf};
ghost use Rattle.radio_policy.specs.Verdicts.{verdict_in};

use crate::OutOfMemory;
use crate::control::Control;
use crate::outcome::Outcome;
use radio_events::{Asked, Command, CommandRequest, Reply, ReplyText};
use radio_parts_changes::Change;
use radio_parts_facts::{command_facts, shown};
use radio_parts_station::Standing;
use radio_policy::{Action, Verdict, judge};

impl Control {
    /// A client gives a command. `OutOfMemory` if memory was refused. A reply that names how many were
    /// moved or have finished names none here: that is known only when the change is made.
    pub(crate) fn command(&self, asked: CommandRequest) -> Result<Outcome, OutOfMemory>
        ensures { IfOk result (λ o. o ≡ uncounted (command_outcome self.now asked)) }
    {
        match self.standing(asked.id) {
            Standing::Undecided(_) => self.judged(asked),
            Standing::Finished(rule) => {
                drop(asked);
                Ok(Outcome::finished(rule))
            }
            Standing::Unknown | Standing::Feeds(_) | Standing::Sits | Standing::Answered => {
                drop(asked);
                Ok(Outcome::stray())
            }
        }
    }

    /// One who has asked for nothing yet gives a command.
    fn judged(&self, asked: CommandRequest) -> Result<Outcome, OutOfMemory>
        ensures { IfOk result (λ o. o ≡ uncounted
            (on_verdict (verdict_in (rows_to_command self.now asked)) (Change.Answer asked.id) (does_asked self.now asked.id asked.asked))) }
    {
        let facts = command_facts(
            &self.station(),
            self.seats(),
            &asked.asked,
            asked.pair.as_ref(),
        );
        match judge(&Action::Command(facts)) {
            Verdict::Deny(rule) => {
                let id = asked.id;
                drop(asked);
                Ok(Outcome::refused(rule, id))
            }
            Verdict::Allow => self.allowed(asked),
        }
    }

    /// The client is shown what it asked for, or the command is done; where it is none, which the
    /// policy denies, nothing happens.
    fn allowed(&self, asked: CommandRequest) -> Result<Outcome, OutOfMemory>
        ensures { IfOk result (λ o. o ≡ uncounted (does_asked self.now asked.id asked.asked)) }
    {
        let CommandRequest { id, asked, .. } = asked;
        match asked {
            Asked::Listing(listing) => Ok(Outcome {
                reply: Reply::Text(shown(self.alloc, &self.station(), self.seats(), &listing)?),
                change: Change::Answer { id },
            }),
            Asked::Command(command) => Ok(Outcome {
                reply: Reply::Text(said_of(&command)),
                change: Change::Obey { id, command },
            }),
            Asked::NoCommand | Asked::MissingArgument(_) => Ok(Outcome::stray()),
        }
    }
}

/// Returns the reply to a command, before it is known how many listeners it has moved or finished.
fn said_of(command: &Command) -> ReplyText
    ensures { (counts : CarriedOf) → result ≡ told_counts (said_of command.now counts) nobody }
{
    match command {
        Command::MoveClients { .. } => ReplyText::Moved(0),
        Command::AddUser { .. } | Command::DeleteUser { .. } => ReplyText::Ended(0),
        Command::KillClient { .. }
        | Command::KillSource { .. }
        | Command::SetTitle { .. }
        | Command::SetFallback { .. } => ReplyText::Done,
    }
}
