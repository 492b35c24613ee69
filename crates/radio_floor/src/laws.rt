//! Laws on the transcript, which run no code.

ghost use Rattle.radio_script.specs.Laws.{GoesOnAsItBegan, HasOneTranscript, IsDetermined};
ghost use Rattle.radio_answers.specs.declared.web_answers.WebAnswers.{WebAnswers};
ghost use Rattle.radio_floor.specs.Transcript.{conduct};
ghost use Rattle.radio_floor.specs.LastWords.{ClosedOnesAreDone, CommandsAreTold, DenialsAreTold, DeniedArrivalsAreTold, FaultyBodiesAreTold, FinishesAreTold, RefusalsAreTold, WholeBodiesAreTold};
ghost use Rattle.radio_floor.specs.ScriptEvents.{ScriptsComeToEvents};

use crate::pulling_is_one;
use radio_session::{hearing_is_one, last_words_name_the_rule};

/// A script has one transcript, and the transcript of the whole lines at its front is a front of it, whatever lines are
/// behind them.
// rule: Line of a script
pub fn the_transcript_is_one()
    ensures determined { (web : WebAnswers) → IsDetermined (conduct web) }
    ensures one { (web : WebAnswers) → HasOneTranscript (conduct web) }
    ensures goes_on { (web : WebAnswers) → GoesOnAsItBegan (conduct web) }
{
    hearing_is_one();
    pulling_is_one();
}

/// A connection that is shut has the word of the rule that shut it, or `bad-body` for a fault in its body. It has
/// `done` if its peer closed it, its command was done or its body is whole.
// rule: Finishes are silent; Answer to a denial; Commands by GET; Last word; Greeting of a source
pub fn last_words_are_told()
    ensures arrivals { DeniedArrivalsAreTold }
    ensures denied { DenialsAreTold }
    ensures refused { RefusalsAreTold }
    ensures finished { FinishesAreTold }
    ensures command { CommandsAreTold }
    ensures faulty { FaultyBodiesAreTold }
    ensures whole { WholeBodiesAreTold }
    ensures done { ClosedOnesAreDone }
{
    last_words_name_the_rule();
}

/// A script yields its transcript by a course of events, each asked for by a delivery on its connection.
pub fn scripts_come_to_events()
    // a script that has a transcript has events: for each delivery the first of those that are
    // asked on its connection, or all. They lead the server from its state to the next
    ensures { ScriptsComeToEvents }
{}
