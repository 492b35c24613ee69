//! Laws of scripts, for every performer. They run no code.

ghost use Rattle.radio_script.specs.Laws.{GoesOnAsItBegan, HasOneTranscript, IsDetermined};

use crate::performer::Performer;

/// If each delivery has one result, a script has one transcript.
pub fn scripts_have_one_transcript<P: Performer>()
    ensures { IsDetermined P.performs → HasOneTranscript P.performs }
{}

/// If each delivery has one result, more lines at a script's end change nothing before them: the transcript of
/// its first whole lines is a front of the whole transcript.
pub fn transcripts_go_on_as_they_began<P: Performer>()
    ensures { IsDetermined P.performs → GoesOnAsItBegan P.performs }
{}
