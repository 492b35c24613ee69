//! Scripts played: the call that `radiod play` makes.

ghost use Rattle.std.specs.Prelude.{◌≡◌, ◌≢◌, ◌+◌, ◌≤◌, true, None, Ok, Err};
ghost use Rattle.radio_script.specs.Plays.{IfKnown, Writes};
ghost use Rattle.radio_script.specs.Script.{deliveries_from, script_lines};
ghost use Rattle.radio_script.specs.Reading.{reader_failures, writer_failures};
ghost use Rattle.radio_floor.specs.Transcript.{PlaysScript};
ghost use Rattle.radio_headline.specs.Scripts.{HearsSlices};

use crate::laws::played_scripts_hear_slices;
use radio_access::Lists;
use radio_answers::WebAnswers;
use radio_script::{CountedRead, CountedWrite, PlayFault};
use radio_settings_values::Settings;
use std::alloc::Global;

/// Plays a script as [`play`](radio_floor::play) of `radio_floor` does, with the law from bytes to bytes as a clause.
/// It reads the script line by line, and runs each delivery through a server of these settings and lists. It writes a
/// delivery's lines before it reads on. `web` is what the settings say of answers.
///
/// - `Read`, `Write`: that device failed; an interrupted call, and a write that takes nothing, are failures too.
/// - `Line`: that line of the script, counted from 1, is no delivery, or its label is at fault.
/// - `TooMuch`: the script has more than 1,000,000 lines, or one of more than 65,536 bytes.
/// - `OutOfMemory`: memory was refused.
pub fn play<R: CountedRead, W: CountedWrite>(
    alloc: Global,
    web: WebAnswers,
    settings: Settings,
    lists: Lists,
    reader: &mut R,
    writer: &mut W,
) -> Result<(), PlayFault>
    // what was written is the transcript of the script's lines, as far as the result says
    ensures plays { IfKnown (R.remaining reader.old) (R.remaining reader.new) (λ script left.
        Writes (W.contents writer.old) (W.contents writer.new) (W.calls writer.old) (W.calls writer.new) (λ written turns.
        PlaysScript web settings lists script left result written turns)) }
    // if the script is played to its end, what was written is what its listeners, sources and commanders get by the
    // policy. Each listener gets slices of what the script's sources delivered, and each denied client the first rule
    // that denies it
    ensures hears { IfKnown (R.remaining reader.old) (R.remaining reader.new) (λ script left.
        Writes (W.contents writer.old) (W.contents writer.new) (W.calls writer.old) (W.calls writer.new) (λ written turns.
        (done : Unit {0}) → result ≡ Ok done → HearsSlices web settings lists (deliveries_from 1 (script_lines script)) written None)) }
    // 1,000,000 lines of 65,536 bytes with their line feeds, a byte a call, and one call more
    ensures reader_calls { R.calls reader.new ≤ R.calls reader.old + 65537000001 }
    // a fault of a device comes with its first failure, and only with one
    ensures reader_failures { R.failures reader.new ≡ reader_failures result (R.failures reader.old) }
    ensures writer_failures { W.failures writer.new ≡ writer_failures result (W.failures writer.old) }
    // nothing that was written is kept back
    ensures flushed { result ≢ Err PlayFault.Write → W.is_flushed writer.old ≡ true → W.is_flushed writer.new ≡ true }
{
    played_scripts_hear_slices();
    radio_floor::play(alloc, web, settings, lists, reader, writer)
}
