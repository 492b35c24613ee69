//! The server behind a list of deliveries, and behind a script.

ghost use Rattle.std.specs.Prelude.{◌≡◌, ◌≢◌, ◌+◌, ◌≤◌, ℕ, List, true, None, Some, Err, IfOk};
ghost use Rattle.radio_script.specs.Plays.{IfKnown, Writes};
ghost use Rattle.radio_script.specs.Reading.{reader_failures, writer_failures};
ghost use Rattle.radio_floor.specs.Transcript.{IsTranscriptOf, PlaysScript};

use crate::script_server::ScriptServer;
use radio_access::Lists;
use radio_script::{CountedRead, CountedWrite, Delivery, PlayFault, RunFault, play_with, run_with};
use radio_session::WebAnswers;
use radio_settings_values::Settings;
use std::alloc::Global;

/// The lines `out` and `shut` that deliveries yield.
pub type Transcript = Vec<u8>;

/// Runs deliveries through a server of these settings and lists, to which nothing has happened yet, and returns their
/// transcript. `web` is what the settings say of answers.
///
/// - `Delivery`: at the first delivery, counted from 1, whose label was not opened or is opened twice.
/// - `OutOfMemory`: memory was refused.
// rule: Line of a script
pub fn run(
    alloc: Global,
    web: WebAnswers,
    settings: Settings,
    lists: Lists,
    deliveries: &[Delivery],
) -> Result<Transcript, RunFault>
    // the transcript is that of all deliveries
    ensures ok { IfOk result (λ transcript. IsTranscriptOf web settings lists deliveries.now transcript.items None) }
    // the fault comes only at a delivery whose label is at fault
    ensures delivery { (number : ℕ) → result ≡ Err (RunFault.Delivery number)
        → (text : List ℕ) × IsTranscriptOf web settings lists deliveries.now text (Some number) }
{
    let mut server = ScriptServer::new(alloc, web, settings, lists);
    let transcript = run_with(alloc, &mut server, deliveries);
    drop(server);
    transcript
}

/// Plays a script: reads it line by line, runs each delivery through a server of these settings and lists, and writes
/// its lines before it reads on. `web` is what the settings say of answers.
///
/// - `Read`, `Write`: that device failed; an interrupted call, and a write that takes nothing, are failures too.
/// - `Line`: that line of the script, counted from 1, is no delivery, or its label is at fault.
/// - `TooMuch`: the script has more than 1,000,000 lines, or one of more than 65,536 bytes.
/// - `OutOfMemory`: memory was refused.
// rule: Script without memory; Line of a script; Fault of a script; Labels
pub fn play<R: CountedRead, W: CountedWrite>(
    alloc: Global,
    web: WebAnswers,
    settings: Settings,
    lists: Lists,
    reader: &mut R,
    writer: &mut W,
) -> Result<(), PlayFault>
    // what was written is the transcript of the script's lines, as far as the result says
    ensures plays { IfKnown (R.remaining reader.old) (R.remaining reader.new) (λ script left.
        Writes (W.contents writer.old) (W.contents writer.new) (W.calls writer.old) (W.calls writer.new) (λ written turns.
        PlaysScript web settings lists script left result written turns)) }
    // 1,000,000 lines of 65,536 bytes with their line feeds, a byte a call, and one call more
    ensures reader_calls { R.calls reader.new ≤ R.calls reader.old + 65537000001 }
    // a fault of a device comes with its first failure, and only with one
    ensures reader_failures { R.failures reader.new ≡ reader_failures result (R.failures reader.old) }
    ensures writer_failures { W.failures writer.new ≡ writer_failures result (W.failures writer.old) }
    // nothing that was written is kept back
    ensures flushed { result ≢ Err PlayFault.Write → W.is_flushed writer.old ≡ true → W.is_flushed writer.new ≡ true }
{
    let mut server = ScriptServer::new(alloc, web, settings, lists);
    let played = play_with(alloc, &mut server, reader, writer);
    drop(server);
    played
}
