//! Plays a script. Read [`play_with`] first.

ghost use Rattle.std.specs.Prelude.{◌≡◌, ◌≢◌, ◌+◌, ◌≤◌, ℕ, List, true, Ok, Err, length};
ghost use Rattle.radio_script.specs.Answers.{AnswersLine, IsLineResult, PlaysLine};
ghost use Rattle.radio_script.specs.Plays.{EndsThere, IfKnown, Plays, Writes};
ghost use Rattle.radio_script.specs.Reading.{reader_failures, writer_failures};
ghost use Rattle.radio_script.specs.Limits.{max_line, max_lines};
ghost use Rattle.radio_script.specs.Script.{meaning_of};

use crate::performer::Performer;
use crate::{
    CountedRead, CountedWrite, Delivery, LineRead, MAX_LINES, PerformFault, PlayFault, next_byte,
    read_delivery, read_line, write_whole,
};
use std::alloc::Global;

// The line being played, and the text of its delivery.
#[derive(Drop)]
struct Buffers {
    line: Vec<u8>,
    text: Vec<u8>,
}

/// Plays a script: reads it line by line, and writes its transcript. It answers a line before
/// it reads anything after that line.
///
/// With `Ok` it has read to the reader's end. The errors are `Read` or `Write` if that device
/// failed, `Line` or `TooMuch` if the script has that fault, and `OutOfMemory` if memory was refused.
/// There is no other error.
// rule: Line of a script; Longest script
pub fn play_with<P: Performer, R: CountedRead, W: CountedWrite>(
    alloc: Global,
    performer: &mut P,
    reader: &mut R,
    writer: &mut W,
) -> Result<(), PlayFault>
    // The bytes written are the transcript of the script's lines, as far as the result says.
    ensures plays { IfKnown (R.remaining reader.old) (R.remaining reader.new) (λ script left.
        Writes (W.contents writer.old) (W.contents writer.new)
        (W.calls writer.old) (W.calls writer.new) (λ written most_calls.
        Plays P.performs performer.old 1 script left result written most_calls performer.new)) }

    // 1,000,000 lines of 65,536 bytes with their line feeds, one call for each byte, and one call more.
    ensures reader_calls { R.calls reader.new ≤ R.calls reader.old + 65537000001 }

    // A device's fault is the result of its first failure, and of nothing else.
    ensures reader_failures { R.failures reader.new ≡ reader_failures result (R.failures reader.old) }
    ensures writer_failures { W.failures writer.new ≡ writer_failures result (W.failures writer.old) }

    // The writer keeps nothing back.
    ensures flushed { result ≢ Err PlayFault.Write
        → W.is_flushed writer.old ≡ true → W.is_flushed writer.new ≡ true }
{
    let mut buffers = Buffers {
        line: Vec::new(alloc),
        text: Vec::new(alloc),
    };
    for number in 1..MAX_LINES + 1 {
        match play_line(alloc, performer, number, reader, writer, &mut buffers) {
            Ok(true) => {}
            Ok(false) => return Ok(()),
            Err(fault) => return Err(fault),
        }
    }
    expect_end(reader)
}

// Reads the next line and answers it. Returns `Ok(true)` if the line had its line feed, and `Ok(false)` at
// the reader's end.
// rule: Line of a script
fn play_line<P: Performer, R: CountedRead, W: CountedWrite>(
    alloc: Global,
    performer: &mut P,
    number: u32,
    reader: &mut R,
    writer: &mut W,
    buffers: &mut Buffers,
) -> Result<bool, PlayFault>
    requires { number ≤ max_lines }
    ensures plays { IfKnown (R.remaining reader.old) (R.remaining reader.new) (λ script left.
        Writes (W.contents writer.old) (W.contents writer.new)
        (W.calls writer.old) (W.calls writer.new) (λ written most_calls.
        PlaysLine P.performs performer.old number script left result written most_calls performer.new)) }
    ensures reader_calls { R.calls reader.new ≤ R.calls reader.old + (max_line + 1) }
    ensures reader_failures { R.failures reader.new ≡ reader_failures result (R.failures reader.old) }
    ensures writer_failures { W.failures writer.new ≡ writer_failures result (W.failures writer.old) }
    ensures flushed { result ≢ Err PlayFault.Write
        → W.is_flushed writer.old ≡ true → W.is_flushed writer.new ≡ true }
{
    match read_line(reader, &mut buffers.line) {
        Err(fault) => Err(fault),
        Ok(LineRead::Nothing) => Ok(false),
        Ok(LineRead::TooLong) => Err(PlayFault::TooMuch),
        Ok(LineRead::Last) => {
            match answer_line(
                alloc,
                performer,
                number,
                &buffers.line,
                &mut buffers.text,
                writer,
            ) {
                Ok(()) => Ok(false),
                Err(fault) => Err(fault),
            }
        }
        Ok(LineRead::Whole) => {
            match answer_line(
                alloc,
                performer,
                number,
                &buffers.line,
                &mut buffers.text,
                writer,
            ) {
                Ok(()) => Ok(true),
                Err(fault) => Err(fault),
            }
        }
    }
}

// Performs the delivery of a line, and writes its text.
fn answer_line<P: Performer, W: CountedWrite>(
    alloc: Global,
    performer: &mut P,
    number: u32,
    line: &[u8],
    text: &mut Vec<u8>,
    writer: &mut W,
) -> Result<(), PlayFault>
    requires known { number ≤ max_lines }
    requires short { length line.now ≤ max_line }
    ensures answers { Writes (W.contents writer.old) (W.contents writer.new)
        (W.calls writer.old) (W.calls writer.new) (λ written most_calls.
        AnswersLine P.performs performer.old number line.now result written most_calls performer.new) }
    ensures failures { W.failures writer.new ≡ writer_failures result (W.failures writer.old) }
    ensures flushed { result ≢ Err PlayFault.Write
        → W.is_flushed writer.old ≡ true → W.is_flushed writer.new ≡ true }
{
    match perform_line(alloc, performer, number, line, text) {
        Err(fault) => Err(fault),
        Ok(()) => match write_whole(writer, text) {
            Ok(()) => Ok(()),
            Err(_) => Err(PlayFault::Write),
        },
    }
}

// Performs the delivery of a line, and leaves its lines in `text`.
// rule: Line of a script
#[tactic(auto, unfolding(crate::specs::Script::meaning_of))]
fn perform_line<P: Performer>(
    alloc: Global,
    performer: &mut P,
    number: u32,
    line: &[u8],
    text: &mut Vec<u8>,
) -> Result<(), PlayFault>
    requires known { number ≤ max_lines }
    requires short { length line.now ≤ max_line }
    ensures { IsLineResult P.performs performer.old number line.now
        result text.new.items performer.new }
{
    match read_delivery(alloc, line) {
        Err(_) => Err(PlayFault::OutOfMemory),
        Ok(None) => Err(PlayFault::Line { number }),
        Ok(Some(delivery)) => perform_delivery(performer, number, &delivery, text),
    }
}

// Performs the delivery of a line, and leaves its lines in `text`.
fn perform_delivery<P: Performer>(
    performer: &mut P,
    number: u32,
    delivery: &Delivery,
    text: &mut Vec<u8>,
) -> Result<(), PlayFault>
    ensures { (line : List ℕ) → meaning_of number line ≡ Ok delivery.now
        → IsLineResult P.performs performer.old number line result text.new.items performer.new }
{
    text.clear();
    match performer.perform(delivery, text) {
        Ok(()) => Ok(()),
        Err(PerformFault::Label) => Err(PlayFault::Line { number }),
        Err(PerformFault::OutOfMemory) => Err(PlayFault::OutOfMemory),
    }
}

// Calls the reader once more after the last line that a script may have. It fails if a byte is left.
fn expect_end<R: CountedRead>(reader: &mut R) -> Result<(), PlayFault>
    ensures ends { EndsThere (R.remaining reader.old) (R.remaining reader.new) result }
    ensures calls { R.calls reader.new ≤ R.calls reader.old + 1 }
    ensures failures { R.failures reader.new ≡ reader_failures result (R.failures reader.old) }
{
    match next_byte(reader) {
        Err(_) => Err(PlayFault::Read),
        Ok(None) => Ok(()),
        Ok(Some(_)) => Err(PlayFault::TooMuch),
    }
}
