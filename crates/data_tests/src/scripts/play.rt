//! Scripts played over devices. Scripts with faults and of the greatest lengths are end-to-end cases.

use super::devices::{Frail, Keeping};
use super::echo::Echo;
use radio_script::{Counted, PlayFault, Tally, play_with};
use std::alloc::Global;
use std::io::{Read, Write};

// The lines of a script, each with the lines that answer it.
const LINES: &[(&[u8], &[u8])] = &[
    (b"open 1 127.0.0.1\n", b""),
    (b"in 1 ab\\x00\n", b"out 1 ab\\x00\n"),
    (b"room 1 8\n", b""),
    (b"open 2 ::1\n", b""),
    (b"in 2 c\n", b"out 2 c\n"),
    (b"in 1 \n", b""),
    (b"end 1\n", b"shut 1 done\n"),
    (b"in 2 d", b"out 2 d\n"),
];

const SCRIPT: &[u8] =
    b"open 1 127.0.0.1\nin 1 ab\\x00\nroom 1 8\nopen 2 ::1\nin 2 c\nin 1 \nend 1\nin 2 d";

const TRANSCRIPT: &[u8] = b"out 1 ab\\x00\nout 2 c\nshut 1 done\nout 2 d\n";

// How a play ended, and how often the reader and the writer were called and how often they failed.
type Played = (Result<(), PlayFault>, (u64, u64), (u64, u64));

fn counts<D: Counted>(device: &D) -> (u64, u64) {
    (device.call_count(), device.failure_count())
}

fn play_over<R: Read + Drop, W: Write + Drop>(alloc: Global, script: R, writer: W) -> Played {
    let mut reader = Tally::new(script);
    let mut writer = Tally::new(writer);
    let ending = play_with(alloc, &mut Echo, &mut reader, &mut writer);
    (ending, counts(&reader), counts(&writer))
}

// Both devices move a byte a call and fail after so many sound calls. The play ends so, this much
// of the transcript is written, and the counts are those of the devices.
fn ends_as(alloc: Global, sound: (u64, u64), ending: Result<(), PlayFault>, length: usize) -> bool {
    let mut written = Vec::new(alloc);
    let mut reader = Frail::new(SCRIPT, sound.0);
    let mut writer = Frail::new(&mut written, sound.1);
    let played = play_over(alloc, &mut reader, &mut writer);
    let counted = (reader.calls, reader.failures);
    played == (ending, counted, (writer.calls, writer.failures))
        && TRANSCRIPT.get(..length) == Some(written.as_slice())
}

// At each call of the reader in its turn: the lines before were answered, and nothing else was.
// rule: Line of a script
#[test]
fn ends_with_the_readers_failure(rt: HostRuntime) {
    for sound in 0..=SCRIPT.len() {
        assert!(rt; ends_with_reader(rt.alloc(), sound));
    }
}

fn ends_with_reader(alloc: Global, sound: usize) -> bool {
    let sound_calls = (sound as u64, u64::MAX);
    ends_as(
        alloc,
        sound_calls,
        Err(PlayFault::Read),
        answered_before(sound),
    )
}

// How many bytes answer the lines that lie wholly within the first bytes of the script.
fn answered_before(bytes: usize) -> usize {
    let mut read = 0usize;
    let mut answered = 0usize;
    for (line, answer) in LINES {
        read = read.saturating_add(line.len());
        if read <= bytes && line.ends_with(b"\n") {
            answered = answered.saturating_add(answer.len());
        }
    }
    answered
}

// At each call of the writer in its turn: a front of the transcript was written; and where none fails, all of it.
#[test]
fn ends_with_the_writers_failure(rt: HostRuntime) {
    for sound in 0..=TRANSCRIPT.len() {
        assert!(rt; ends_with_writer(rt.alloc(), sound));
    }
}

fn ends_with_writer(alloc: Global, sound: usize) -> bool {
    let mut ending = Err(PlayFault::Write);
    if sound == TRANSCRIPT.len() {
        ending = Ok(());
    }
    ends_as(alloc, (u64::MAX, sound as u64), ending, sound)
}

// Over a writer that passes on what it is given when it is flushed, and not before.
fn play_kept<W: Write + Drop>(alloc: Global, device: W) -> Played {
    let kept = Vec::new(alloc);
    play_over(alloc, SCRIPT, Keeping { device, kept })
}

fn is_sent_on(alloc: Global) -> bool {
    let mut written = Vec::new(alloc);
    play_kept(alloc, &mut written).0.is_ok() && written.as_slice() == TRANSCRIPT
}

// All that was written is sent on.
#[test]
fn sends_on_what_the_writer_keeps_back(rt: HostRuntime) {
    assert!(rt; is_sent_on(rt.alloc()));
}
