//! One call of a stream that never waits, and its result.

ghost use Rattle.std.specs.Prelude.{◌≡◌};
ghost use Rattle.std.specs.IoError.{error_kind};
ghost use Rattle.radio_lines.specs.Hitches.{IsReadyToRead, IsReadyToWrite, hitch_of, ready_to_read, ready_to_write, received_at, sent_at};
ghost use Rattle.radio_lines.specs.Streams.{IsGivenBy, IsTakenBy};

use crate::ready::Ready;
use mio::net::TcpStream;
use radio_connections::{Received, Sent};
use std::io::{self, ErrorKind, Read, Write};
use std::net::Shutdown;

/// A stream whose writing side can be shut.
pub trait Shut {
    /// Nothing more is written.
    fn shut(&self);
}

impl Shut for TcpStream {
    fn shut(&self) {
        // A socket that is closed already needs no notice.
        let _ = self.shutdown(Shutdown::Write);
    }
}

/// Why a call of a stream did nothing.
#[derive(Clone, Copy, Debug, PartialEq, Eq)]
pub(crate) enum Hitch {
    /// It would have waited.
    Waits,
    /// The system broke it off; the next one may succeed.
    BrokenOff,
    /// The stream has failed.
    Failed,
}

/// Returns why a call did nothing whose fault is of this kind.
fn hitch_of(kind: ErrorKind) -> Hitch
    ensures { result ≡ hitch_of kind }
{
    match kind {
        ErrorKind::WouldBlock => Hitch::Waits,
        ErrorKind::Interrupted => Hitch::BrokenOff,
        _ => Hitch::Failed,
    }
}

/// Returns why a call did nothing that has ended with this fault. Few calls do, so it is a function of its own.
#[cold]
#[inline(never)]
fn hitch_at(error: io::Error) -> Hitch
    ensures { result ≡ hitch_of (error_kind error) }
{
    hitch_of(error.kind())
}

impl Hitch {
    /// Returns what a line answers to a read that did nothing.
    fn received(self) -> Received
        ensures { result ≡ received_at self }
    {
        match self {
            Hitch::Waits | Hitch::BrokenOff => Received::Nothing,
            Hitch::Failed => Received::Fault,
        }
    }

    /// Returns what a line answers to a write that did nothing.
    fn sent(self) -> Sent
        ensures { result ≡ sent_at self }
    {
        match self {
            Hitch::Waits | Hitch::BrokenOff => Sent::Nothing,
            Hitch::Failed => Sent::Fault,
        }
    }

    /// Returns what a socket is ready for once a read did nothing.
    fn after_read(self, ready: Ready) -> Ready
        ensures { result ≡ ready_to_read self ready }
    {
        match self {
            Hitch::Waits => ready.without_bytes(),
            Hitch::BrokenOff | Hitch::Failed => ready,
        }
    }

    /// Returns what a socket is ready for once a write did nothing at `ms`, in milliseconds.
    fn after_write(self, ready: Ready, ms: u64) -> Ready
        ensures { result ≡ ready_to_write self ms ready }
    {
        match self {
            Hitch::Waits => ready.without_room(ms),
            Hitch::BrokenOff | Hitch::Failed => ready,
        }
    }
}

/// Reads once: what the stream gave by that call. Where it would have waited, that is noted.
pub(crate) fn read_once<S: Read>(stream: &mut S, buffer: &mut [u8], ready: &mut Ready) -> Received
    ensures stream { IsGivenBy (S.remaining stream.old) (S.remaining stream.new) buffer.new result }
    ensures ready { IsReadyToRead result ready.old ready.new }
{
    match stream.read(buffer) {
        Ok(0) => Received::Closed,
        Ok(count) => Received::Bytes(count),
        Err(error) => {
            let hitch = hitch_at(error);
            *ready = hitch.after_read(*ready);
            hitch.received()
        }
    }
}

/// Writes once, at this moment: what the stream took by that call, from the front. Where it would
/// have waited, that is noted.
// rule: Full sockets
pub(crate) fn write_once<S: Write>(stream: &mut S, bytes: &[u8], ready: &mut Ready, ms: u64) -> Sent
    ensures stream { IsTakenBy (S.contents stream.old) (S.contents stream.new) bytes.now result }
    ensures ready { IsReadyToWrite ms result ready.old ready.new }
{
    match stream.write(bytes) {
        Ok(0) => Sent::Nothing,
        Ok(count) => Sent::Took(count),
        Err(error) => {
            let hitch = hitch_at(error);
            *ready = hitch.after_write(*ready, ms);
            hitch.sent()
        }
    }
}
