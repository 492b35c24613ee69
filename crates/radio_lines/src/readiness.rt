//! What the system has reported of sockets.

ghost use Rattle.std.specs.Prelude.{◌≡◌};
ghost use Rattle.radio_lines.specs.declared.ready.Ready.{Ready};
ghost use Rattle.radio_lines.specs.Ready.{flag_if, flags_of};

use crate::ready::Ready;
use std::sync::atomic::{AtomicU64, Ordering};

/// What each flag of a [`Ready`] adds to the number of all flags, if it is set.
const READABLE: u64 = 1;

const WRITABLE: u64 = 2;

const OVER: u64 = 4;

const PASSED_OVER: u64 = 8;

/// What a socket is ready for, as its line and the sockets of its thread share it: a [`Ready`], whose functions decide
/// what becomes of it. The system reports each change once. Only one thread uses it at a time.
#[derive(Drop)]
pub(crate) struct Readiness {
    flags: AtomicU64,
    read_from_ms: AtomicU64,
    write_from_ms: AtomicU64,
}

impl Readiness {
    /// Returns one that holds this.
    pub(crate) fn new(ready: Ready) -> Readiness {
        Readiness {
            flags: AtomicU64::new(flags_of(ready)),
            read_from_ms: AtomicU64::new(ready.read_from_ms),
            write_from_ms: AtomicU64::new(ready.write_from_ms),
        }
    }

    /// Returns whether the socket may have something to read.
    pub(crate) fn is_readable(&self) -> bool {
        is_readable_by(self.flags.load(Ordering::SeqCst))
    }

    /// Returns what the socket is ready for.
    pub(crate) fn load(&self) -> Ready {
        ready_of(
            self.flags.load(Ordering::SeqCst),
            self.read_from_ms.load(Ordering::SeqCst),
            self.write_from_ms.load(Ordering::SeqCst),
        )
    }

    /// Sets what the socket is ready for.
    pub(crate) fn store(&self, ready: Ready) {
        put(&self.flags, flags_of(ready));
        put(&self.read_from_ms, ready.read_from_ms);
        put(&self.write_from_ms, ready.write_from_ms);
    }
}

/// Returns the flags in one number.
fn flags_of(ready: Ready) -> u64
    ensures { result ≡ flags_of ready }
{
    flag_if(ready.is_readable, READABLE)
        + flag_if(ready.is_writable, WRITABLE)
        + flag_if(ready.is_over, OVER)
        + flag_if(ready.is_passed_over, PASSED_OVER)
}

/// Returns what a flag adds if it is set, else 0.
fn flag_if(is_set: bool, weight: u64) -> u64
    ensures { result ≡ flag_if is_set weight }
{
    if is_set { weight } else { 0 }
}

/// Returns whether a readiness with these flags may have something to read.
fn is_readable_by(flags: u64) -> bool
    ensures { (ready : Ready) → flags ≡ flags_of ready → result ≡ ready.is_readable }
{
    flags / READABLE % 2 == 1
}

/// Returns the readiness with these flags and moments, in milliseconds.
fn ready_of(flags: u64, read_from_ms: u64, write_from_ms: u64) -> Ready
    ensures flags { (ready : Ready) → flags ≡ flags_of ready → result ≡ record ready { read_from_ms = read_from_ms; write_from_ms = write_from_ms } }
{
    Ready {
        is_readable: is_readable_by(flags),
        is_writable: flags / WRITABLE % 2 == 1,
        is_over: flags / OVER % 2 == 1,
        is_passed_over: flags / PASSED_OVER % 2 == 1,
        read_from_ms,
        write_from_ms,
    }
}

/// Stores a number. A store costs much more than a load.
fn put(place: &AtomicU64, number: u64) {
    if place.load(Ordering::SeqCst) != number {
        place.store(number, Ordering::SeqCst);
    }
}
