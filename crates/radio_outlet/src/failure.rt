//! What a failed write means.

ghost use Rattle.std.specs.Prelude.{◌≡◌};
ghost use Rattle.radio_outlet.specs.Failures.{means};

/// The system's codes (Linux, `errno(3)`).
const INTERRUPTED: u32 = 4;

const BAD_DESCRIPTOR: u32 = 9;

const WOULD_BLOCK: u32 = 11;

const BROKEN_PIPE: u32 = 32;

/// What a failed write means for those that follow.
#[derive(Clone, Copy, PartialEq, Eq)]
pub enum Failure {
    /// The stream takes nothing at this moment.
    Later,
    /// Something is wrong that may pass: a full disk, a limit, a fault of the device.
    Failed,
    /// Nothing can ever be written: the descriptor, or the pipe at its other end, is closed.
    Closed,
}

/// Returns what the system's code of a failed write means. An error without a code may pass.
// rule: Log failures
pub fn failure_of(code: Option<u32>) -> Failure
    ensures { result ≡ means code }
{
    let Some(code) = code else {
        return Failure::Failed;
    };
    if code == INTERRUPTED || code == WOULD_BLOCK {
        Failure::Later
    } else if code == BAD_DESCRIPTOR || code == BROKEN_PIPE {
        Failure::Closed
    } else {
        Failure::Failed
    }
}
