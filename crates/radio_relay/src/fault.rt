//! Why a pull ends.
ghost use Rattle.std.specs.Prelude.{◌≡◌};

use crate::OutOfMemory;
use thiserror::Error;

/// Why a feed has no items. After any of them the pull answers `Failed` to each further feed.
#[derive(Clone, Copy, Debug, PartialEq, Eq, Error)]
pub enum PullFault {
    /// The master answers with this status (RFC 9110, section 15), which is not 200.
    #[error("status {0}")]
    Status(u16),
    /// What comes is no head of an answer (RFC 9112, section 4), or the head has a `Transfer-Encoding`.
    #[error("bad head")]
    BadHead,
    /// `icy-metaint` is not a number from 1 to 16777216.
    #[error("bad metadata interval")]
    BadMetaint,
    /// An earlier feed answered a fault.
    #[error("failed before")]
    Failed,
    /// There was no memory for what came. The piece is lost.
    #[error("out of memory")]
    OutOfMemory,
}

impl From<OutOfMemory> for PullFault {
    ghost use Rattle.radio_relay.specs.declared.fault.PullFault.TheVariants.{OutOfMemory as NoMemory};

    ghost from_gives = { λ _ fault. fault ≡ NoMemory };

    fn from(_error: OutOfMemory) -> PullFault {
        PullFault::OutOfMemory
    }
}
