//! Why a body is refused.
ghost use Rattle.std.specs.Prelude.{◌≡◌};

use crate::OutOfMemory;
use thiserror::Error;

/// Why a feed has no answer. After any of them the body answers `Failed` to each further feed.
#[derive(Clone, Copy, Debug, PartialEq, Eq, Error)]
pub enum BodyFault {
    /// A byte came that no chunked body has there (RFC 9112, section 7.1), or a chunk line of 256 bytes has not
    /// ended, or trailer lines pass 4096 bytes.
    #[error("bad chunk")]
    BadChunk,
    /// Bytes came after the body's end.
    #[error("bytes past the end")]
    PastEnd,
    /// There was no memory for the data. The piece is lost.
    #[error("out of memory")]
    OutOfMemory,
    /// An earlier feed answered a fault.
    #[error("failed before")]
    Failed,
}

impl From<OutOfMemory> for BodyFault {
    ghost use Rattle.radio_source.specs.declared.fault.BodyFault.TheVariants.{OutOfMemory as NoMemory};

    ghost from_gives = { λ _ fault. fault ≡ NoMemory };

    fn from(_error: OutOfMemory) -> BodyFault {
        BodyFault::OutOfMemory
    }
}
