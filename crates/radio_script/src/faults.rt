//! Why a script or a list of deliveries was not played to its end.

use std::{error, fmt};
use thiserror::Error;

/// Why a script was not played to its end.
///
/// `Display` writes the fault in words: `read fault`, `write fault`, `script line N`, `script too long`,
/// `out of memory`.
#[derive(Clone, Copy, Debug, PartialEq, Eq)]
pub enum PlayFault {
    /// The reader failed.
    Read,
    /// The writer failed.
    Write,
    /// The line of this number, counted from 1, is no delivery. Or it opens a label twice, names one that was not
    /// opened, or pulls for a mount that no relay feeds.
    Line { number: u32 },
    /// The script has more than 1,000,000 lines, or a line of more than 65,536 bytes.
    TooMuch,
    /// Memory ran out.
    OutOfMemory,
}

impl fmt::Display for PlayFault {
    ghost use Rattle.std.specs.Prelude.{Some};
    ghost use Rattle.radio_script.specs.Words.{play_fault_text};

    ghost output = { λ fault. Some (play_fault_text fault) };

    fn fmt<W: fmt::Write>(&self, f: &mut fmt::Formatter<W>) -> fmt::Result {
        match self {
            PlayFault::Read => f.write_str("read fault"),
            PlayFault::Write => f.write_str("write fault"),
            PlayFault::Line { number } => write!(f, "script line {number}"),
            PlayFault::TooMuch => f.write_str("script too long"),
            PlayFault::OutOfMemory => f.write_str("out of memory"),
        }
    }
}

impl error::Error for PlayFault {}

/// Why a list of deliveries was not performed to its end.
#[derive(Clone, Copy, Debug, PartialEq, Eq, Error)]
pub enum RunFault {
    /// The performer refuses the delivery of this number, counted from 1. It opens a label twice, names one that was
    /// not opened, or pulls for a mount that no relay feeds.
    #[error("delivery {number}")]
    Delivery { number: usize },
    /// Memory ran out.
    #[error("out of memory")]
    OutOfMemory,
}

/// Why a delivery was not performed.
#[derive(Clone, Copy, Debug, PartialEq, Eq, Error)]
pub enum PerformFault {
    /// The delivery opens a label twice, names one that was not opened, or pulls for a mount that no relay feeds.
    #[error("a label that was not opened, or was opened twice, or a mount that no relay feeds")]
    Label,
    /// Memory ran out.
    #[error("out of memory")]
    OutOfMemory,
}
