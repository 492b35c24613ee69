//! Why a target asks for no command.
ghost use Rattle.std.specs.Prelude.{◌≡◌};

use crate::{CommandKind, OutOfMemory};
use radio_values::MountName;
use std::fmt;
use thiserror::Error;

/// Why a target asks for no command.
#[derive(Clone, Copy, PartialEq, Eq, Error)]
pub enum AdminFault {
    /// The path names no command.
    #[error("no command")]
    NoCommand,
    /// An argument of the command is absent, or is not of its form. The mount is the one that was named, if one was: by
    /// it a server knows whose pair may ask.
    #[error("missing argument of {0}")]
    MissingArgument(CommandKind, Option<MountName>),
    /// There was no memory. It says nothing of the target.
    #[error("out of memory")]
    OutOfMemory,
}

impl fmt::Debug for AdminFault {
    fn fmt<W: fmt::Write>(&self, f: &mut fmt::Formatter<W>) -> fmt::Result {
        fmt::Display::fmt(self, f)
    }
}
