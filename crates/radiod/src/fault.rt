ghost use Rattle.std.specs.Prelude.{◌≡◌};
ghost use Rattle.radiod.specs.FaultLines.{exit_status};

use radio_floor::PlayFault;
use radio_startup::FileFault;
use radio_threads::ServeFault;
use std::{fmt, io};

/// Why `radiod` ends. Its text is the line on standard error, after `radiod: `.
#[derive(Drop)]
pub enum Fault {
    /// The words are none that the program knows.
    Usage,
    /// The settings file, or one that it names, is not taken.
    File(FileFault),
    /// The script was not played to its end.
    Play(PlayFault),
    /// This address, with its port, cannot be bound.
    CannotBind { address: String, reason: NotBound },
    /// The server did not begin, or has ended.
    Serve(ServeFault),
    /// There are warnings, which a strict check does not let through.
    Warnings,
    /// Memory was refused.
    OutOfMemory,
}

/// Why an address cannot be bound.
#[derive(Drop)]
pub enum NotBound {
    /// It is no IP address.
    NoAddress,
    /// The system refuses it.
    Refused(io::Error),
}

impl Fault {
    /// The status with which the program ends: 2 for its words, 3 for the settings and the files
    /// that they name, and else 1.
    // rule: Fault of a call
    pub fn status(&self) -> u8
        ensures { result ≡ exit_status self.now }
    {
        match self {
            Fault::Usage => 2,
            Fault::File(fault) => fault.status(),
            Fault::Warnings => 3,
            Fault::Play(_) | Fault::CannotBind { .. } | Fault::Serve(_) | Fault::OutOfMemory => 1,
        }
    }
}

impl fmt::Display for Fault {
    ghost use Rattle.std.specs.Prelude.{Some};
    ghost use Rattle.radiod.specs.FaultLines.{fault_line};

    ghost output = { λ fault. Some (fault_line fault) };

    fn fmt<W: fmt::Write>(&self, f: &mut fmt::Formatter<W>) -> fmt::Result {
        match self {
            Fault::Usage => f.write_str("usage: radiod play SETTINGS | radiod serve SETTINGS"),
            Fault::File(fault) => write!(f, "{fault}"),
            Fault::Play(fault) => write!(f, "{fault}"),
            Fault::CannotBind { .. } => f.write_str("cannot bind"),
            Fault::Serve(fault) => write!(f, "{fault}"),
            Fault::Warnings => f.write_str("warnings"),
            Fault::OutOfMemory => f.write_str("out of memory"),
        }
    }
}
