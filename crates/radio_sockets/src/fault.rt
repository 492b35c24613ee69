//! Why a server ends.

use std::{fmt, io};

/// Why nothing was bound.
#[derive(Debug, Drop)]
pub enum BindFault {
    /// The address is no IP address.
    NoAddress,
    /// The system refuses the address and the port, for this reason.
    Refused(io::Error),
    /// Memory was refused.
    OutOfMemory,
}

/// Why a server does not begin, or ends. Its text is the line on standard error, after `radiod: `.
#[derive(Clone, Copy, Debug, PartialEq, Eq)]
pub enum ServeFault {
    /// A hundred connections in a row could not be accepted, or the system no longer reports what is
    /// ready.
    Accept,
    /// Memory was refused before the server began.
    OutOfMemory,
}

impl fmt::Display for ServeFault {
    ghost use Rattle.std.specs.Prelude.{Some};
    ghost use Rattle.radio_sockets.specs.Faults.{serve_fault_text};

    ghost output = { λ fault. Some (serve_fault_text fault) };

    fn fmt<W: fmt::Write>(&self, f: &mut fmt::Formatter<W>) -> fmt::Result {
        f.write_str(match self {
            ServeFault::Accept => "accept fault",
            ServeFault::OutOfMemory => "out of memory",
        })
    }
}
