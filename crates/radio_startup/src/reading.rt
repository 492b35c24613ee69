//! Reading the files of a station.

ghost use Rattle.std.specs.Prelude.{ℕ, List, IfErr, IfOk};
ghost use Rattle.radio_startup.specs.Unread.{IsUnread};

use crate::fault::FileFault;
use std::alloc::{AllocGlobal, Global};
use std::fs::Files;
use std::io::ErrorKind;
use std::{fs, io};

/// Reads the files of a station.
pub trait ReadsFiles {
    // a file of this path holds these bytes
    ghost holds: { Self → List ℕ → List ℕ → Type 0 };

    /// Returns the allocator from which memory comes.
    fn alloc(&self) -> Global;

    /// Returns all of the file of this path. The fault is that it cannot be read, or `OutOfMemory`.
    fn read(&self, path: &str) -> Result<Vec<u8>, FileFault>
        ensures bytes { IfOk result (λ bytes. holds self.now path.now bytes.items) }
        ensures fault { IfErr result (λ fault. IsUnread path.now fault) };
}

/// The files of the system. No contract says what they hold.
#[derive(Drop)]
pub struct SystemFiles<'a, R: Files + AllocGlobal> {
    rt: &'a R,
}

impl<'a, R: Files + AllocGlobal> SystemFiles<'a, R> {
    /// Returns the files of the system, with the memory of this runtime.
    pub fn new(rt: &'a R) -> SystemFiles<'a, R> {
        SystemFiles { rt }
    }
}

impl<'a, R: Files + AllocGlobal> ReadsFiles for SystemFiles<'a, R> {
    ghost holds = { λ _ _ _. Unit {0} };

    fn alloc(&self) -> Global {
        self.rt.alloc()
    }

    /// Returns all of the file of this path. Want of memory is not reported as a file that cannot be
    /// read.
    fn read(&self, path: &str) -> Result<Vec<u8>, FileFault>
        ensures bytes { IfOk result (λ _. Unit {0}) }
        ensures fault { IfErr result (λ fault. IsUnread path.now fault) }
    {
        match fs::read(self.rt, path) {
            Ok(bytes) => Ok(bytes),
            Err(error) if error.kind() == ErrorKind::OutOfMemory => Err(FileFault::OutOfMemory),
            Err(error) => Err(unreadable(self.rt.alloc(), path, error)),
        }
    }
}

/// The file of this path cannot be read, for this reason. `OutOfMemory` if memory is refused for the path.
fn unreadable(alloc: Global, path: &str, error: io::Error) -> FileFault
    ensures { IsUnread path.now result }
{
    match String::from_str(alloc, path) {
        Ok(path) => FileFault::CannotRead { path, error },
        Err(_) => FileFault::OutOfMemory,
    }
}
