//! What a worker lends each connection that it serves.

use std::alloc::Global;

/// How many bytes are read from a line in a turn at most.
pub(crate) const READ_ROOM: usize = 16384;

/// The memory that a worker lends each connection in its turn: a buffer for the bytes that its line gives, and memory
/// for what is pending. Between turns the contents of both have no meaning.
pub struct Workspace {
    pub(crate) buffer: [u8; READ_ROOM],
    pub(crate) spare: Vec<u8>,
}

impl Drop for Workspace {
    fn drop(self) {
        let Workspace { buffer: _, spare } = self;
        drop(spare);
    }
}

impl Workspace {
    /// It takes no memory but its own; what is lent comes with what connections give back.
    pub fn new(alloc: Global) -> Workspace {
        Workspace {
            buffer: [0; READ_ROOM],
            spare: Vec::new(alloc),
        }
    }
}
