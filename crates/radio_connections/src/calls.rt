//! How often a line was called, which only proofs read. It takes no memory.

ghost use Rattle.std.specs.Prelude.{◌≡◌, length};
ghost use Rattle.radio_connections.specs.Lines.{no_calls, calls_after_read, after_write};

use crate::history::History;
use crate::{Received, Sent};
use std::marker::Model;

/// The calls of a line: how often it was read and with how much room, and how often it was written to. Then how often
/// it has failed, and how often it has reported that its peer has closed. In contracts its value is these numbers.
#[derive(Drop)]
pub struct CallCount {
    reads: History,
    room: History,
    writes: History,
    faults: History,
    closings: History,
}

impl Model for CallCount {
    ghost use Rattle.std.specs.Prelude.{length};
    ghost use Rattle.radio_connections.specs.Lines.{Calls};

    ghost Value = { Calls };

    ghost view = { λ c. record {
      reads = length c.reads.items;
      room = length c.room.items;
      writes = length c.writes.items;
      faults = length c.faults.items;
      closings = length c.closings.items;
    } };
}

impl CallCount {
    /// It was not called yet.
    pub fn new() -> CallCount
        ensures { result ≡ no_calls }
    {
        CallCount {
            reads: History::new(),
            room: History::new(),
            writes: History::new(),
            faults: History::new(),
            closings: History::new(),
        }
    }

    /// It has answered so to a read into this buffer.
    pub fn count_read(&mut self, answer: Received, buffer: &[u8])
        ensures { self.new ≡ calls_after_read answer (length buffer.now) self.old }
    {
        self.reads.note(&[0]);
        self.room.note(buffer);
        match answer {
            Received::Fault => self.faults.note(&[0]),
            Received::Bytes(_) => (),
            Received::Nothing => (),
            Received::Closed => self.closings.note(&[0]),
        }
    }

    /// It has answered so to a write.
    pub fn count_write(&mut self, answer: Sent)
        ensures { self.new ≡ after_write answer self.old }
    {
        self.writes.note(&[0]);
        match answer {
            Sent::Fault => self.faults.note(&[0]),
            Sent::Took(_) => (),
            Sent::Nothing => (),
        }
    }
}
