//! What was written to a connection and its line has not taken.

ghost use Rattle.std.specs.Prelude.{◌≡◌, ◌≤◌, ◌++◌, [], true, drop, length, IfOk, OnErr};
ghost use Rattle.radio_session.specs.Conversation.{saying_now};
ghost use Rattle.radio_session.specs.Saying.{said};

use radio_events::Reply;
use radio_session::{OutOfMemory, Session, State};
use std::alloc::Global;
use std::marker::Model;
use std::mem;

/// How many bytes a memory has at most that is kept to be lent again.
const MOST_KEPT: usize = 16384;

/// Bytes that are still to be written. In contracts they are the list of these bytes.
pub(crate) struct Outgoing {
    alloc: Global,
    bytes: Vec<u8>,
    /// How many of the bytes were written.
    start: usize,
}

impl Drop for Outgoing {
    fn drop(self) {
        let Outgoing {
            alloc: _,
            bytes,
            start: _,
        } = self;
        drop(bytes);
    }
}

impl Model for Outgoing {
    ghost use Rattle.std.specs.Prelude.{◌≤◌, List, ℕ, drop, vec_len};

    ghost Value = { List ℕ };

    ghost view = { λ o. drop o.start o.bytes.items };

    ghost invariant = { λ o. o.start ≤ vec_len o.bytes };
}

impl Outgoing {
    /// Nothing is pending. It takes no memory.
    pub(crate) fn new(alloc: Global) -> Outgoing
        ensures { result ≡ [] }
    {
        Outgoing {
            alloc,
            bytes: Vec::new(alloc),
            start: 0,
        }
    }

    /// The bytes.
    pub(crate) fn rest(&self) -> &[u8]
        ensures { result.now ≡ self.now }
    {
        &self.bytes.as_slice()[self.start..]
    }

    /// So many were written.
    pub(crate) fn take_off(&mut self, count: usize)
        requires { count ≤ length self.old }
        ensures { self.new ≡ drop count self.old }
    {
        self.start += count;
        if self.start == self.bytes.len() {
            self.bytes.clear();
            self.start = 0;
        }
    }

    /// Takes the spare memory for what is written next, if nothing is pending.
    pub(crate) fn take_memory(&mut self, spare: &mut Vec<u8>)
        ensures { self.new ≡ self.old }
    {
        if self.bytes.is_empty() {
            spare.clear();
            mem::swap(&mut self.bytes, spare);
        }
    }

    /// Gives its memory back, if nothing is pending: as the spare, unless that would keep too much.
    pub(crate) fn give_memory_back(&mut self, spare: &mut Vec<u8>)
        ensures { self.new ≡ self.old }
    {
        if self.bytes.is_empty() && self.bytes.capacity() > 0 {
            let memory = mem::replace(&mut self.bytes, Vec::new(self.alloc));
            if memory.capacity() <= MOST_KEPT {
                *spare = memory;
            }
        }
    }

    /// Appends a reply to what is pending, by [`Session::tell_reply`]. `OutOfMemory` if memory was
    /// refused; nothing was appended then.
    pub(crate) fn append_reply(
        &mut self,
        session: &mut Session,
        reply: &Reply,
    ) -> Result<State, OutOfMemory>
        ensures bytes { IfOk result (λ _. self.new ≡ self.old ++ (said session.old.says reply.now).bytes) }
        ensures state { IfOk result (λ state. state ≡ (said session.old.says reply.now).state) }
        ensures says { IfOk result (λ _. session.new ≡ saying_now session.old (said session.old.says reply.now).says) }
        ensures silent { OnErr result (self.new ≡ self.old) }
        ensures fails { OnErr result (session.new.has_failed ≡ true) }
    {
        session.tell_reply(reply, &mut self.bytes)
    }
}
