//! A request, as far as its line has not taken it.

ghost use Rattle.std.specs.Prelude.{◌≡◌, ◌≤◌, ◌<◌, drop, length};
ghost use Rattle.radio_masters.specs.Pulls.{HasBorne, FrontIsTaken};

use radio_connections::{Line, Sent};
use std::marker::Model;

/// The bytes of a request that are still to be written. In contracts they are the list of these bytes.
#[derive(Drop)]
pub(crate) struct Asking {
    text: Vec<u8>,
    /// How many of the bytes were written.
    start: usize,
}

impl Model for Asking {
    ghost use Rattle.std.specs.Prelude.{◌≤◌, List, ℕ, drop, vec_len};

    ghost Value = { List ℕ };

    ghost view = { λ a. drop a.start a.text.items };

    ghost invariant = { λ a. a.start ≤ vec_len a.text };
}

impl Asking {
    /// This request, of which nothing was written.
    pub(crate) fn new(text: Vec<u8>) -> Asking
        ensures { result ≡ text.items }
    {
        Asking { text, start: 0 }
    }

    /// The bytes.
    fn rest(&self) -> &[u8]
        ensures { result.now ≡ self.now }
    {
        &self.text.as_slice()[self.start..]
    }

    /// So many were written.
    fn take_off(&mut self, count: usize)
        requires { count ≤ length self.old }
        ensures { self.new ≡ drop count self.old }
    {
        self.start += count;
    }

    /// Writes once what the line takes of it, if something is left. Whether the line has not failed.
    pub(crate) fn write<L: Line>(&mut self, line: &mut L) -> bool
        ensures written { FrontIsTaken self.old (L.taken line.old) self.new (L.taken line.new) }
        ensures given { L.given line.new ≡ L.given line.old }
        ensures borne { HasBorne result (L.calls line.old) (L.calls line.new) }
    {
        if self.rest().is_empty() {
            return true;
        }
        self.write_once(line)
    }

    fn write_once<L: Line>(&mut self, line: &mut L) -> bool
        requires { 0 < length self.old }
        ensures written { FrontIsTaken self.old (L.taken line.old) self.new (L.taken line.new) }
        ensures given { L.given line.new ≡ L.given line.old }
        ensures borne { HasBorne result (L.calls line.old) (L.calls line.new) }
    {
        match line.write(self.rest()) {
            Sent::Took(count) => {
                self.take_off(count);
                true
            }
            Sent::Nothing => true,
            Sent::Fault => false,
        }
    }
}
