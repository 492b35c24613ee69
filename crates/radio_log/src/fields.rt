//! A line in the making, to which fields are added.
ghost use Rattle.std.specs.Prelude.{◌≡◌, ◌++◌, codes, decimal, IfOk, OnOk};
ghost use Rattle.radio_addr.specs.Writing.{written};
ghost use Rattle.radio_log.specs.Lines.{spaced, field_word};

use crate::shown::{push_count, push_shown};
use crate::{OutOfMemory, QuotedText};
use radio_addr::Peer;
use std::alloc::Global;
use std::fmt::Write;
use std::marker::Model;

/// How many bytes an address has at most: eight groups of IPv6, with colons between them.
const LONGEST_ADDRESS: usize = 39;

/// A line in the making. In contracts it is its bytes.
#[derive(Drop)]
pub(crate) struct Fields {
    alloc: Global,
    bytes: Vec<u8>,
}

impl Model for Fields {
    ghost use Rattle.std.specs.Prelude.{ℕ, List};

    ghost Value = { List ℕ };

    ghost view = { λ fields. fields.bytes.items };
}

impl Fields {
    /// Behind these bytes.
    pub(crate) fn behind(alloc: Global, bytes: Vec<u8>) -> Fields
        ensures { result ≡ bytes.items }
    {
        Fields { alloc, bytes }
    }

    /// The line with its end.
    pub(crate) fn into_line(self) -> Result<Vec<u8>, OutOfMemory>
        ensures { IfOk result (λ bytes. bytes.items ≡ self ++ codes "\n") }
    {
        let mut bytes = self.bytes;
        bytes.push(b'\n')?;
        Ok(bytes)
    }

    /// Adds the first word of a fact, unchanged.
    #[tactic(auto, unfolding(crate::specs::Lines::spaced))]
    pub(crate) fn put_kind(&mut self, kind: &str) -> Result<(), OutOfMemory>
        ensures { OnOk result (self.new ≡ self.old ++ spaced kind.now) }
    {
        self.bytes.push(b' ')?;
        self.bytes.extend_from_slice(kind.as_bytes())
    }

    /// Adds the name of a field, behind a space, and `=`.
    #[inline(always)]
    fn put_name(&mut self, name: &str) -> Result<(), OutOfMemory>
        ensures { OnOk result (self.new ≡ self.old ++ codes " " ++ name.now ++ codes "=") }
    {
        self.bytes.push(b' ')?;
        self.bytes.extend_from_slice(name.as_bytes())?;
        self.bytes.push(b'=')?;
        Ok(())
    }

    /// Adds a field whose value is these bytes.
    #[tactic(auto, unfolding(crate::specs::Lines::spaced, crate::specs::Lines::field_word))]
    fn put(&mut self, name: &str, value: &[u8]) -> Result<(), OutOfMemory>
        ensures { OnOk result (self.new ≡ self.old ++ spaced (field_word (name.now, value.now))) }
    {
        self.put_name(name)?;
        push_shown(&mut self.bytes, value)
    }

    /// Adds a text.
    pub(crate) fn put_text(&mut self, name: &str, text: &QuotedText<'_>) -> Result<(), OutOfMemory>
        ensures { OnOk result (self.new ≡ self.old ++ spaced (field_word (name.now, text.now))) }
    {
        self.put(name, text.as_bytes())
    }

    /// Adds a number.
    #[tactic(auto, unfolding(crate::specs::Lines::spaced, crate::specs::Lines::field_word))]
    pub(crate) fn put_count(&mut self, name: &str, number: u64) -> Result<(), OutOfMemory>
        ensures { OnOk result (self.new ≡ self.old ++ spaced (field_word (name.now, decimal number))) }
    {
        self.put_name(name)?;
        push_count(&mut self.bytes, number)
    }

    /// Adds an address.
    pub(crate) fn put_peer(&mut self, name: &str, peer: Peer) -> Result<(), OutOfMemory>
        ensures { OnOk result (self.new ≡ self.old ++ spaced (field_word (name.now, written peer))) }
    {
        let mut address = String::with_capacity(self.alloc, LONGEST_ADDRESS)?;
        write!(address, "{peer}")?;
        self.put(name, address.as_bytes())
    }
}
