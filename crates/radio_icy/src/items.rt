//! What is taken out of a woven stream: runs of sound, and the texts between them.
ghost use Rattle.std.specs.Prelude.{◌≡◌, ◌+◌, [], ◌∷◌, ◌++◌, ◌==◌, length, map, IfOk, OnOk};
ghost use Rattle.std.specs.List.{suffix_len};
ghost use Rattle.radio_icy.specs.Unweaving.{SoundByte, WholeText, without_padding};

use crate::OutOfMemory;
use std::alloc::Global;
use std::marker::Model;
use std::mem;

/// A part of a woven stream.
#[derive(Drop)]
pub enum Item {
    /// A run of sound, of one byte at least.
    Sound(Vec<u8>),
    /// The text of a metadata block, without the zero bytes at its end.
    Text(Vec<u8>),
}

/// The items of one call, while they are gathered.
#[derive(Drop)]
pub struct Items {
    alloc: Global,
    items: Vec<Item>,
    run: Vec<u8>,
}

impl Model for Items {
    ghost use Rattle.std.specs.Prelude.{List, ◌++◌, map};
    ghost use Rattle.radio_icy.specs.Unweaving.{StreamItem, SoundByte};

    ghost Value = { List StreamItem };

    ghost use Rattle.radio_icy.specs.Items.{atoms_of, AreRuns, EndsInText};

    ghost view = { λ a. atoms_of a.items.items ++ map (λ b. SoundByte b) a.run.items };

    ghost invariant = { λ a. AreRuns a.items.items × EndsInText a.items.items };
}

impl Items {
    ghost use Rattle.radio_icy.specs.Items.{atoms_of, AreRuns};

    /// No items yet.
    pub fn new(alloc: Global) -> Items
        ensures { result ≡ [] }
    {
        Items {
            alloc,
            items: Vec::new(alloc),
            run: Vec::new(alloc),
        }
    }

    /// Adds sound, to the run that the items end in.
    pub fn add_sound(&mut self, sound: &[u8]) -> Result<(), OutOfMemory>
        ensures { OnOk result (self.new ≡ self.old ++ map (λ b. SoundByte b) sound.now) }
    {
        self.run.extend_from_slice(sound)
    }

    /// Adds the text of a block whose bytes are those of `begun` and then those of `end`.
    pub fn add_text(&mut self, begun: &[u8], end: &[u8]) -> Result<(), OutOfMemory>
        ensures { let text = without_padding (begun.now ++ end.now) in
            OnOk result (self.new ≡ self.old ++ WholeText text ∷ []) }
    {
        let text = unpadded_text(self.alloc, begun, end)?;
        self.items.reserve(2)?;
        if !self.run.is_empty() {
            let run = mem::replace(&mut self.run, Vec::new(self.alloc));
            self.items.push(Item::Sound(run))?;
        }
        self.items.push(Item::Text(text))?;
        Ok(())
    }

    /// The items, the last run with them.
    pub fn into_items(self) -> Result<Vec<Item>, OutOfMemory>
        ensures atoms { IfOk result (λ items. atoms_of items.items ≡ self) }
        ensures runs { IfOk result (λ items. AreRuns items.items) }
    {
        let Items { items, run, .. } = self;
        let mut items = items;
        if run.is_empty() {
            return Ok(items);
        }
        items.push(Item::Sound(run))?;
        Ok(items)
    }
}

fn unpadded_text(alloc: Global, begun: &[u8], end: &[u8]) -> Result<Vec<u8>, OutOfMemory>
    ensures { IfOk result (λ text. text.items ≡ without_padding (begun.now ++ end.now)) }
{
    let mut text = Vec::from_slice(alloc, begun)?;
    text.extend_from_slice(end)?;
    text.truncate(unpadded_len(text.as_slice()));
    Ok(text)
}

fn unpadded_len(text: &[u8]) -> usize
    ensures { result + suffix_len (λ b. b == 0) text.now ≡ length text.now }
{
    let mut n = text.len();
    while n > 0 && text[n - 1] == 0 {
        n -= 1;
    }
    n
}
