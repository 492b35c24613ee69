//! A list that stores what is noted, or nothing.

ghost use Rattle.std.specs.Prelude.{◌≡◌, ◌+◌, ◌≤◌, ◌<◌, ◌^◌, ◌∷◌, [], ◌++◌, true, false, length, IsOk, OnOk};

use crate::OutOfMemory;
use std::alloc::Global;
use std::marker::Model;

/// A list that stores each item that is noted, or none at all.
#[derive(Drop)]
pub struct Notes<E: Drop> {
    items: Vec<E>,
    keeps: bool,
}

impl<E: Drop> Model for Notes<E> {
    ghost use Rattle.std.specs.Prelude.{◌≡◌, false, [], vec_len, vec_capacity};
    ghost use Rattle.radio_chronicle.specs.Notes.{NotesOf, remaining_places};

    ghost Value = { NotesOf E };

    ghost view = { λ n. record { keeps = n.keeps; items = n.items.items; room = remaining_places n.keeps (vec_len n.items) (vec_capacity n.items) } };

    ghost invariant = { λ n. n.keeps ≡ false → n.items.items ≡ [] };
}

impl<E: Drop> Notes<E> {
    /// Returns a list with no item yet, which stores items if it `keeps`. It takes no memory.
    pub fn new(alloc: Global, keeps: bool) -> Notes<E>
        ensures items { result.items ≡ [] }
        ensures keeps { result.keeps ≡ keeps }
    {
        Notes {
            items: Vec::new(alloc),
            keeps,
        }
    }

    /// Makes room for so many more items. `OutOfMemory` if memory was refused; that never comes if there is room already, or
    /// if nothing is stored. The items stay.
    pub fn reserve(&mut self, more: usize) -> Result<(), OutOfMemory>
        ensures ok { OnOk result (more ≤ self.new.room) }
        ensures frees { more ≤ self.old.room → IsOk result }
        // whatever it answers, there is no less room
        ensures grows { self.old.room ≤ self.new.room }
        ensures most { self.new.room < 2 ^ 64 }
        ensures same { (self.new.items ≡ self.old.items) × (self.new.keeps ≡ self.old.keeps) }
    {
        if self.keeps {
            self.items.reserve(more)
        } else {
            Ok(())
        }
    }

    /// Notes an item, for which there is room.
    // rule: Receipts
    pub fn note(&mut self, item: E)
        requires { 0 < self.old.room }
        ensures kept { self.old.keeps ≡ true → self.new.items ≡ self.old.items ++ item ∷ [] }
        ensures unkept { self.old.keeps ≡ false → self.new.items ≡ self.old.items }
        ensures room { self.old.room ≤ self.new.room + 1 }
        ensures keeps { self.new.keeps ≡ self.old.keeps }
    {
        if self.keeps {
            self.items.push_reserved(item);
        } else {
            drop(item);
        }
    }

    /// Returns how many items are stored.
    // rule: Receipts
    pub fn len(&self) -> usize
        ensures { result ≡ length self.now.items }
    {
        self.items.len()
    }

    /// Returns the items, in the order in which they were noted.
    pub fn into_items(self) -> Vec<E>
        ensures { result.items ≡ self.items }
    {
        let Notes { items, keeps: _ } = self;
        items
    }
}
