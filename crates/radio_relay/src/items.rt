//! The items of one feed of a pull, while they are gathered.
ghost use Rattle.std.specs.Prelude.{◌≡◌, ◌++◌, map, Some, OnOk, IfOk};
ghost use Rattle.radio_icy.specs.Items.{atoms_of, atoms_of_item};
ghost use Rattle.radio_icy.specs.Titles.{title_of};
ghost use Rattle.radio_relay.specs.Pulled.{ShownPart, SoundPart, title_parts, parts_heard};
ghost use Rattle.radio_relay.specs.Items.{nothing_gathered, all_items, run_ended, with_gathered_part, with_parts};
ghost use Rattle.radio_relay.specs.declared.items.PullItem.TheVariants.{Sound as SoundItem};

use crate::OutOfMemory;
use radio_blocks::{Block, Gathering};
use radio_icy::{Item, title_of};
use radio_values::{Shown, Title};
use std::alloc::Global;
use std::marker::Model;
use std::mem;

/// What a feed of a pull brings.
#[derive(Drop)]
pub enum PullItem {
    /// The head has come, and shows this of the stream. It comes once, before all others.
    Up(Shown),
    /// Sound, in order. Each run of it between two titles is cut every 4096 bytes by itself, as far as it has come in
    /// one feed.
    Sound(Block),
    /// A title that the master sends, cleaned.
    Title(Title),
}

/// Items in order, and the sound after them.
#[derive(Drop)]
pub(crate) struct PulledItems {
    alloc: Global,
    /// The most bytes of sound that a run may have.
    expected: usize,
    complete: Vec<PullItem>,
    run: Gathering,
}

impl Model for PulledItems {
    ghost use Rattle.radio_relay.specs.Items.{Gathered};

    ghost Value = { Gathered };

    ghost view = { λ i. record { complete = i.complete.items; run = i.run } };
}

impl PulledItems {
    /// No items yet; at most so many bytes of sound are expected, and room is made for no more.
    pub(crate) fn new(alloc: Global, expected: usize) -> PulledItems
        ensures { result ≡ nothing_gathered }
    {
        PulledItems {
            alloc,
            expected,
            complete: Vec::new(alloc),
            run: Gathering::new(alloc, expected),
        }
    }

    /// Adds what a head shows. Where a call is refused memory, the items are of no use.
    pub(crate) fn add_shown(&mut self, shown: Shown) -> Result<(), OutOfMemory>
        ensures { OnOk result (self.new ≡ with_gathered_part self.old (ShownPart shown)) }
    {
        self.end_run()?;
        self.complete.push(PullItem::Up(shown))?;
        Ok(())
    }

    /// Adds sound.
    #[tactic(auto, using(crate::proofs::ItemsLemmas::with_parts_of_sound))]
    pub(crate) fn add_sound(&mut self, sound: &[u8]) -> Result<(), OutOfMemory>
        ensures { OnOk result (self.new ≡ with_parts self.old (map (λ b. SoundPart b) sound.now)) }
    {
        self.run.add(sound)
    }

    /// Adds what is taken out of a woven stream.
    pub(crate) fn add_heard(&mut self, heard: Vec<Item>) -> Result<(), OutOfMemory>
        ensures { OnOk result (self.new ≡ with_parts self.old (parts_heard (atoms_of heard.items))) }
    {
        for item in heard {
            self.add_item(item)?;
        }
        Ok(())
    }

    #[tactic(auto, using(crate::proofs::ItemsLemmas::parts_heard_rules))]
    fn add_item(&mut self, item: Item) -> Result<(), OutOfMemory>
        ensures { OnOk result (self.new ≡ with_parts self.old (parts_heard (atoms_of_item item))) }
    {
        match item {
            Item::Sound(sound) => self.add_sound(sound.as_slice()),
            Item::Text(text) => self.add_text(text.as_slice()),
        }
    }

    /// Adds the title of a text, if it has one.
    fn add_text(&mut self, text: &[u8]) -> Result<(), OutOfMemory>
        ensures { OnOk result (self.new ≡ with_parts self.old (title_parts (title_of text.now))) }
    {
        match title_of(text) {
            Some(title) => self.add_title(title),
            None => Ok(()),
        }
    }

    fn add_title(&mut self, title: &[u8]) -> Result<(), OutOfMemory>
        ensures { OnOk result (self.new ≡ with_parts self.old (title_parts (Some title.now))) }
    {
        let title = Title::clean(self.alloc, title)?;
        self.end_run()?;
        self.complete.push(PullItem::Title(title))?;
        Ok(())
    }

    /// Cuts the last run into blocks.
    fn end_run(&mut self) -> Result<(), OutOfMemory>
        ensures { OnOk result (self.new ≡ run_ended self.old) }
    {
        let run = mem::replace(&mut self.run, Gathering::new(self.alloc, self.expected));
        push_blocks(run.into_blocks()?, &mut self.complete)
    }

    /// All items, the last run with them.
    pub(crate) fn into_items(self) -> Result<Vec<PullItem>, OutOfMemory>
        ensures { IfOk result (λ items. items.items ≡ all_items self) }
    {
        let PulledItems { complete, run, .. } = self;
        let mut items = complete;
        push_blocks(run.into_blocks()?, &mut items)?;
        Ok(items)
    }
}

/// Appends an item for each block.
fn push_blocks(blocks: Vec<Block>, items: &mut Vec<PullItem>) -> Result<(), OutOfMemory>
    ensures { OnOk result (items.new.items ≡ items.old.items ++ map SoundItem blocks.items) }
{
    for block in blocks {
        items.push(PullItem::Sound(block))?;
    }
    Ok(())
}
