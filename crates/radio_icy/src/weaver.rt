//! Sound in, sound with metadata blocks out.
ghost use Rattle.std.specs.Prelude.{◌≡◌, ◌+◌, ◌<◌, ◌≤◌, ◌++◌, length, take, vec_len, IfOk, IfSome, OnOk, OnErr};
ghost use Rattle.std.specs.Option.{option_copied, option_map};
ghost use Rattle.radio_icy.specs.Block.{news_of};
ghost use Rattle.radio_icy.specs.Weaving.{new_weaving, from_place, woven, after_weaving};
ghost use Rattle.radio_values.specs.Limits.{max_title};

use crate::block::{UNIT, append_block};
use crate::texts::copy_of;
use crate::{MAX_TITLE, OutOfMemory};
use std::alloc::Global;
use std::marker::Model;

/// Weaves the titles of a stream into its sound, for one listener (ICY convention: `icy-metaint`, `StreamTitle`).
///
/// A metadata block follows each interval of sound. It carries the stream's title, if there is one that differs from
/// the last one sent through this weaver, or none was sent; else it is one zero byte. The count of the interval goes on
/// from call to call.
pub struct Weaver {
    alloc: Global,
    /// Bytes of sound from one block to the next.
    interval: usize,
    /// Bytes of sound since the last block.
    place: usize,
    /// The last title sent.
    sent: Option<Vec<u8>>,
}

impl Drop for Weaver {
    fn drop(self) {
        let Weaver {
            alloc: _,
            interval: _,
            place: _,
            sent,
        } = self;
        drop(sent);
    }
}

impl Model for Weaver {
    ghost use Rattle.std.specs.Prelude.{◌<◌};
    ghost use Rattle.std.specs.Option.{option_map};
    ghost use Rattle.radio_icy.specs.Weaving.{Weaving};

    ghost Value = { Weaving };

    ghost view = { λ a. record { interval = a.interval; place = a.place; sent = option_map (λ v. v.items) a.sent } };

    ghost invariant = { λ a. a.place < a.interval };
}

impl Weaver {
    /// A weaver at the start of a stream with a block after each `interval` bytes of sound. It keeps `alloc` for the
    /// titles that it sends.
    pub fn new(alloc: Global, interval: usize) -> Weaver
        requires { 1 ≤ interval }
        ensures { result ≡ new_weaving interval }
    {
        Weaver {
            alloc,
            interval,
            place: 0,
            sent: None,
        }
    }

    /// Appends the bytes of `sound` to `out`, and the block of each interval that ends in them. `title` is the stream's
    /// title now, of at most [`MAX_TITLE`] bytes, or `None` if it has none.
    ///
    /// An `Err` means that memory ran out: the weaver and the bytes of `out` are then as they were.
    // rule: Metadata block
    pub fn weave(
        &mut self,
        sound: &[u8],
        title: Option<&[u8]>,
        out: &mut Vec<u8>,
    ) -> Result<(), OutOfMemory>
        requires { IfSome title (λ t. length t.now ≤ max_title) }
        ensures woven { let title_now = option_copied title.entry in
            OnOk result (out.new.items ≡ out.old.items ++ woven self.old title_now sound.now) }
        ensures after { let title_now = option_copied title.entry in
            OnOk result (self.new ≡ after_weaving self.old title_now sound.now) }

        // A refused call changes neither the weaver nor what was written.
        ensures err { OnErr result (self.new ≡ self.old) }
        ensures out_err { OnErr result (out.new.items ≡ out.old.items) }
    {
        if sound.len() < self.interval - self.place {
            out.extend_from_slice(sound)?;
            self.place += sound.len();
            return Ok(());
        }
        self.weave_blocks(sound, title, out)
    }

    // The same if a block is due. Only then is the title read. All room that is needed is reserved first.
    // rule: Metadata count
    fn weave_blocks(
        &mut self,
        sound: &[u8],
        title: Option<&[u8]>,
        out: &mut Vec<u8>,
    ) -> Result<(), OutOfMemory>
        requires due { self.old.interval ≤ self.old.place + length sound.now }
        requires fits { IfSome title (λ t. length t.now ≤ max_title) }
        ensures woven { let title_now = option_copied title.entry in
            OnOk result (out.new.items ≡ out.old.items ++ woven self.old title_now sound.now) }
        ensures after { let title_now = option_copied title.entry in
            OnOk result (self.new ≡ after_weaving self.old title_now sound.now) }
        ensures err { OnErr result (self.new ≡ self.old) }
        ensures out_err { OnErr result (out.new.items ≡ out.old.items) }
    {
        let news = self.news_of(title);
        let sent = self.sent_with_room(sound.len(), news, out)?;
        let start = out.len();
        match append_woven(self.interval, self.place, sound, news, out) {
            Ok(place) => {
                self.place = place;
                self.sent = sent.or(self.sent.take());
                Ok(())
            }
            Err(e) => {
                out.truncate(start);
                Err(e)
            }
        }
    }

    // A copy of the title that is to be sent, once there is room for all that is written for so much
    // sound.
    fn sent_with_room(
        &self,
        sound: usize,
        news: Option<&[u8]>,
        out: &mut Vec<u8>,
    ) -> Result<Option<Vec<u8>>, OutOfMemory>
        ensures sent { IfOk result (λ sent. option_map (λ v. v.items) sent ≡ option_copied news.entry) }
        ensures items { out.new.items ≡ out.old.items }
    {
        out.reserve(self.most_written(sound, news))?;
        copy_of(self.alloc, news)
    }

    // No fewer bytes than are written for so much sound: a byte for each block, and the text of the
    // first.
    fn most_written(&self, sound: usize, news: Option<&[u8]>) -> usize {
        let blocks = sound.saturating_add(self.place) / self.interval;
        let text = news.map_or(0, |title| title.len().saturating_add(2 * UNIT));
        sound.saturating_add(blocks).saturating_add(text)
    }

    // The title that the next block carries.
    // rule: Metadata block
    fn news_of<'t>(&self, title: Option<&'t [u8]>) -> Option<&'t [u8]>
        ensures { option_copied result ≡ news_of (option_copied title.entry) self.now.sent }
    {
        let title = title?;
        match &self.sent {
            Some(sent) if title == sent.as_slice() => None,
            _ => Some(title),
        }
    }
}

// Weaves from a place in the interval, with a title that is to be sent, and gives the place after it.
fn append_woven(
    interval: usize,
    place: usize,
    sound: &[u8],
    news: Option<&[u8]>,
    out: &mut Vec<u8>,
) -> Result<usize, OutOfMemory>
    requires inside { place < interval }
    requires fits { IfSome news (λ t. length t.now ≤ max_title) }
    ensures woven { let start = from_place interval place in
        OnOk result (out.new.items ≡ out.old.items ++ woven start (option_copied news.entry) sound.now) }
    ensures place { let start = from_place interval place in
        IfOk result (λ after. after ≡ (after_weaving start (option_copied news.entry) sound.now).place) }
    ensures err { OnErr result (take (vec_len out.old) out.new.items ≡ out.old.items) }
{
    let mut place = place;
    let mut news = news;
    let mut rest = sound;
    'intervals: while interval - place <= rest.len() {
        let (part, later) = rest.split_at(interval - place);
        out.extend_from_slice(part)?;
        append_block(news, out)?;
        place = 0;
        news = None;
        rest = later;
    }
    out.extend_from_slice(rest)?;
    Ok(place + rest.len())
}
