//! A pull: what a master answers, taken piece by piece.
ghost use Rattle.std.specs.Prelude.{◌≡◌, ◌≢◌, ◌≤◌, [], drop, length, IfOk, IfErr, OnErr, Err};
ghost use Rattle.radio_relay.specs.Items.{GivesItems, Answers, all_items, with_parts, IsRefusedPull};
ghost use Rattle.radio_relay.specs.Pulled.{answer_pulled, stops, stream_parts, after_bytes};
ghost use Rattle.radio_relay.specs.declared.fault.PullFault.TheVariants.{OutOfMemory as NoMemory, Failed};
ghost use Rattle.radio_relay.specs.declared.pull.PullStage.TheVariants.{Head, Behind, Over};

use crate::PullFault;
use crate::answer::{interval_in, shown_by};
use crate::items::{PullItem, PulledItems};
use crate::stream::PulledStream;
use radio_blocks::laws::blocks_are_the_data;
use radio_heads::{Progress, ResponseHead, read_response_from};
use std::alloc::Global;
use std::marker::Model;
use std::mem;

/// The bytes of a head that has not ended.
#[derive(Drop)]
pub(crate) struct HeldHead {
    bytes: Vec<u8>,
}

impl Model for HeldHead {
    ghost use Rattle.std.specs.Prelude.{ℕ, List};
    ghost use Rattle.radio_heads.specs.Search.{HasNoEnd};

    ghost Value = { List ℕ };

    ghost view = { λ h. h.bytes.items };

    ghost invariant = { λ h. HasNoEnd h.bytes.items };
}

/// How far the answer has come.
#[derive(Drop)]
pub(crate) enum PullStage {
    /// Its head has not ended.
    Head(HeldHead),
    /// Its head has come, and this is the stream behind it.
    Behind(PulledStream),
    /// A feed answered a fault.
    Over,
}

/// What a master answers to the request for a mount, however it is cut: a head, and the stream behind it.
///
/// In contracts it is its stage: the bytes of a head that has not ended, the stream behind one, or that it is over.
pub struct Pull {
    alloc: Global,
    stage: PullStage,
}

impl Drop for Pull {
    fn drop(self) {
        let Pull { alloc: _, stage } = self;
        drop(stage);
    }
}

impl Model for Pull {
    ghost use Rattle.radio_relay.specs.declared.pull.PullStage.{PullStage};

    ghost Value = { PullStage };

    ghost view = { λ p. p.stage };
}

/// What a feed brings, and the stage after it.
struct Brought {
    items: Vec<PullItem>,
    stage: PullStage,
}

impl Pull {
    /// Returns a pull before the first byte of its answer. It keeps `alloc` for what comes.
    pub fn new(alloc: Global) -> Pull
        ensures { result ≡ Head [] }
    {
        Pull {
            alloc,
            stage: PullStage::Head(HeldHead {
                bytes: Vec::new(alloc),
            }),
        }
    }

    /// Takes the next bytes of the answer, and gives what they bring, in order.
    ///
    /// Errors, of which the first that applies comes as soon as the head has ended, or can be none any more:
    ///
    /// - `BadHead`: what has come is no head of an answer.
    /// - `Status`: the status is not 200.
    /// - `BadHead`: the head has a `Transfer-Encoding`.
    /// - `BadMetaint`: the head has an `icy-metaint` that is not a number from 1 to 16777216.
    ///
    /// `OutOfMemory` comes if memory was refused, and what the piece brings is lost. After any of these the pull
    /// keeps nothing, and each further feed answers `Failed`, also of an empty piece.
    // rule: Bad pull; Pulled stream
    pub fn feed(&mut self, bytes: &[u8]) -> Result<Vec<PullItem>, PullFault>
        ensures brings { IfOk result (λ items. GivesItems self.old bytes.now items.items self.new) }
        ensures fault { IfErr result (λ fault. fault ≢ NoMemory → IsRefusedPull self.old bytes.now fault) }
        // a fault ends the pull, and one that is over answers so
        ensures fails { OnErr result (self.new ≡ Over) }
        ensures failed { self.old ≡ Over → result ≡ Err Failed }
    {
        let stage = mem::replace(&mut self.stage, PullStage::Over);
        match brought_at(self.alloc, stage, bytes) {
            Ok(Brought { items, stage }) => {
                self.stage = stage;
                Ok(items)
            }
            Err(fault) => Err(fault),
        }
    }
}

fn brought_at(alloc: Global, stage: PullStage, bytes: &[u8]) -> Result<Brought, PullFault>
    ensures brings { IfOk result (λ brought. GivesItems stage bytes.now brought.items.items brought.stage) }
    ensures fault { IfErr result (λ fault. fault ≢ NoMemory → IsRefusedPull stage bytes.now fault) }
    ensures over { stage ≡ Over → result ≡ Err Failed }
{
    match stage {
        PullStage::Head(held) => read_head(alloc, held, bytes),
        PullStage::Behind(stream) => read_stream(
            PulledItems::new(alloc, bytes.len()),
            stream,
            bytes,
        ),
        PullStage::Over => Err(PullFault::Failed),
    }
}

/// Reads bytes of a head behind those that are held, and what follows it.
fn read_head(alloc: Global, held: HeldHead, bytes: &[u8]) -> Result<Brought, PullFault>
    ensures brings { IfOk result (λ brought. GivesItems (Head held) bytes.now brought.items.items brought.stage) }
    ensures fault { IfErr result (λ fault. fault ≢ NoMemory → IsRefusedPull (Head held) bytes.now fault) }
{
    blocks_are_the_data();
    let seen = held.bytes.len();
    let mut held = held.bytes;
    held.extend_from_slice(bytes)?;
    match read_response_from(held.as_slice(), seen) {
        Ok(Progress::More) => Ok(Brought {
            items: Vec::new(alloc),
            stage: PullStage::Head(HeldHead { bytes: held }),
        }),
        Ok(Progress::Whole(head, length)) => read_answer(alloc, &head, behind(&held, length)),
        Err(_) => Err(PullFault::BadHead),
    }
}

/// Returns the bytes after so many.
fn behind(bytes: &[u8], end: usize) -> &[u8]
    requires { end ≤ length bytes.now }
    ensures { result.now ≡ drop end bytes.now }
{
    &bytes[end..]
}

/// A whole head, and the bytes behind it.
fn read_answer(alloc: Global, head: &ResponseHead, rest: &[u8]) -> Result<Brought, PullFault>
    ensures brings { IfOk result (λ brought. Answers (answer_pulled head.now rest.now) brought.items.items brought.stage) }
    ensures fault { IfErr result (λ fault. fault ≢ NoMemory → answer_pulled head.now rest.now ≡ stops fault) }
{
    match interval_in(head) {
        Ok(interval) => {
            let mut items = PulledItems::new(alloc, rest.len());
            items.add_shown(shown_by(alloc, head)?)?;
            read_stream(items, PulledStream::new(alloc, interval), rest)
        }
        Err(fault) => Err(fault),
    }
}

/// Bytes of a stream, behind items that came before them.
fn read_stream(items: PulledItems, stream: PulledStream, bytes: &[u8]) -> Result<Brought, PullFault>
    ensures items { IfOk result (λ brought. brought.items.items ≡ all_items (with_parts items (stream_parts stream bytes.now))) }
    ensures stage { IfOk result (λ brought. brought.stage ≡ Behind (after_bytes stream bytes.now)) }
    ensures fault { IfErr result (λ fault. fault ≡ NoMemory) }
{
    let mut items = items;
    let mut stream = stream;
    stream.read(bytes, &mut items)?;
    Ok(Brought {
        items: items.into_items()?,
        stage: PullStage::Behind(stream),
    })
}
