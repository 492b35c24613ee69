//! A source's body, fed piece by piece.
ghost use Rattle.std.specs.Prelude.{◌≡◌, ◌≢◌, true, false, ◌||◌, IfOk, IfErr, Err};
ghost use Rattle.radio_source.specs.Place.{plain_start, sized_start, chunked_start, after, has_ended};
ghost use Rattle.radio_source.specs.Feeding.{unfed, Brings, Refuses, answer_with, answer_to, after_feed};
ghost use Rattle.radio_source.specs.declared.fault.BodyFault.TheVariants.{OutOfMemory as NoMemory, Failed};

use crate::position::Position;
use crate::{BodyFault, OutOfMemory};
use radio_blocks::{Block, Gathering};
use std::alloc::Global;
use std::marker::Model;

/// The body of a source's request, however it is cut: plain, sized or chunked (RFC 9112, sections 6 and 7.1).
#[derive(Drop)]
pub struct Body {
    alloc: Global,
    position: Position,
    is_end_told: bool,
    has_failed: bool,
}

/// What one feed of a body brings.
#[derive(Drop)]
pub struct Blocks {
    /// All data of the feed in order, cut every 4096 bytes; the last block may be shorter.
    pub blocks: Vec<Block>,
    /// Whether the body is complete by this feed. It is true once, in the feed in which the end came.
    pub is_complete: bool,
}

impl Model for Body {
    ghost use Rattle.radio_source.specs.Feeding.{Feeding};

    ghost Value = { Feeding };

    ghost view = { λ b. record { place = b.position; is_end_told = b.is_end_told; has_failed = b.has_failed } };
}

impl Body {
    /// A body that is all data and has no end. It keeps `alloc` for its blocks, as each body does.
    pub fn plain(alloc: Global) -> Body
        ensures { result ≡ unfed plain_start }
    {
        Body::at(alloc, Position::plain())
    }

    /// A body of so many bytes (RFC 9112, section 6.2). One of no bytes is complete at its first feed.
    pub fn sized(alloc: Global, size: u64) -> Body
        ensures { result ≡ unfed (sized_start size) }
    {
        Body::at(alloc, Position::sized(size))
    }

    /// A body in chunks (RFC 9112, section 7.1).
    pub fn chunked(alloc: Global) -> Body
        ensures { result ≡ unfed chunked_start }
    {
        Body::at(alloc, Position::chunked())
    }

    fn at(alloc: Global, position: Position) -> Body
        ensures { result ≡ unfed position }
    {
        Body {
            alloc,
            position,
            is_end_told: false,
            has_failed: false,
        }
    }

    /// Takes the next piece of the body, and answers its data and whether the end came in it.
    ///
    /// A fault behind data or behind the end is returned by the next feed, also of an empty piece: `BadChunk` and
    /// `PastEnd` come if neither data nor the end came before them in the piece. `OutOfMemory` comes if memory was
    /// refused. After any of these the body returns `Failed`.
    // rule: Sized body; Chunk; Last chunk; Place of a fault; Feed
    #[tactic(auto, unfolding(crate::specs::Feeding::answer_to, crate::specs::Feeding::after_feed))]
    pub fn feed(&mut self, bytes: &[u8]) -> Result<Blocks, BodyFault>
        ensures ok { IfOk result (λ b. answer_to self.old bytes.now ≡ Brings b.blocks.items b.is_complete) }
        ensures fault { IfErr result (λ e. e ≢ NoMemory → answer_to self.old bytes.now ≡ Refuses e) }
        ensures after { result ≢ Err NoMemory → self.new ≡ after_feed self.old bytes.now }
        // a body that has failed answers so, and each fault fails it
        ensures failed { self.old.has_failed ≡ true → result ≡ Err Failed }
        ensures fails { IfErr result (λ _. self.new.has_failed ≡ true) }
    {
        if self.has_failed {
            return Err(BodyFault::Failed);
        }
        match self.read(bytes) {
            Ok(blocks) => Ok(blocks),
            Err(fault) => {
                self.has_failed = true;
                Err(fault)
            }
        }
    }

    // What a body that has not failed answers.
    fn read(&mut self, bytes: &[u8]) -> Result<Blocks, BodyFault>
        requires { self.old.has_failed ≡ false }
        ensures ok { IfOk result (λ b. answer_to self.old bytes.now ≡ Brings b.blocks.items b.is_complete) }
        ensures fault { IfErr result (λ e. e ≢ NoMemory → answer_to self.old bytes.now ≡ Refuses e) }
        ensures place { result ≢ Err NoMemory → self.new.place ≡ after self.old.place bytes.now }
        ensures end { result ≢ Err NoMemory
            → self.new.is_end_told ≡ self.old.is_end_told || has_ended (after self.old.place bytes.now) }
        ensures failed { self.new.has_failed ≡ false }
    {
        let mut gathering = Gathering::new(self.alloc, bytes.len());
        self.position.pass(bytes, &mut gathering)?;
        let blocks = gathering.into_blocks()?;
        let has_ended = self.position.has_ended();
        let is_complete = has_ended && !self.is_end_told;
        self.is_end_told = self.is_end_told || has_ended;
        answered(blocks, is_complete, self.position.fault())
    }
}

// The answer with these blocks and this fault: the fault, if there is nothing else.
fn answered(
    blocks: Vec<Block>,
    is_complete: bool,
    fault: Option<BodyFault>,
) -> Result<Blocks, BodyFault>
    ensures ok { IfOk result
        (λ b. answer_with blocks.items is_complete fault ≡ Brings b.blocks.items b.is_complete) }
    ensures fault { IfErr result (λ e. answer_with blocks.items is_complete fault ≡ Refuses e) }
{
    match fault {
        Some(fault) if blocks.is_empty() && !is_complete => Err(fault),
        _ => Ok(Blocks {
            blocks,
            is_complete,
        }),
    }
}
