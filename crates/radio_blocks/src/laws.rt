//! Laws: what the definitions say of all data.
//!
//! Each law is a function that does nothing, and its contract is the law.
//! A caller that needs a law in a proof calls the function, and cites its clause.
ghost use Rattle.std.specs.Prelude.{◌≡◌, ◌<◌, ℕ, List, [], ◌∷◌, length, take, drop, All};
ghost use Rattle.std.specs.List.{concat};
ghost use Rattle.radio_blocks.specs.Block.{IsBlock};
ghost use Rattle.radio_blocks.specs.Cutting.{blocks_of};
ghost use Rattle.radio_blocks.specs.Queue.{kept_end};
ghost use Rattle.radio_blocks.specs.QueueLaws.{tail_after, IsShortestTail};

/// The blocks of some data are these data, cut after every 4096 bytes.
// rule: Cut into blocks
pub fn blocks_are_the_data()
    ensures joined { (bytes : List ℕ) → concat (blocks_of bytes) ≡ bytes }
    ensures valid { (bytes : List ℕ) → All IsBlock (blocks_of bytes) }
    ensures first { (bytes : List ℕ) → 0 < length bytes
        → blocks_of bytes ≡ take 4096 bytes ∷ blocks_of (drop 4096 bytes) }
    ensures none { blocks_of [] ≡ [] }
{}

/// What a queue of blocks keeps, whatever blocks came.
pub fn queues_keep_the_tail()
    // it keeps the shortest tail of whole blocks that has at least as many bytes as its limit, or all blocks
    ensures shortest { (limit : ℕ) (blocks : List (List ℕ)) → IsShortestTail limit blocks (tail_after limit blocks).blocks }
    // the stream's bytes at its offset are those that it keeps
    ensures bytes { (limit : ℕ) (blocks : List (List ℕ))
        → drop (tail_after limit blocks).offset (concat blocks) ≡ concat (tail_after limit blocks).blocks }
    // and its end is the end of the stream
    ensures ends { (limit : ℕ) (blocks : List (List ℕ)) → kept_end (tail_after limit blocks) ≡ length (concat blocks) }
{}
