//! Laws: what is true of every stream and every text, by the definitions that the calls cite.
//!
//! Each law is a function that does nothing, and its contract is the law.
//! A caller that needs a law in a proof calls the function, and cites its clause.
ghost use Rattle.std.specs.Prelude.{◌≡◌, ℕ, ◌<◌, ◌≤◌, List, [], ◌∷◌, ◌++◌, length, take, drop, map, Option, Some, true, encode_utf8_all, codes, ◌↔◌};
ghost use Rattle.std.specs.List.{concat, list_all};
ghost use Rattle.std.specs.Str.{IsUtf8, chars};
ghost use Rattle.radio_icy.specs.Block.{metadata_block, title_text};
ghost use Rattle.radio_icy.specs.Weaving.{Call, Weaving, after_calls, after_weaving, new_weaving, woven, woven_by_calls};
ghost use Rattle.radio_icy.specs.Stream.{IsWoven, AreUntitled, sound_of_calls, interval_count, news_at, titles_sent};
ghost use Rattle.radio_icy.specs.Unweaving.{Unweaving, new_unweaving, atoms_of_piece, after_feeding, heard_by_pieces, after_pieces};
ghost use Rattle.radio_icy.specs.Bare.{bare, after_block, block_texts, sound_in, texts_in};
ghost use Rattle.radio_icy.specs.Titles.{title_of, HasNoUrlInside, IsTitleIn};

/// What a weaver writes over a list of calls, from the start of a stream, is woven: the sound of all calls, cut after
/// each multiple of the interval, with the block of each part. Without any title each block is one zero byte.
// rule: Metadata count
pub fn woven_streams()
    ensures woven { (n : ℕ) (calls : List Call)
        → 0 < n → IsWoven n calls (woven_by_calls (new_weaving n) calls) }
    ensures untitled { (n : ℕ) (calls : List Call) (k : ℕ)
        → AreUntitled calls → metadata_block (news_at n calls k) ≡ 0 ∷ [] }
{}

/// However sound is cut into calls under one title, the same is written. From any state of a weaver, later calls go
/// on at the place at which earlier ones ended.
// rule: Metadata count
pub fn joined_weaving()
    ensures sound { (w : Weaving) (title : Option (List ℕ)) (a : List ℕ) (b : List ℕ)
        → woven w title (a ++ b) ≡ woven w title a ++ woven (after_weaving w title a) title b }
    ensures after_sound { (w : Weaving) (title : Option (List ℕ)) (a : List ℕ) (b : List ℕ)
        → after_weaving w title (a ++ b) ≡ after_weaving (after_weaving w title a) title b }
    ensures calls { (w : Weaving) (calls : List Call) (more : List Call)
        → woven_by_calls w (calls ++ more) ≡ woven_by_calls w calls ++ woven_by_calls (after_calls w calls) more }
    ensures after_calls { (w : Weaving) (calls : List Call) (more : List Call)
        → after_calls w (calls ++ more) ≡ after_calls (after_calls w calls) more }
{}

/// The bare sound of a stream, by two cases. It is all of the stream, if that has no more than the interval. Else
/// it is the first interval, and past a byte q and 16 q bytes the bare sound of the rest.
pub fn bare_streams()
    ensures short { (n : ℕ) (out : List ℕ) → length out ≤ n → bare n out ≡ out }
    ensures long { (n : ℕ) (out : List ℕ)
        → n < length out → bare n out ≡ take n out ++ bare n (after_block (drop n out)) }
{}

/// Taken out of a woven stream, the sound is the sound that went in. The texts of the blocks are those of the titles
/// that were sent.
// rule: Metadata block
pub fn bare_of_woven()
    ensures sound { (n : ℕ) (calls : List Call) (out : List ℕ)
        → 0 < n → IsWoven n calls out → bare n out ≡ sound_of_calls calls }
    ensures texts { (n : ℕ) (calls : List Call) (out : List ℕ)
        → 0 < n → IsWoven n calls out → block_texts n out ≡ map title_text (titles_sent n calls (interval_count n calls)) }
{}

/// However a stream is cut into pieces, the same is taken out of it, and the reader is at the same place
/// after it.
// rule: Metadata block
pub fn cut_streams()
    ensures heard { (u : Unweaving) (pieces : List (List ℕ))
        → heard_by_pieces u pieces ≡ atoms_of_piece u (concat pieces) }
    ensures after { (u : Unweaving) (pieces : List (List ℕ))
        → after_pieces u pieces ≡ after_feeding u (concat pieces) }
{}

/// What is taken out of a stream from its start is its bare sound and the texts of its blocks.
// rule: Metadata block
pub fn unwoven_streams()
    ensures sound { (n : ℕ) (out : List ℕ) → sound_in (atoms_of_piece (new_unweaving n) out) ≡ bare n out }
    ensures texts { (n : ℕ) (out : List ℕ) → texts_in (atoms_of_piece (new_unweaving n) out) ≡ block_texts n out }
{}

/// The title of the text that was made of a title is that title, unless it has `';StreamUrl=` in it; also with a URL
/// behind it.
// rule: Title of a block
pub fn titles_of_texts()
    ensures alone { (title : List ℕ) → HasNoUrlInside title → title_of (title_text title) ≡ Some title }
    ensures with_url { (title : List ℕ) (url : List ℕ)
        → HasNoUrlInside title → title_of (title_text title ++ (codes "StreamUrl=" ++ url)) ≡ Some title }
{}

/// A text has a title exactly if the title is between `StreamTitle='` and the first end of a title.
// rule: Title of a block
pub fn titles_in_texts()
    ensures { (text : List ℕ) (title : List ℕ) → (title_of text ≡ Some title) ↔ IsTitleIn text title }
{}
