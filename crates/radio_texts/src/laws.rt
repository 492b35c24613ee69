//! Laws: what cuts and fields are, in words of their own.
//!
//! Each law is a function that does nothing, and its contract is the law.
//! A caller that needs a law in a proof calls the function, and cites its clause.
ghost use Rattle.std.specs.Prelude.{◌≡◌, ◌↔◌, ◌<◌, ℕ, List, ◌∷◌, ◌++◌, length, Some, None};
ghost use Rattle.std.specs.List.{Contains};
ghost use Rattle.radio_texts.specs.Cuts.{cut, fields_at, fields_by};

/// A text is cut where it has the byte for the first time, and is not cut exactly if it has it nowhere.
pub fn cuts()
    ensures first { (at : ℕ) (text front back : List ℕ)
        → (cut at text ≡ Some (front, back)) ↔ ((text ≡ front ++ at ∷ back) × (¬ Contains front at)) }
    ensures none { (at : ℕ) (text : List ℕ) → (cut at text ≡ None) ↔ (¬ Contains text at) }
{}

/// The fields between the bytes `at` are what one cut after another finds, and there is one at least.
pub fn fields()
    ensures by_cuts { (at : ℕ) (text : List ℕ) → fields_at at text ≡ fields_by at text (cut at text) }
    ensures some { (at : ℕ) (text : List ℕ) → 0 < length (fields_at at text) }
{}
