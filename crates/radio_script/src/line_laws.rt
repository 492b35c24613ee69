//! Laws of the lines of scripts and transcripts. They run no code.

ghost use Rattle.std.specs.Prelude.{◌≡◌, ◌<◌, ◌↔◌, List, ℕ, Some};
ghost use Rattle.std.specs.List.{AllByRecursion};
ghost use Rattle.radio_script.specs.Escapes.{escaped, unescaped};
ghost use Rattle.radio_script.specs.Spelling.{SpellsAll};
ghost use Rattle.radio_script.specs.Given.{AreLines, TranscriptLine, transcript_text};

/// The text that a transcript writes for some bytes is read back as these bytes.
// rule: Escapes
#[tactic(auto, using(crate::proofs::EscapeLemmas::unescaped_escaped))]
pub fn escapes_read_back()
    ensures { (bytes : List ℕ) → AllByRecursion (λ b. b < 256) bytes
        → unescaped (escaped bytes) ≡ Some bytes }
{}

/// The reading of a text agrees with the grammar of texts.
#[tactic(auto, using(crate::proofs::SpellingLemmas::spelled))]
pub fn texts_are_spelled()
    ensures { (text bytes : List ℕ) → (unescaped text ≡ Some bytes) ↔ SpellsAll text bytes }
{}

/// The text of a transcript is that of one list of lines alone.
#[tactic(auto, using(crate::proofs::LineReadings::read_one_way))]
pub fn transcripts_are_read_one_way()
    ensures { (lines others : List TranscriptLine) → AreLines lines → AreLines others
        → transcript_text lines ≡ transcript_text others → lines ≡ others }
{}
