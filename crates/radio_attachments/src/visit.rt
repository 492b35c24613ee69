//! What reads attachments in their places in a tree.

ghost use Rattle.std.specs.Prelude.{◌≡◌, ◌≤◌, ℕ, Bool};
ghost use Rattle.radio_attachments.specs.declared.attachment.Attachment.{Attachment as AttachmentOf};

use crate::Attachment;

/// A visit of an attachment's place, which may change it and returns an answer.
pub trait PlaceVisit {
    /// What a visit returns.
    type Answer;

    // The result of a visit: the answer, and the visitor and the place after it.
    ghost visits: { Self → ℕ → Self.Answer → Self → ℕ → Type 0 };

    /// Visits the place, in bytes.
    fn visit(&mut self, place: &mut u64) -> Self::Answer
        ensures { visits self.old place.old result self.new place.new };

    // A visit never sets the place back.
    ghost goes_on: { (visitor visitor' : Self) (place place' : ℕ) (answer : Self.Answer) → visits visitor place answer visitor' place' → place ≤ place' };
}

/// A test of attachments.
pub trait AttachmentTest {
    // Which attachments pass.
    ghost passes: { Self → AttachmentOf → Bool };

    /// Returns whether the attachment passes.
    fn passes(&self, row: &Attachment) -> bool
        ensures { result ≡ passes self.now row.now };
}
