//! Whether a connection goes on, and how it ends.

ghost use Rattle.std.specs.Prelude.{◌≡◌};
ghost use Rattle.radio_events.specs.Endings.{ending_word};

use radio_policy::Rule;

/// Whether a connection goes on.
#[derive(Clone, Copy, Debug, PartialEq, Eq)]
pub enum State {
    /// It goes on.
    Running,
    /// It is shut, and this is its last word. Its client leaves.
    Shut(Ending),
}

/// How a connection ends.
#[derive(Clone, Copy, Debug, PartialEq, Eq)]
pub enum Ending {
    /// The peer has closed, or the body that it sent is whole.
    Done,
    /// By this rule.
    By(Rule),
    /// The body of its request is not framed as it should be (RFC 9112, section 7.1).
    BadBody,
    /// What a relay's master answers cannot be pulled.
    BadPull,
}

impl Ending {
    /// The word for it in a transcript.
    // rule: Last word
    pub fn word(self) -> &'static str
        ensures { result.now ≡ ending_word self }
    {
        match self {
            Ending::Done => "done",
            Ending::By(rule) => rule.word(),
            Ending::BadBody => "bad-body",
            Ending::BadPull => "bad-pull",
        }
    }
}
