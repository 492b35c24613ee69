//! When a line answers that its peer has closed.

ghost use Rattle.std.specs.Prelude.{◌≡◌};
ghost use Rattle.radio_lines.specs.Closings.{answers_closing};

/// How long it is held back at most, in milliseconds.
const MOST_HELD_MS: u64 = 500;

/// How often listeners got news, and how many of these times all of them have drawn what had come.
#[derive(Clone, Copy, Debug, PartialEq, Eq)]
pub struct NewsCount {
    /// How often they got news.
    pub raised: u64,
    /// Up to which of these times all have drawn.
    pub drawn: u64,
}

/// A closing that was found.
#[derive(Clone, Copy, Debug, PartialEq, Eq)]
pub(crate) struct FoundClosing {
    /// When, in milliseconds.
    pub(crate) ms: u64,
    /// How often listeners had got news.
    pub(crate) raised: u64,
}

/// Returns whether a line answers at `ms` that its peer has closed: all have drawn what came before, or half a second has
/// passed. Otherwise listeners would be finished with their source before they had its last bytes.
// rule: Closing of a source
pub(crate) fn answers_closing(found: FoundClosing, drawn: u64, ms: u64) -> bool
    ensures { result ≡ answers_closing found drawn ms }
{
    drawn >= found.raised || ms.saturating_sub(found.ms) >= MOST_HELD_MS
}
