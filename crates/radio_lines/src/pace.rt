//! How fast sources are read.

ghost use Rattle.std.specs.Prelude.{◌≡◌};
ghost use Rattle.radio_lines.specs.Paces.{holds, is_source_line, pace_number};

/// How fast sources are read, so that listeners can follow.
#[derive(Clone, Copy, Debug, PartialEq, Eq)]
pub enum Pace {
    /// As they come.
    Free,
    /// Once in a millisecond.
    Slow,
    /// Not at all.
    Stopped,
}

impl Pace {
    /// Returns whether a source's line gives nothing at `ms` that gave something at `gave_ms` last, in milliseconds.
    // rule: Sources wait
    pub(crate) fn holds(self, gave_ms: u64, ms: u64) -> bool
        ensures { result ≡ holds self gave_ms ms }
    {
        match self {
            Pace::Free => false,
            Pace::Slow => gave_ms == ms,
            Pace::Stopped => true,
        }
    }

    /// Returns the number of the pace, by which it is shared.
    pub(crate) fn number(self) -> u64
        ensures { result ≡ pace_number self }
    {
        match self {
            Pace::Free => 0,
            Pace::Slow => 1,
            Pace::Stopped => 2,
        }
    }

    /// Returns the pace of this number: the slowest, if there is none.
    pub(crate) fn of(number: u64) -> Pace
        ensures { (pace : Pace) → number ≡ pace_number pace → result ≡ pace }
    {
        match number {
            0 => Pace::Free,
            1 => Pace::Slow,
            _ => Pace::Stopped,
        }
    }
}

/// How many bytes no line gives but that of a source: a head has fewer.
const MOST_OF_OTHERS: u64 = 16_384;

/// Returns whether a line has given so many bytes as only that of a source does, and they are wanted.
// rule: Sources wait
pub(crate) fn is_source(gave: u64, is_passed_over: bool) -> bool
    ensures { result ≡ is_source_line gave is_passed_over }
{
    gave >= MOST_OF_OTHERS && !is_passed_over
}
