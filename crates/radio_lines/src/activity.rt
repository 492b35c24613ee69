//! What all lines of a thread share with its loop.

ghost use Rattle.std.specs.Prelude.{◌≡◌};
ghost use Rattle.radio_lines.specs.Paces.{more_if, more_urgent, need_number, turn_wait};
ghost use Rattle.radio_lines.specs.declared.activity.Need.{Need};
ghost use Rattle.radio_lines.specs.declared.activity.Need.TheVariants.{Held};

use crate::closing::NewsCount;
use crate::pace::Pace;
use std::sync::atomic::{AtomicU64, Ordering};

/// What a line needs in the next turn.
#[derive(Clone, Copy, Debug, PartialEq, Eq)]
pub(crate) enum Need {
    /// Nothing.
    Nothing,
    /// It was held back, and is to be asked in a millisecond.
    Held,
    /// It has something to do.
    More,
}

impl Need {
    /// Returns `More` if there is something to do, else `Nothing`.
    pub(crate) fn more_if(has_more: bool) -> Need
        ensures { result ≡ more_if has_more }
    {
        if has_more { Need::More } else { Need::Nothing }
    }

    /// Returns the more urgent of two needs.
    fn or(self, other: Need) -> Need
        ensures { result ≡ more_urgent self other }
    {
        match self {
            Need::Nothing => other,
            Need::Held => Need::more_or_held(other),
            Need::More => Need::More,
        }
    }

    /// Returns the more urgent of this need and that of a line that was held back.
    fn more_or_held(self) -> Need
        ensures { result ≡ more_urgent Held self }
    {
        match self {
            Need::Nothing | Need::Held => Need::Held,
            Need::More => Need::More,
        }
    }

    /// Returns the number of the need, by which it is shared: what is more urgent has a higher one.
    fn number(self) -> u64
        ensures { result ≡ need_number self }
    {
        match self {
            Need::Nothing => 0,
            Need::Held => 1,
            Need::More => 2,
        }
    }

    /// Returns the need of this number: the most urgent, if there is none.
    fn of(number: u64) -> Need
        ensures { (need : Need) → number ≡ need_number need → result ≡ need }
    {
        match number {
            0 => Need::Nothing,
            1 => Need::Held,
            _ => Need::More,
        }
    }
}

/// What lines know of a turn.
#[derive(Clone, Copy, Debug, PartialEq, Eq)]
pub(crate) struct LineTurn {
    /// Its moment, in milliseconds.
    pub(crate) ms: u64,
    /// How fast sources are read.
    pub(crate) pace: Pace,
    /// How often listeners had got news when it began, and have drawn.
    pub(crate) news: NewsCount,
}

/// What all lines of a thread share: the moment of a turn in milliseconds, how fast sources are read in it, and what listeners
/// had drawn before it. The lines note whether one has something to do in the next turn, and how many bytes of sources came.
#[derive(Drop)]
pub struct Activity {
    now_ms: AtomicU64,
    /// The number of the pace.
    pace: AtomicU64,
    /// How often listeners had got news when the turn began.
    raised: AtomicU64,
    /// Up to which of these times all had drawn.
    drawn: AtomicU64,
    /// The number of the most urgent need of a line.
    need: AtomicU64,
    received: AtomicU64,
}

impl Activity {
    /// At the beginning.
    pub(crate) fn new() -> Activity {
        Activity {
            now_ms: AtomicU64::new(0),
            pace: AtomicU64::new(Pace::Free.number()),
            raised: AtomicU64::new(0),
            drawn: AtomicU64::new(0),
            need: AtomicU64::new(0),
            received: AtomicU64::new(0),
        }
    }

    /// Begins a turn at this moment, in milliseconds. Sources are read at this pace, and listeners got news, and have
    /// drawn, so often.
    pub fn begin_turn(&self, ms: u64, pace: Pace, news: NewsCount) {
        self.now_ms.store(ms, Ordering::SeqCst);
        self.pace.store(pace.number(), Ordering::SeqCst);
        self.raised.store(news.raised, Ordering::SeqCst);
        self.drawn.store(news.drawn, Ordering::SeqCst);
    }

    /// Returns the moment of the turn that has begun, in milliseconds.
    pub(crate) fn now_ms(&self) -> u64 {
        self.now_ms.load(Ordering::SeqCst)
    }

    /// Returns the turn that has begun.
    pub(crate) fn turn(&self) -> LineTurn {
        LineTurn {
            ms: self.now_ms(),
            pace: Pace::of(self.pace.load(Ordering::SeqCst)),
            news: NewsCount {
                raised: self.raised.load(Ordering::SeqCst),
                drawn: self.drawn.load(Ordering::SeqCst),
            },
        }
    }

    /// Returns for how many milliseconds the next turn waits at most. It does not wait if a line has had something to
    /// do since this was last asked. It waits one if a line was held back, and else so many.
    pub fn wait_ms(&self, longest_ms: u64) -> u64
        ensures { (need : Need) × (result ≡ turn_wait need longest_ms) }
    {
        turn_wait(Need::of(self.need.swap(0, Ordering::SeqCst)), longest_ms)
    }

    /// Returns how many bytes have come from sources since this was asked the last time.
    pub fn take_received(&self) -> u64 {
        if self.received.load(Ordering::SeqCst) == 0 {
            return 0;
        }
        self.received.swap(0, Ordering::SeqCst)
    }

    /// Notes what a line needs in the next turn, and that it gave so many bytes that count as those of a source.
    pub(crate) fn note(&self, need: Need, sourced: usize) {
        if need != Need::Nothing {
            self.note_need(need);
        }
        if sourced > 0 {
            self.received.fetch_add(sourced as u64, Ordering::SeqCst);
        }
    }

    /// Notes what a line needs in the next turn.
    fn note_need(&self, need: Need) {
        let before = Need::of(self.need.load(Ordering::SeqCst));
        let after = before.or(need);
        if after != before {
            self.need.store(after.number(), Ordering::SeqCst);
        }
    }
}

/// Returns for how many milliseconds the next turn waits at most, if this is the most urgent need of a line.
fn turn_wait(need: Need, longest_ms: u64) -> u64
    ensures { result ≡ turn_wait need longest_ms }
{
    match need {
        Need::Nothing => longest_ms,
        Need::Held => longest_ms.min(1),
        Need::More => 0,
    }
}
