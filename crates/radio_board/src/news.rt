//! Whose listeners have news, and when a worker draws for them.

ghost use Rattle.std.specs.Prelude.{◌≡◌, if◌then◌else◌};
ghost use Rattle.radio_board.specs.declared.news.NewsFor.TheVariants.{Nobody, All};
ghost use Rattle.radio_board.specs.News.{is_for_some, no_rounds, spacing_for, shortest, pause_end, wait_left, round_begun, round_ended, is_for};

use std::marker::Model;

/// How many rounds are compared.
const ROUNDS: usize = 8;

/// How many times the shortest round passes at least from the beginning of a round to that of the next.
const LEAST_SPACING: u64 = 20;

/// How many times the shortest round passes for each worker, so that the rounds of all workers take a tenth of a processor.
const WORKER_SPACING: u64 = 10;

/// How long news waits at most, in microseconds.
const MOST_WAIT_US: u64 = 250_000;

/// Whose listeners may have news.
#[derive(Clone, Copy)]
pub enum NewsFor {
    /// Nobody's.
    Nobody,
    /// Those of each worker but the one of this number.
    AllBut(usize),
    /// Those of each worker.
    All,
}

impl NewsFor {
    /// Returns whether the listeners of some worker may have news.
    pub(crate) fn is_for_some(self) -> bool
        ensures { result ≡ is_for_some self }
    {
        match self {
            NewsFor::Nobody => false,
            NewsFor::AllBut(_) | NewsFor::All => true,
        }
    }

    /// Returns whether the listeners of the worker of this number may have news.
    pub(crate) fn is_for(self, number: usize) -> bool
        ensures { result ≡ is_for self number }
    {
        match self {
            NewsFor::Nobody => false,
            NewsFor::AllBut(other) => number != other,
            NewsFor::All => true,
        }
    }
}

impl From<bool> for NewsFor {
    /// Returns everybody's, if there is news.
    fn from(has_news: bool) -> NewsFor
        ensures { result ≡ (if has_news then All else Nobody) }
    {
        if has_news {
            NewsFor::All
        } else {
            NewsFor::Nobody
        }
    }
}

/// When a worker begins its rounds of draws. A send costs the same for each listener, however many bytes it has. So the rounds
/// of a worker with many listeners are far apart, and bring several blocks at once. Moments are in microseconds.
///
/// In contracts it is a `Rounds`.
#[derive(Drop)]
pub struct NewsPause {
    began_us: u64,
    took_us: [u64; ROUNDS],
    was_early: bool,
    /// How many times the shortest round passes from the beginning of a round to that of the next.
    spacing: u64,
}

impl Model for NewsPause {
    ghost use Rattle.radio_board.specs.News.{Rounds};

    ghost Value = { Rounds };

    ghost view = { λ p. record { began = p.began_us; took = p.took_us; was_early = p.was_early; spacing = p.spacing } };
}

impl NewsPause {
    /// Returns the pause of one of so many workers that has made no round.
    // rule: News waits
    pub fn new(workers: usize) -> NewsPause
        ensures { result ≡ no_rounds workers }
    {
        NewsPause {
            began_us: 0,
            took_us: [0; ROUNDS],
            was_early: false,
            spacing: spacing_of(workers),
        }
    }

    /// Returns for how long news that came at `came_us` waits still at `now_us`, in microseconds. It does not wait if much has
    /// come.
    // rule: News waits
    pub fn left_us(&self, now_us: u64, came_us: u64, is_much: bool) -> u64
        ensures { result ≡ wait_left now_us came_us is_much self.now }
    {
        if is_much {
            return 0;
        }
        let pause_us = self.end_us().saturating_sub(now_us);
        let most_us = came_us.saturating_add(MOST_WAIT_US).saturating_sub(now_us);
        pause_us.min(most_us)
    }

    /// Returns whether the news of the last round came before the pause ended.
    pub fn was_early(&self) -> bool
        ensures { result ≡ self.now.was_early }
    {
        self.was_early
    }

    /// Notes that a round begins at `now_us`, for news that came at `came_us`.
    // rule: News waits
    pub fn begin(&mut self, now_us: u64, came_us: u64)
        ensures { self.new ≡ round_begun now_us came_us self.old }
    {
        self.was_early = came_us < self.end_us();
        self.began_us = now_us;
    }

    /// Notes that the round ends at `now_us`.
    // rule: News waits
    pub fn end(&mut self, now_us: u64)
        ensures { self.new ≡ round_ended now_us self.old }
    {
        let took_us = now_us.saturating_sub(self.began_us);
        let [a, b, c, d, e, f, g, _] = self.took_us;
        self.took_us = [took_us, a, b, c, d, e, f, g];
    }

    /// Returns when the pause ends.
    fn end_us(&self) -> u64
        ensures { result ≡ pause_end self.now }
    {
        let spaced_us = shortest_of(&self.took_us).saturating_mul(self.spacing);
        self.began_us.saturating_add(spaced_us)
    }
}

/// Returns how many times the shortest round passes from one round of such a worker to the next.
fn spacing_of(workers: usize) -> u64
    ensures { result ≡ spacing_for workers }
{
    (workers as u64)
        .saturating_mul(WORKER_SPACING)
        .max(LEAST_SPACING)
}

/// Returns the shortest of these times.
fn shortest_of(times: &[u64; ROUNDS]) -> u64
    ensures { result ≡ shortest times.now }
{
    times.iter().fold(u64::MAX, |least, time| least.min(*time))
}
