//! How a worker waits until its next turn.

ghost use Rattle.std.specs.Prelude.{◌≡◌};
ghost use Rattle.radio_board.specs.Rests.{idle_wait_for, longest, is_turn, step_behind};

use crate::worker_state::Step;

/// How long a worker waits at once at most, in milliseconds. What comes then is noted at the moment when the wait began.
pub const MOST_REST_MS: u64 = 100;

/// How a worker waits until its next turn, and for how many milliseconds at most.
#[derive(Clone, Copy, Debug, PartialEq, Eq)]
pub enum IdleWait {
    /// It makes a turn then, whatever comes.
    Turn(u64),
    /// It waits for its lines, for news and for calls.
    Asleep(u64),
    /// It waits for its lines and for calls: news waits.
    Paused(u64),
}

impl IdleWait {
    /// Returns for how many milliseconds it waits at most.
    pub fn most_ms(self) -> u64
        ensures { result ≡ longest self }
    {
        match self {
            IdleWait::Turn(ms) | IdleWait::Asleep(ms) | IdleWait::Paused(ms) => ms,
        }
    }

    /// Returns whether a turn follows, whatever comes.
    pub fn is_turn(self) -> bool
        ensures { result ≡ is_turn self }
    {
        match self {
            IdleWait::Turn(_) => true,
            IdleWait::Asleep(_) | IdleWait::Paused(_) => false,
        }
    }

    /// Returns the step of a worker that has waited so; `None` if it was not marked as waiting.
    pub fn step_behind(self) -> Option<Step>
        ensures { result ≡ step_behind self }
    {
        match self {
            IdleWait::Turn(_) => None,
            IdleWait::Asleep(_) | IdleWait::Paused(_) => Some(Step::Wake),
        }
    }
}

/// Returns how a worker waits whose lines let it wait for `lines_ms`. News waits for `left_us` more; it `is_expected` if it is
/// there, or came within the last pause too.
// rule: News wakes once
pub fn rest_for(lines_ms: u64, left_us: u64, is_expected: bool) -> IdleWait
    ensures { result ≡ idle_wait_for lines_ms left_us is_expected }
{
    if lines_ms < MOST_REST_MS {
        return IdleWait::Turn(lines_ms);
    }
    if left_us > 0 && is_expected {
        return IdleWait::Paused(MOST_REST_MS.min(left_us / 1000 + 1));
    }
    IdleWait::Asleep(MOST_REST_MS)
}
