//! What holds of an intake between any two steps of the threads that use it, and what its thread
//! knows after each step.

use crossbeam_queue::protocol::{Join, Lesson, Outcome, Protocol, Split};
use std::collections::LinkedList;

/// What a thread has put and taken, and its parts of the right to know the whole. No value of it is
/// made.
pub(crate) struct Transfers<L> {
    parts: u64,
    put: LinkedList<L>,
    taken: LinkedList<L>,
}

/// What was put by all is what was taken by all, and what is left.
pub(crate) struct Balance;

impl<L> Protocol<L, Transfers<L>> for Balance {
    ghost use Rattle.radio_workers.specs.Passes.{all_parts};
    ghost use Rattle.radio_workers.specs.Balance.{IsBalanced, idle};

    ghost holds = { IsBalanced };

    ghost first = { idle all_parts };
}

/// One part is cut off, for another thread, which has put and taken nothing yet.
pub(crate) struct OnePart;

impl<L> Split<Transfers<L>> for OnePart {
    ghost use Rattle.radio_workers.specs.Balance.{idle, less_one};

    ghost left = { less_one };

    ghost right = { λ _. idle 1 };
}

/// What two threads have put and taken, as of one.
pub(crate) struct Together;

impl<L> Join<Transfers<L>> for Together {
    ghost use Rattle.radio_workers.specs.Balance.{idle, sum_of_transfers};

    ghost both = { sum_of_transfers };

    ghost spent = { idle 0 };
}

/// A connection is put. The thread with all parts knows that there was room.
pub(crate) struct PutsOne;

impl<L> Outcome<L, Transfers<L>> for PutsOne {
    ghost use Rattle.radio_workers.specs.Balance.{IsPut};

    ghost then = { IsPut };
}

/// A connection is taken.
pub(crate) struct TakesOne;

impl<L> Outcome<L, Transfers<L>> for TakesOne {
    ghost use Rattle.radio_workers.specs.Balance.{IsTaken};

    ghost then = { IsTaken };
}

/// The thread with all parts knows what is left.
impl<L> Lesson<L, Transfers<L>> for PutsOne {
    ghost use Rattle.radio_workers.specs.Balance.{IsKnown};

    ghost fact = { IsKnown };
}

impl<L> Lesson<L, Transfers<L>> for TakesOne {
    ghost use Rattle.radio_workers.specs.Balance.{IsKnown};

    ghost fact = { IsKnown };
}
