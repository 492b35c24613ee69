//! The queue itself.

ghost use Rattle.std.specs.Prelude.{◌≡◌, ◌+◌, ◌-◌, ◌<◌, List, [], ◌∷◌, ◌++◌, length, IfOk, IfErr, OnErr, OnOk, IfSome, IfNone, MatchResult};
ghost use Rattle.radio_workers.specs.declared.intake.TheConstants.{ROOM};
ghost use Rattle.radio_workers.specs.Passes.{IsTakenOrLeft, all_parts, joined, unused};

use crate::OutOfMemory;
use crate::pass::IntakePass;
use crate::rule::{Balance, OnePart, PutsOne, TakesOne, Together, Transfers};
use crossbeam_queue::RuledArrayQueue;
use std::alloc::Global;
use std::marker::Model;
use std::sync::Wait;

/// For how many connections an intake has room.
pub const ROOM: usize = 1024;

/// Connections that wait for a worker. Threads share it by reference, with a pass each; who drops it
/// drops the connections that are left. In contracts it is which intake it is.
#[derive(Drop)]
pub struct Intake<L> {
    queue: RuledArrayQueue<L, Transfers<L>, Balance>,
}

impl<L> Model for Intake<L> {
    ghost use Rattle.std.specs.Prelude.{◌≡◌};
    ghost use Rattle.crossbeam_queue.specs.Passes.{ruled_capacity};
    ghost use Rattle.radio_workers.specs.declared.intake.TheConstants.{ROOM};
    ghost use Rattle.radio_workers.specs.Passes.{IntakeId};

    ghost Value = { IntakeId };

    ghost view = { λ i. i.queue.table.shared.table_id };

    ghost invariant = { λ i. ruled_capacity i.queue ≡ ROOM };
}

impl<L> Intake<L> {
    /// An empty intake, and the pass that has all its parts. `OutOfMemory` if memory was refused.
    pub fn new(alloc: Global) -> Result<(Intake<L>, IntakePass<L>), OutOfMemory>
        ensures whole { IfOk result (λ made. made.1 ≡ unused made.0 all_parts) }
    {
        let (queue, transfers) = RuledArrayQueue::ruled(alloc, ROOM)?;
        Ok((Intake { queue }, IntakePass { transfers }))
    }

    /// A pass for another thread, with one part of those that this pass has.
    pub fn split(&self, pass: &mut IntakePass<L>) -> IntakePass<L>
        requires own { pass.old.intake ≡ self.now }
        requires parts { 1 < pass.old.parts }
        ensures pass { pass.new ≡ record pass.old { parts = pass.old.parts - 1 } }
        ensures other { result ≡ unused self.now 1 }
    {
        let transfers = self.queue.another::<OnePart>(&mut pass.transfers);
        IntakePass { transfers }
    }

    /// Takes another pass back: its parts, and what was put and taken through it.
    pub fn join(&self, pass: &mut IntakePass<L>, other: IntakePass<L>)
        requires own { (pass.old.intake ≡ self.now) × (other.intake ≡ self.now) }
        ensures both { pass.new ≡ joined pass.old other }
    {
        let IntakePass { transfers } = other;
        self.queue
            .absorb::<Together>(&mut pass.transfers, transfers);
    }

    /// Puts a connection behind those that wait. `Err` gives it back: at one moment of the call there
    /// was no room, and nothing was put. It takes no memory.
    // rule: Newcomers
    pub fn put<R: Wait>(&self, rt: &R, pass: &mut IntakePass<L>, line: L) -> Result<(), L>
        requires own { pass.old.intake ≡ self.now }
        ensures ok { OnOk result (pass.new ≡ record pass.old { put = pass.old.put ++ line ∷ [] }) }
        ensures back { IfErr result (λ refused. refused ≡ line) }
        ensures err { OnErr result (pass.new ≡ pass.old) }
        // the thread with all parts gets it back exactly if [`ROOM`] are left
        ensures room { pass.old.parts ≡ all_parts → MatchResult result (λ _. length pass.old.put < length pass.old.taken + ROOM) (λ _. length pass.old.put ≡ length pass.old.taken + ROOM) }
    {
        self.queue
            .push_as::<PutsOne, R>(rt, &mut pass.transfers, line)
    }

    /// Takes the connection that waits longest. `None` only if at one moment of the call there was
    /// none. It takes no memory.
    pub fn take<R: Wait>(&self, rt: &R, pass: &mut IntakePass<L>) -> Option<L>
        requires own { pass.old.intake ≡ self.now }
        ensures some { IfSome result (λ line. pass.new ≡ record pass.old { taken = pass.old.taken ++ line ∷ [] }) }
        ensures none { IfNone result (pass.new ≡ pass.old) }
        // for the thread with all parts nothing is left then: what was put was taken
        ensures empty { pass.old.parts ≡ all_parts → IfNone result (IsTakenOrLeft pass.old.put pass.old.taken []) }
    {
        self.queue.pop_as::<TakesOne, R>(rt, &mut pass.transfers)
    }

    /// With all parts in one pass: how many connections are left, and that what was put is what was
    /// taken and what is left.
    pub fn tally<R: Wait>(&self, rt: &R, pass: &mut IntakePass<L>) -> usize
        requires own { pass.old.intake ≡ self.now }
        requires parts { pass.old.parts ≡ all_parts }
        ensures same { pass.new ≡ pass.old }
        ensures left { (left : List L) × (length left ≡ result) × IsTakenOrLeft pass.old.put pass.old.taken left }
    {
        self.queue.len_as::<TakesOne, R>(rt, &mut pass.transfers)
    }
}
