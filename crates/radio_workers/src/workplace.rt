//! What workers share, and what each has.

ghost use Rattle.std.specs.Prelude.{◌≡◌, ◌-◌, ◌<◌, ◌++◌, ◌∷◌, [], All, OnOk, OnErr};
ghost use Rattle.radio_workers.specs.Passes.{unused};

use crate::{Intake, IntakePass, OutOfMemory};
use radio_serving::{Gate, WebAnswers};

/// What all workers share.
#[derive(Drop)]
pub struct Workplace<'a, S, T, G: Gate> {
    /// The server that they ask.
    pub server: &'a S,
    /// The queue from which they take connections.
    pub intake: &'a Intake<T>,
    /// What marks the beginning and the end of each write.
    pub gate: &'a G,
    /// What the settings say of answers.
    pub web: WebAnswers,
    /// Whether the log has lines of clients that were only shown something of the station.
    pub log_polls: bool,
    /// For how many seconds a line is kept that takes nothing of what is pending for it.
    pub patience_s: u32,
    /// How many turns each makes at most.
    pub turns: u64,
}

/// What one worker has.
#[derive(Drop)]
pub struct WorkerSlot<A: Drop, T: Drop, P: Drop> {
    /// A pass of the server, by which the worker calls it. It is back here once the worker has ended.
    pub pass: Option<A>,
    /// A pass of the intake.
    pub intake_pass: IntakePass<T>,
    /// Decides when its turns begin.
    pub turn_source: P,
}

/// Adds a slot with this pass of the server, this turn source, and one part of the intake from those of `intake_pass`.
/// `OutOfMemory` if memory was refused. Then no part was taken, and the slots are unchanged.
pub fn add_slot<A: Drop, T: Drop, P: Drop>(
    slots: &mut Vec<WorkerSlot<A, T, P>>,
    intake: &Intake<T>,
    intake_pass: &mut IntakePass<T>,
    pass: Option<A>,
    turn_source: P,
) -> Result<(), OutOfMemory>
    requires own { intake_pass.old.intake ≡ intake.now }
    requires parts { 1 < intake_pass.old.parts }
    ensures part { OnOk result (intake_pass.new ≡ record intake_pass.old { parts = intake_pass.old.parts - 1 }) }
    ensures added { OnOk result (slots.new.items ≡ slots.old.items ++ record { pass = pass; intake_pass = unused intake.now 1; turn_source = turn_source } ∷ []) }
    ensures slots { All (λ slot. slot.intake_pass.intake ≡ intake.now) slots.old.items → OnOk result (All (λ slot. slot.intake_pass.intake ≡ intake.now) slots.new.items) }
    ensures whole { OnErr result (intake_pass.new ≡ intake_pass.old) }
    ensures same { OnErr result (slots.new.items ≡ slots.old.items) }
{
    slots.reserve(1)?;
    let own = intake.split(intake_pass);
    slots.push_reserved(WorkerSlot {
        pass,
        intake_pass: own,
        turn_source,
    });
    Ok(())
}
