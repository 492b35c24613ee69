//! All workers, each in a thread.

ghost use Rattle.std.specs.Prelude.{◌≡◌, ◌<◌, ℕ, length, All, slice_index_or};
ghost use Rattle.radio_workers.specs.TakenConnections.{HasTakenMore};
ghost use Rattle.radio_workers.specs.Working.{IsWorkOf};

use crate::shift::work;
use crate::{TurnSource, WorkerSlot, Workplace};
use radio_events::SharedServer;
use radio_serving::{Gate, Line};
use std::alloc::Global;
use std::sync::Wait;
use std::thread::{Threads, for_each_mut};

/// Runs a worker at each slot, in a thread of its own, and joins them all. Each takes connections from the intake, as its
/// post calls it to, and serves its own; at its end all who are still here leave, and are closed.
///
/// Nothing here asks for memory, and no memory that is refused to a worker ends it. One for whom no thread can be had is
/// left out as long as others work.
// rule: Newcomers; End of a worker
pub fn run_workers<R, S, T, L, P, G>(
    rt: &R,
    alloc: Global,
    place: &Workplace<'_, S, T, G>,
    slots: &mut [WorkerSlot<S::Pass, T, P>],
)
where
    R: Threads + Wait + Sync,
    S: SharedServer + Sync,
    S::Pass: Send,
    T: Send + Drop,
    L: Line + Send,
    P: TurnSource<T, L> + Send,
    G: Gate + Sync,
    requires own { All (λ slot. slot.intake_pass.intake ≡ place.now.intake.now) slots.old }
    // each pass of the intake has its parts, and says behind what it said what was taken at its slot
    ensures intake_passes { (i : ℕ) (d : _) → i < length slots.old → HasTakenMore (slice_index_or slots.old i d).intake_pass (slice_index_or slots.new i d).intake_pass }
    // each pass of the server is back, and what was done through it is a worker's work
    ensures work { (i : ℕ) (d : _) → i < length slots.old
        → IsWorkOf S.steps S.refuses place.now.web (slice_index_or slots.old i d).pass (slice_index_or slots.new i d).pass }
{
    let count = slots.len();
    if count == 0 {
        return;
    }
    for_each_mut(
        rt,
        slots,
        count,
        &|_, slot|
            requires { slot.now.intake_pass.intake ≡ place.now.intake.now }
            ensures { HasTakenMore slot.entry.now.intake_pass slot.exit.now.intake_pass
                × IsWorkOf S.steps S.refuses place.entry.now.web slot.entry.now.pass slot.exit.now.pass }
        { work::<R, S, T, L, P, G>(rt, alloc, place, slot) },
    );
}
