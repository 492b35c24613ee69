//! Runs a list of deliveries.

ghost use Rattle.std.specs.Prelude.{◌≡◌, ℕ, List, None, Some, Err, IfOk};
ghost use Rattle.radio_script.specs.Runs.{Runs};

use crate::performer::Performer;
use crate::{Delivery, PerformFault, RunFault};
use std::alloc::Global;

/// Returns the transcript of the deliveries. The error is `Delivery` at the first delivery that the performer refuses
/// with `Label`, and `OutOfMemory` if memory was refused. There is no other error.
// rule: Line of a script
pub fn run_with<P: Performer>(
    alloc: Global,
    performer: &mut P,
    deliveries: &[Delivery],
) -> Result<Vec<u8>, RunFault>
    ensures ok { IfOk result (λ text.
        Runs P.performs performer.old 1 deliveries.now text.items None performer.new) }
    ensures delivery { (number : ℕ) → result ≡ Err (RunFault.Delivery number)
        → (text : List ℕ)
        × Runs P.performs performer.old 1 deliveries.now text (Some number) performer.new }
{
    let mut text = Vec::new(alloc);
    for (i, delivery) in deliveries.iter().enumerate() {
        match performer.perform(delivery, &mut text) {
            Ok(()) => {}
            Err(PerformFault::Label) => return Err(RunFault::Delivery { number: i + 1 }),
            Err(PerformFault::OutOfMemory) => return Err(RunFault::OutOfMemory),
        }
    }
    Ok(text)
}
