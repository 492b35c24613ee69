//! Copies of an event, for those who note it.

ghost use Rattle.std.specs.Prelude.{◌≡◌, IsOk, IfOk};
ghost use Rattle.radio_events.specs.Events.{EventTakesNoMemory};

use crate::OutOfMemory;
use radio_events::Event;

/// Returns the event twice. `OutOfMemory` if memory was refused.
pub fn twice(event: &Event) -> Result<(Event, Event), OutOfMemory>
    ensures value { IfOk result (λ copies. (copies.0 ≡ event.now) × (copies.1 ≡ event.now)) }
    ensures frees { EventTakesNoMemory event.now → IsOk result }
{
    let first = event.again()?;
    match event.again() {
        Ok(second) => Ok((first, second)),
        Err(refused) => {
            drop(first);
            Err(refused)
        }
    }
}
