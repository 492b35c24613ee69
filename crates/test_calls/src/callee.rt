//! What is called with events, and what it replies.

use radio_core::Core;
use radio_events::{Event, OutOfMemory, Reply};

/// A server, a book or a hall, as a caller with events sees it.
pub trait Callee {
    /// Applies an event. Returns the number that its reply gives, 0 if it gives none; `None` if memory was refused.
    fn call(&mut self, event: Event) -> Option<u64>;
}

/// Returns the number that a reply gives to a client or relay that arrives, 0 if it gives none.
pub fn number_given(reply: &Reply) -> u64 {
    match reply {
        Reply::Arrived(id) => *id,
        _ => 0,
    }
}

/// Returns what a core replies to a copy of the event. `OutOfMemory` if memory was refused.
pub fn step_copy(core: &mut Core, event: &Event) -> Result<Reply, OutOfMemory> {
    core.step(event.again()?)
}
