//! Who applies the events of connections.

ghost use Rattle.std.specs.Prelude.{◌≡◌, IfOk, OnErr};
ghost use Rattle.radio_events.specs.declared.event.Event.{Event as EventOf};
ghost use Rattle.radio_events.specs.declared.event.Event.TheVariants.{Draw};

use crate::{Event, OutOfMemory, Reply};
use radio_values::MountName;

/// Who applies the events of connections: a core, or whoever has one.
pub trait Server {
    ghost use Rattle.radio_events.specs.Servers.{Steps};

    // from one state the event is answered by the reply, and leaves the other state
    ghost steps: { Steps Self };

    // in this state the event may be refused for want of memory
    ghost refuses: { Self → EventOf → Type 0 };

    /// Applies an event. `OutOfMemory` if memory was refused; nothing has changed then.
    fn apply(&mut self, event: Event) -> Result<Reply, OutOfMemory>
        ensures ok { IfOk result (λ reply. steps self.old event reply self.new) }
        ensures err { OnErr result (self.new ≡ self.old) }
        ensures refused { OnErr result (refuses self.old event) };

    /// Applies an [`Event::Draw`] of the listener of this number, which has room for so many bytes. Draws are most of what a
    /// server does, so it may answer them by a shorter way. `OutOfMemory` if memory was refused; nothing has changed then.
    fn draw(&mut self, id: u64, room: u32) -> Result<Reply, OutOfMemory>
        ensures ok { IfOk result (λ reply. steps self.old (Draw id room) reply self.new) }
        ensures err { OnErr result (self.new ≡ self.old) }
        ensures refused { OnErr result (refuses self.old (Draw id room)) }
    {
        self.apply(Event::Draw { id, room })
    }

    /// The mount where the listener of this number sits, or sat last, if it is one. It takes no memory.
    fn last_mount(&self, id: u64) -> Option<MountName>;
}
