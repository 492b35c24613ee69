//! A server that several threads ask.

ghost use Rattle.std.specs.Prelude.{◌≡◌, IfOk, OnErr};
ghost use Rattle.radio_events.specs.declared.event.Event.{Event as EventOf};
ghost use Rattle.radio_events.specs.declared.event.Event.TheVariants.{Draw};

use crate::{Event, OutOfMemory, Reply};
use radio_values::MountName;
use std::sync::Wait;

/// A server that several threads ask, each by a pass of its own.
pub trait SharedServer {
    /// What one who asks has, where it may be noted what was applied for it.
    type Pass: Drop;

    ghost use Rattle.radio_events.specs.Servers.{Steps};

    // from one state of its pass the event is answered by the reply, and leaves the other state
    ghost steps: { Steps Self.Pass };

    // in this state of its pass the event may be refused for want of memory
    ghost refuses: { Self.Pass → EventOf → Type 0 };

    /// A pass for one more who asks. `None` if there is none left.
    fn pass<R: Wait>(&self, rt: &R) -> Option<Self::Pass>;

    /// Applies an event for the one who has this pass. `OutOfMemory` if memory was refused; nothing
    /// has changed then.
    fn apply<R: Wait>(
        &self,
        rt: &R,
        pass: &mut Self::Pass,
        event: Event,
    ) -> Result<Reply, OutOfMemory>
        ensures ok { IfOk result (λ reply. steps pass.old event reply pass.new) }
        ensures err { OnErr result (pass.new ≡ pass.old) }
        ensures refused { OnErr result (refuses pass.old event) };

    /// Applies an [`Event::Draw`] of the listener of this number, which has room for so many bytes, for the one who has this
    /// pass. `OutOfMemory` if memory was refused; nothing has changed then.
    fn draw<R: Wait>(
        &self,
        rt: &R,
        pass: &mut Self::Pass,
        id: u64,
        room: u32,
    ) -> Result<Reply, OutOfMemory>
        ensures ok { IfOk result (λ reply. steps pass.old (Draw id room) reply pass.new) }
        ensures err { OnErr result (pass.new ≡ pass.old) }
        ensures refused { OnErr result (refuses pass.old (Draw id room)) }
    {
        self.apply(rt, pass, Event::Draw { id, room })
    }

    /// The mount where the listener of this number sits, or sat last, if it is one. It takes no memory.
    fn last_mount<R: Wait>(&self, rt: &R, id: u64) -> Option<MountName>;

    /// The mounts where somebody sits, which relays feed on demand, in the order of their bytes.
    /// `OutOfMemory` if memory was refused.
    fn wanted<R: Wait>(&self, rt: &R) -> Result<Vec<MountName>, OutOfMemory>;
}
