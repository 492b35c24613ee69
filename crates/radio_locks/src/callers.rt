//! A hall, as its callers ask it. Read `apply` first.

ghost use Rattle.std.specs.Prelude.{◌≡◌, [], IfOk, IfSome, IfNone};
ghost use Rattle.radio_book.specs.ControlLists.{AreWantedThere, HasNoPass, WasThere};

use crate::concerned::own_client;
use crate::hall::forget_leaver;
use crate::{Hall, OutOfMemory};
use radio_book::{Chronicle, Origin, Own, Pass};
use radio_events::{Event, Reply, SharedServer};
use radio_values::MountName;
use std::sync::Wait;

impl<C: Chronicle, H: Origin> SharedServer for Hall<C, H> {
    type Pass = Pass<C, H>;

    ghost use Rattle.radio_locks.specs.Callers.{IsCalled, MayBeRefused};

    ghost steps = { IsCalled C.KEEPS H.opening };

    ghost refuses = { MayBeRefused C.KEEPS };

    fn pass<R: Wait>(&self, rt: &R) -> Option<Pass<C, H>>
        ensures empty { IfSome result (λ pass. pass ≡ []) }
        ensures none { IfNone result (∥ HasNoPass C.KEEPS H.opening ∥₁) }
    {
        Hall::pass(self, rt)
    }

    /// Applies one event. A draw of a listener that is attached to a mount, and a block or a title of a mount's source, are applied
    /// by the mount's part alone, under its lock: first where the client was attached last. Each other event is applied by the
    /// control, which is lent the parts that it concerns. The pass gains the receipt if entries are stored; if they are not, the event
    /// is not copied.
    // rule: Legal history; Reserved ends; Order of calls
    fn apply<R: Wait>(
        &self,
        rt: &R,
        pass: &mut Pass<C, H>,
        event: Event,
    ) -> Result<Reply, OutOfMemory> {
        let Some(id) = own_client(&event) else {
            forget_leaver(pass, &event);
            let mut locked = self.enter(rt);
            return self.apply_by(rt, &mut locked, pass, event);
        };
        let Some(list) = pass.list_of(id) else {
            return self.find(rt, pass, id, event);
        };
        match self.try_at(rt, list, pass, event)? {
            Own::Made(reply) => Ok(reply),
            Own::Elsewhere(event) => self.find(rt, pass, id, event),
        }
    }

    // rule: Legal history
    fn draw<R: Wait>(
        &self,
        rt: &R,
        pass: &mut Pass<C, H>,
        id: u64,
        room: u32,
    ) -> Result<Reply, OutOfMemory> {
        if C::KEEPS {
            SharedServer::apply(self, rt, pass, Event::Draw { id, room })
        } else {
            // nothing notes it, so it needs no event
            self.draw_unkept(rt, pass, id, room)
        }
    }

    // rule: Last mount
    fn last_mount<R: Wait>(&self, rt: &R, id: u64) -> Option<MountName>
        ensures { ∥ WasThere H.opening id result ∥₁ }
    {
        Hall::last_mount(self, rt, id)
    }

    // rule: Pulls on demand
    fn wanted<R: Wait>(&self, rt: &R) -> Result<Vec<MountName>, OutOfMemory>
        ensures { IfOk result (λ mounts. ∥ AreWantedThere H.opening mounts.items ∥₁) }
    {
        Hall::wanted(self, rt)
    }
}
