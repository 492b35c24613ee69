//! Draws without events.

ghost use Rattle.std.specs.Prelude.{◌≡◌, false, IfOk};
ghost use Rattle.radio_events.specs.declared.event.Event.TheVariants.{Draw};
ghost use Rattle.radio_locks.specs.Callers.{IsResultOfStep};
ghost use Rattle.radio_locks.specs.Replies.{IsReplied, IsRepliedIf};

use crate::mount_locks::locked;
use crate::{Hall, OutOfMemory};
use radio_book::{Chronicle, Origin, Pass};
use radio_events::{Event, Reply};
use std::sync::Wait;

impl<C: Chronicle, H: Origin> Hall<C, H> {
    /// Draws for this client, which has room for so many bytes, as [`Hall::apply`], if nothing is stored: first where it was attached
    /// last. `OutOfMemory` if memory was refused.
    pub(crate) fn draw_unkept<R: Wait>(
        &self,
        rt: &R,
        pass: &mut Pass<C, H>,
        id: u64,
        room: u32,
    ) -> Result<Reply, OutOfMemory>
        requires { C.KEEPS ≡ false }
        ensures legal { IfOk result (λ reply. ∥ IsReplied H.opening (Draw id room) reply ∥₁) }
        ensures pass { pass.new ≡ pass.old }
    {
        if let Some(list) = pass.list_of(id) {
            // the reply is large, and moved once
            match self.draw_at(rt, list, id, room) {
                Ok(Some(reply)) => return Ok(reply),
                Ok(None) => (),
                Err(refused) => return Err(refused),
            }
        }
        self.find_draw(rt, pass, id, room)
    }

    /// Draws for a client that the pass does not know, or that has left the mount that the pass knows. Listeners are often moved
    /// together, so it is tried where another was found last, and then where the control knows it, as [`Hall::find`]. Few draws come
    /// here, so their event is made here.
    #[cold]
    #[inline(never)]
    fn find_draw<R: Wait>(
        &self,
        rt: &R,
        pass: &mut Pass<C, H>,
        id: u64,
        room: u32,
    ) -> Result<Reply, OutOfMemory>
        requires { C.KEEPS ≡ false }
        ensures legal { IfOk result (λ reply. ∥ IsReplied H.opening (Draw id room) reply ∥₁) }
        ensures pass { pass.new ≡ pass.old }
    {
        if let Some(list) = pass.recent_list() {
            if let Some(reply) = self.draw_at(rt, list, id, room)? {
                pass.remember(id, list);
                return Ok(reply);
            }
        }
        self.find(rt, pass, id, Event::Draw { id, room })
    }

    /// Tries the draw at the mount of this list. It has two callers, and each move of its reply would cost as much as a look-up.
    #[inline(always)]
    fn draw_at<R: Wait>(
        &self,
        rt: &R,
        list: u64,
        id: u64,
        room: u32,
    ) -> Result<Option<Reply>, OutOfMemory>
        requires { C.KEEPS ≡ false }
        ensures { IfOk result (λ reply. ∥ IsRepliedIf H.opening (Draw id room) reply ∥₁) }
    {
        let Some(lock) = self.lock_of(list) else {
            return Ok(None);
        };
        let mut guard = locked(rt, lock);
        let Some(book) = &mut *guard else {
            return Ok(None);
        };
        book.draw(id, room)
    }
}
