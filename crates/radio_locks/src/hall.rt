//! The locks of a server.

ghost use Rattle.std.specs.Prelude.{◌≡◌, ◌^◌, [], false, IfOk, IfSome, IfNone, OnErr};
ghost use Rattle.radio_book.specs.ControlLists.{AreWantedThere, HasNoPass, WasThere};
ghost use Rattle.radio_book.specs.MountBooks.{GivesBack};
ghost use Rattle.radio_parts_station.specs.World.{opening};
ghost use Rattle.radio_locks.specs.Callers.{IsResultOfCall, IsResultOfStep, MayBeRefused, OwnGains};
ghost use Rattle.radio_locks.specs.Replies.{IsReplyOrElsewhere};

use crate::OutOfMemory;
use crate::concerned::mount_in;
use crate::locked_control::LockedControl;
use crate::mount_locks::{MountLock, locked};
use radio_access::Lists;
use radio_book::{Chronicle, Origin, Own, Pass, Receipt, leaver_of};
use radio_connections::Gate;
use radio_events::{Asked, Command, Event, Reply, SharedServer};
use radio_settings_values::Settings;
use radio_values::MountName;
use std::alloc::Global;
use std::sync::ledger::Blank;
use std::sync::{Mutex, MutexGuard, Wait};

/// The server that threads call: the book of the control and the book of each mount, each under a lock of its own. What
/// a mount's part does by itself waits for nobody at another mount. The lock of list n is at place n - 1.
#[derive(Drop)]
pub struct Hall<C: Chronicle, H: Origin> {
    pub(crate) alloc: Global,
    pub(crate) queue: u64,
    pub(crate) control: Mutex<LockedControl<C, H>>,
    pub(crate) mounts: boxcar::Vec<MountLock<C>>,
}

impl<C: Chronicle, H: Origin> Hall<C, H> {
    /// Returns a server of these settings and lists, in which nothing has happened yet. If entries are stored, it keeps copies of both
    /// for who settles it. `OutOfMemory` if memory was refused.
    // rule: Legal history
    pub fn new(
        alloc: Global,
        settings: Settings,
        lists: Lists,
        blank: Blank,
    ) -> Result<Hall<C, H>, OutOfMemory>
        requires opening { H.opening ≡ opening settings lists }
        requires ledger { (blank.name ≡ H.name) × (blank.parts ≡ H.parts) × (blank.parts ≡ 2 ^ 32) }
    {
        let queue = queue_of(&settings);
        let control = LockedControl::new(alloc, settings, lists, blank)?;
        match boxcar::Vec::new(alloc) {
            Ok(mounts) => Ok(Hall {
                alloc,
                queue,
                control: Mutex::new(control),
                mounts,
            }),
            Err(refused) => {
                drop(control);
                Err(refused)
            }
        }
    }

    /// Returns a pass with no receipt yet. `None` only once [`PASSES`](radio_book::PASSES) were taken.
    pub fn pass<R: Wait>(&self, rt: &R) -> Option<Pass<C, H>>
        ensures empty { IfSome result (λ pass. pass ≡ []) }
        // there is none only if the control's book, which its entries have made, has no pass left
        ensures none { IfNone result (∥ HasNoPass C.KEEPS H.opening ∥₁) }
    {
        self.control.lock(rt).control.pass()
    }

    /// Returns a pass, as by [`Hall::pass`], without waiting: `None` also if another caller has the control's lock, or another
    /// thread waits for it.
    pub fn try_pass(&self) -> Option<Pass<C, H>>
        ensures { IfSome result (λ pass. pass ≡ []) }
    {
        self.control.try_lock()?.control.pass()
    }

    /// Applies one event and returns its receipt. For workers, who ask for replies alone, there is
    /// [`SharedServer::apply`](radio_events::SharedServer::apply), which copies no event that nobody stores.
    ///
    /// `OutOfMemory` if memory was refused; the pass is unchanged then. If entries are stored, the end of a client that
    /// was let in by this pass, has not left by it and has never fed by it, is never refused. If none are, no end is
    /// ever refused, nor the clock.
    // rule: Receipts
    pub fn apply<R: Wait>(
        &self,
        rt: &R,
        pass: &mut Pass<C, H>,
        event: Event,
    ) -> Result<Receipt, OutOfMemory>
        // a receipt of the event with a legal reply, which the pass gains if entries are stored; or memory was refused
        ensures called { IsResultOfCall C.KEEPS H.opening pass.old event result pass.new }
        // if entries are stored, the end of a client of this pass that has never fed by it is never refused
        // if none are stored, no end is refused, nor the clock
        ensures refused { OnErr result (MayBeRefused C.KEEPS pass.old event) }
    {
        let copy = match event.again() {
            Ok(copy) => copy,
            Err(refused) => {
                drop(event);
                return Err(refused);
            }
        };
        match SharedServer::apply(self, rt, pass, event) {
            Ok(reply) => Ok(pass.receipt(copy, reply)),
            Err(refused) => {
                drop(copy);
                Err(refused)
            }
        }
    }

    /// Applies a block, a title or a draw of this client while nobody else has the control: at the mount where the control knows the
    /// client, which the pass remembers, or by the control.
    pub(crate) fn find<R: Wait>(
        &self,
        rt: &R,
        pass: &mut Pass<C, H>,
        id: u64,
        event: Event,
    ) -> Result<Reply, OutOfMemory>
        ensures { IsResultOfStep C.KEEPS H.opening pass.old event result pass.new }
    {
        let mut locked = self.enter(rt);
        // a worker draws for a silent source too, and the pass keeps where its blocks go
        if matches!(event, Event::Draw { .. }) && locked.feeds(id) {
            return self.apply_by(rt, &mut locked, pass, event);
        }
        let Some(list) = locked.list_of(id) else {
            pass.forget(id);
            return self.apply_by(rt, &mut locked, pass, event);
        };
        match self.try_at(rt, list, pass, event)? {
            Own::Made(reply) => {
                pass.remember(id, list);
                Ok(reply)
            }
            Own::Elsewhere(event) => {
                pass.forget(id);
                self.apply_by(rt, &mut locked, pass, event)
            }
        }
    }

    /// Tries the event at the mount of this list.
    pub(crate) fn try_at<R: Wait>(
        &self,
        rt: &R,
        list: u64,
        pass: &mut Pass<C, H>,
        event: Event,
    ) -> Result<Own, OutOfMemory>
        ensures back { IfOk result (λ own. GivesBack event own) }
        ensures tried { IfOk result (λ own. ∥ IsReplyOrElsewhere H.opening event own ∥₁) }
        ensures gains { IfOk result (λ own. OwnGains C.KEEPS pass.old event own pass.new) }
        ensures unkept { C.KEEPS ≡ false → pass.new ≡ pass.old }
        ensures err { OnErr result (pass.new ≡ pass.old) }
    {
        let Some(lock) = self.lock_of(list) else {
            return Ok(Own::Elsewhere(event));
        };
        let mut guard = locked(rt, lock);
        match &mut *guard {
            Some(book) => book.apply(pass, event),
            None => Ok(Own::Elsewhere(event)),
        }
    }

    /// Applies an event of the control, which is lent the parts that it concerns. `OutOfMemory` if memory was refused, as for a book
    /// of a mount that has none.
    #[tactic(auto, using(crate::proofs::Replies::replied_by))]
    pub(crate) fn apply_by<R: Wait>(
        &self,
        rt: &R,
        locked: &mut LockedControl<C, H>,
        pass: &mut Pass<C, H>,
        event: Event,
    ) -> Result<Reply, OutOfMemory>
        ensures called { IsResultOfStep C.KEEPS H.opening pass.old event result pass.new }
        ensures refused { OnErr result (MayBeRefused C.KEEPS pass.old event) }
    {
        let concerned = locked.concerned(pass, &event);
        let sets_fallback = is_fallback_change(&event);
        let LockedControl {
            control,
            lent,
            lists,
            has_set_fallback,
            ..
        } = locked;
        self.take(rt, lent, concerned);
        let added = self.add_book(rt, lent, lists, mount_in(&event));
        let applied = match added {
            Ok(()) => control.apply(pass, lent.as_mut_slice(), event),
            Err(refused) => {
                drop(event);
                Err(refused)
            }
        };
        self.put_all(rt, lent);
        *has_set_fallback = *has_set_fallback || (sets_fallback && is_text(&applied));
        applied
    }

    /// The control, as soon as nobody else has it.
    pub(crate) fn enter<R: Wait>(&self, rt: &R) -> MutexGuard<'_, LockedControl<C, H>> {
        locked(rt, &self.control)
    }

    /// Returns the mounts where somebody sits, which relays feed on demand, in the order of their bytes. It makes no entry and no
    /// receipt. `OutOfMemory` if memory was refused.
    pub fn wanted<R: Wait>(&self, rt: &R) -> Result<Vec<MountName>, OutOfMemory>
        // they are wanted by a control that its entries have made, over the parts that it was lent
        ensures { IfOk result (λ mounts. ∥ AreWantedThere H.opening mounts.items ∥₁) }
    {
        let mut locked = self.enter(rt);
        let LockedControl { control, lent, .. } = &mut *locked;
        self.take_all(rt, lent);
        let wanted = control.wanted(lent.as_mut_slice());
        self.put_all(rt, lent);
        wanted
    }

    /// Returns the mount where the listener of this number sits, or sat last, if there is one. It makes no entry and no receipt, and
    /// takes no memory.
    pub fn last_mount<R: Wait>(&self, rt: &R, id: u64) -> Option<MountName>
        ensures { ∥ WasThere H.opening id result ∥₁ }
    {
        self.enter(rt).control.last_mount(id)
    }

    /// Holds the lock of this mount, or the control's if none is named, while it calls the gate: `hold(0)`, then `let_go(0)`. It takes no
    /// lock and calls nothing for a mount that has no book. It is for tests of what goes on meanwhile.
    pub fn freeze<R: Wait, G: Gate>(&self, rt: &R, mount: Option<MountName>, gate: &G) {
        match mount {
            Some(mount) => self.freeze_mount(rt, &mount, gate),
            None => {
                let locked = self.enter(rt);
                gate.hold(0);
                gate.let_go(0);
                drop(locked);
            }
        }
    }

    fn freeze_mount<R: Wait, G: Gate>(&self, rt: &R, mount: &MountName, gate: &G) {
        let Some(list) = self.enter(rt).lists.get(mount) else {
            return;
        };
        let Some(lock) = self.lock_of(list) else {
            return;
        };
        let book = locked(rt, lock);
        gate.hold(0);
        gate.let_go(0);
        drop(book);
    }
}

/// Returns how many bytes of a stream are kept at least.
fn queue_of(settings: &Settings) -> u64 {
    settings.limits.queue_size.get() as u64
}

/// Returns whether a text was replied, as to a command that was done.
fn is_text(applied: &Result<Reply, OutOfMemory>) -> bool {
    matches!(applied, Ok(Reply::Text(_)))
}

/// Returns whether the event asks for another fallback of a mount.
fn is_fallback_change(event: &Event) -> bool {
    let Event::Command(asked) = event else {
        return false;
    };
    matches!(&asked.asked, Asked::Command(Command::SetFallback { .. }))
}

/// Forgets the mount of the client or relay whose connection the event closes, if it closes one.
pub(crate) fn forget_leaver<C: Chronicle, H: Origin>(pass: &mut Pass<C, H>, event: &Event)
    ensures { pass.new ≡ pass.old }
{
    if let Some(gone) = leaver_of(event) {
        pass.forget(gone.id());
    }
}
