//! What the control's lock guards.

ghost use Rattle.std.specs.Prelude.{◌≡◌, ◌^◌, ℕ, true, false, vec_len};
ghost use Rattle.radio_book.specs.Receipts.{has_fed};
ghost use Rattle.radio_events.specs.declared.event.Event.TheVariants.{Leave};
ghost use Rattle.radio_locks.specs.Concerned.{IsOneAtMost};
ghost use Rattle.radio_parts_station.specs.World.{opening};

use crate::OutOfMemory;
use crate::concerned::Concerned;
use crate::mount_lists::MountLists;
use crate::opening::Opening;
use radio_access::Lists;
use radio_book::{Book, Chronicle, MountBook, Origin, Pass};
use radio_events::Event;
use radio_settings_values::Settings;
use std::alloc::Global;
use std::sync::ledger::Blank;

/// The control's book, the books that are lent, of which there is none whenever the lock is free, the list of each mount that has a
/// book, and with what the hall was opened.
#[derive(Drop)]
pub(crate) struct LockedControl<C: Chronicle, H: Origin> {
    pub(crate) control: Book<C, H>,
    pub(crate) lent: Vec<MountBook<C>>,
    pub(crate) lists: MountLists,
    /// Whether a command has set the fallback of a mount.
    pub(crate) has_set_fallback: bool,
    pub(crate) opened: Opening<C, H>,
    pub(crate) ghost none: { vec_len lent ≡ 0 },
}

impl<C: Chronicle, H: Origin> LockedControl<C, H> {
    /// Returns a control of these settings and lists, to which nothing has happened yet. `OutOfMemory` if memory was refused.
    // rule: Legal history
    pub(crate) fn new(
        alloc: Global,
        settings: Settings,
        lists: Lists,
        blank: Blank,
    ) -> Result<LockedControl<C, H>, OutOfMemory>
        requires opening { H.opening ≡ opening settings lists }
        requires ledger { (blank.name ≡ H.name) × (blank.parts ≡ H.parts) × (blank.parts ≡ 2 ^ 32) }
    {
        match Opening::new(&settings, &lists) {
            Ok(opened) => Ok(LockedControl {
                control: Book::new(alloc, settings, lists, blank),
                lent: Vec::new(alloc),
                lists: MountLists::new(alloc),
                has_set_fallback: false,
                opened,
            }),
            Err(refused) => {
                drop(settings);
                drop(lists);
                drop(blank);
                Err(refused)
            }
        }
    }

    /// Returns the list of the mount that the client or relay feeds, or where it sits, or sat last, if there is one.
    pub(crate) fn list_of(&self, id: u64) -> Option<u64> {
        let mount = self.control.place_of(id)?;
        self.lists.get(&mount)
    }

    /// Returns the mounts whose parts are lent to the event. A client that has never fed by this pass leaves with one part at
    /// most, if entries are stored.
    pub(crate) fn concerned(&self, pass: &Pass<C, H>, event: &Event) -> Concerned
        ensures { (id : ℕ) → event.now ≡ Leave id → C.KEEPS ≡ true → has_fed id pass.now ≡ false → IsOneAtMost result }
    {
        match event {
            Event::Arrive { .. } => Concerned::Nobody,
            Event::Push { id, .. } | Event::Title { id, .. } => self.concerned_by(*id),
            Event::Draw { id, .. } => self.concerned_by_draw(*id),
            Event::Leave { id } => self.concerned_by_end(pass, *id),
            Event::SourceEnd { id } | Event::RelayDown { id } => self.reached_by_end(*id),
            Event::Source(asked) => self.reached_by_start(asked.mount.as_slice(), Some(asked.id)),
            Event::RelayUp { mount, .. } => self.reached_by_start(mount.as_slice(), None),
            Event::Listen(asked) => self.reached_by_walk(asked),
            Event::Command(asked) => self.reached_by_command(&asked.asked, asked.id),
            Event::Clock { .. } => Concerned::All,
        }
    }

    /// The mount of a client that is looked at.
    fn concerned_by(&self, id: u64) -> Concerned
        ensures { IsOneAtMost result }
    {
        match self.list_of(id) {
            Some(list) => Concerned::One(list),
            None => Concerned::Nobody,
        }
    }

    /// The mount of a client that draws; none of one that feeds a mount, which is given nothing whatever has happened there.
    fn concerned_by_draw(&self, id: u64) -> Concerned
        ensures { IsOneAtMost result }
    {
        if self.feeds(id) {
            return Concerned::Nobody;
        }
        self.concerned_by(id)
    }

    /// Returns whether the client or relay feeds a mount.
    pub(crate) fn feeds(&self, id: u64) -> bool {
        self.control.fed_mount(id).is_some()
    }

    /// What the end of its session reaches, if one ends with the client.
    fn concerned_by_end(&self, pass: &Pass<C, H>, id: u64) -> Concerned
        ensures { C.KEEPS ≡ true → has_fed id pass.now ≡ false → IsOneAtMost result }
    {
        if self.feeds(id) && (!C::KEEPS || pass.has_fed(id)) {
            return self.reached_by_end(id);
        }
        self.concerned_by(id)
    }
}
