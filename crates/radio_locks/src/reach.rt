//! The mounts that an event of the control can reach.

use crate::concerned::Concerned;
use crate::list_numbers::ListNumbers;
use crate::locked_control::LockedControl;
use radio_book::{Chronicle, Origin};
use radio_events::{Asked, Command, ListenRequest, Listing};
use radio_settings_values::{ListenerOptions, WebPath};
use radio_values::MountName;

/// The longest chain of fallbacks whose mounts are looked up one by one.
const MOST_FALLBACKS: usize = 10;

/// The lists of the mounts that were found so far.
#[derive(Drop)]
struct Reach {
    lists: ListNumbers,
    /// Whether they are too many, or unknown.
    is_all: bool,
}

impl Reach {
    /// Returns that no mount was found yet. It takes no memory.
    fn new() -> Reach {
        Reach {
            lists: ListNumbers::new(),
            is_all: false,
        }
    }

    /// Adds the mount of this list; of a mount that has none the control has the part itself. Returns whether it was not there.
    fn add(&mut self, list: Option<u64>) -> bool {
        let Some(list) = list else {
            return true;
        };
        if self.lists.has(list) {
            return false;
        }
        if !self.lists.add(list) {
            self.is_all = true;
        }
        true
    }

    /// Returns the mounts whose parts are lent to an event that reaches these mounts.
    fn concerned(self) -> Concerned {
        let Reach { lists, is_all } = self;
        if is_all {
            drop(lists);
            return Concerned::All;
        }
        Concerned::Few(lists)
    }
}

impl<C: Chronicle, H: Origin> LockedControl<C, H> {
    /// Returns the mounts that a source or a relay reaches when it starts to feed this mount, and the mount where its client sat
    /// last, if it is one. It reaches all if it calls its listeners home, since these may sit at any mount.
    pub(crate) fn reached_by_start(&self, path: &[u8], id: Option<u64>) -> Concerned {
        let mut reach = Reach::new();
        if let Some(mount) = MountName::read(path) {
            if self.listeners(&mount).fallback_override || self.lists.get(&mount).is_none() {
                return Concerned::All;
            }
            self.add_mount(&mut reach, &mount);
        }
        if let Some(id) = id {
            self.add_last(&mut reach, id);
        }
        reach.concerned()
    }

    /// Returns what the end of the client's or relay's session reaches, if it feeds a mount, or where it sat last.
    pub(crate) fn reached_by_end(&self, id: u64) -> Concerned {
        let mut reach = Reach::new();
        if let Some(mount) = self.control.fed_mount(id) {
            self.add_chain(&mut reach, &mount);
        }
        self.add_last(&mut reach, id);
        reach.concerned()
    }

    /// Returns what a walk from the mount reaches that the client asks for. All, if it is shown what Icecast answers of all mounts,
    /// or the mount has no book yet: a spare one is looked for then.
    pub(crate) fn reached_by_walk(&self, asked: &ListenRequest) -> Concerned {
        let path = asked.mount.as_slice();
        let mut reach = Reach::new();
        if let Some(mount) = MountName::read(path) {
            if self.shows_all(path) || self.lists.get(&mount).is_none() {
                return Concerned::All;
            }
            self.add_chain(&mut reach, &mount);
        }
        self.add_last(&mut reach, asked.id);
        reach.concerned()
    }

    /// Returns what the command reaches, or the listing shows, that this client asks for.
    pub(crate) fn reached_by_command(&self, asked: &Asked, id: u64) -> Concerned {
        let mut reach = Reach::new();
        match asked {
            Asked::NoCommand | Asked::MissingArgument(_) => {}
            Asked::Listing(Listing::Clients(mount)) => self.add_mount(&mut reach, mount),
            Asked::Listing(Listing::Status | Listing::Stats | Listing::Mounts | Listing::Streams) =>
                return Concerned::All,
            Asked::Command(command) => self.add_commanded(&mut reach, command),
        }
        self.add_last(&mut reach, id);
        reach.concerned()
    }

    fn add_commanded(&self, reach: &mut Reach, command: &Command) {
        match command {
            Command::MoveClients { mount, destination } => {
                self.add_mount(reach, mount);
                self.add_mount(reach, destination);
            }
            Command::KillSource { mount } => self.add_chain(reach, mount),
            Command::KillClient { mount, .. }
            | Command::SetTitle { mount, .. }
            | Command::AddUser { mount, .. }
            | Command::DeleteUser { mount, .. } => self.add_mount(reach, mount),
            Command::SetFallback { .. } => {}
        }
    }

    fn add_mount(&self, reach: &mut Reach, mount: &MountName) {
        let _ = reach.add(self.lists.get(mount));
    }

    /// Adds the mount where the client sits, or sat last, if there is one.
    fn add_last(&self, reach: &mut Reach, id: u64) {
        if let Some(mount) = self.control.last_mount(id) {
            self.add_mount(reach, &mount);
        }
    }

    /// Adds the mount and those to which its listeners fall back, one after another. It adds all if a command has set a
    /// fallback, since the new fallback is unknown here.
    fn add_chain(&self, reach: &mut Reach, from: &MountName) {
        reach.is_all = reach.is_all || self.has_set_fallback;
        let mut mount = *from;
        for _ in 0..MOST_FALLBACKS {
            if !reach.add(self.lists.get(&mount)) {
                return;
            }
            let Some(next) = self.listeners(&mount).fallback_mount else {
                return;
            };
            mount = next;
        }
        reach.is_all = true;
    }

    /// Returns what holds for the listeners of this mount.
    fn listeners(&self, mount: &MountName) -> &ListenerOptions {
        &self.control.settings().options(mount).listeners
    }

    /// Returns whether what Icecast answers of all mounts is shown at this path.
    fn shows_all(&self, path: &[u8]) -> bool {
        match self.control.settings().web.path(path) {
            Some(WebPath::IcecastStatus) => true,
            Some(WebPath::Page) | None => false,
        }
    }
}
