//! The parts of all mounts.

ghost use Rattle.std.specs.Prelude.{◌≡◌, [], true, None, map, OnOk, OnErr, IfOk};
ghost use Rattle.std.specs.Option.{option_copied};
ghost use Rattle.radio_parts_mount.specs.Kept.{kept_fed, longer_kept};
ghost use Rattle.radio_parts_mount.specs.StatePart.{end_in, ends_in};
ghost use Rattle.radio_parts_mount.specs.Sessions.{session_of, titled, with_session, without_session};
ghost use Rattle.radio_parts_table.specs.Parts.{live_in, has_part, AreNamed};
ghost use Rattle.radio_parts_mount.specs.Parts.{is_part_of, with_session_changed};
ghost use Rattle.radio_parts_mount.specs.declared.part.MountPart.{MountPart as PartOf};
ghost use Rattle.radio_tables.specs.Lists.{update_first};
ghost use Rattle.std.specs.Cmp.Lexicographic.{slice_cmp};
ghost use Rattle.std.specs.List.Sorted.{IsStrictlySortedBy};
ghost use Rattle.std.specs.Ordering.{nat_cmp};

use crate::OutOfMemory;
use crate::changes::{Delivers, SessionSwap, TitleSwap};
use radio_blocks::{Block, Place};
use radio_parts_mount::{ListedPart, MountPart, NewSession, Session};
use radio_tables::Table;
use radio_values::{MountName, Title};
use std::alloc::Global;
use std::marker::Model;

/// The parts of all mounts that are live, or to which listeners can be attached. Contracts see the
/// live mounts' sessions, and who is attached to each mount.
#[derive(Drop)]
pub struct MountParts {
    pub(crate) parts: Table<ListedPart>,
    /// No session's stream goes further than this.
    pub(crate) furthest: u64,
    /// How parts keep lists, if they do.
    pub(crate) listing: Option<ListKeeping>,
}

/// How parts keep lists.
#[derive(Clone, Copy)]
pub(crate) struct ListKeeping {
    pub(crate) alloc: Global,
    /// How many bytes of a stream are kept at least.
    pub(crate) queue: u64,
}

impl Model for MountParts {
    ghost use Rattle.radio_parts_mount.specs.Sessions.{GoNoFurther};
    ghost use Rattle.radio_parts_table.specs.Parts.{ByMount, by_mount_of, live_in, AreNamed};

    ghost Value = { ByMount };

    ghost view = { λ p. by_mount_of p.parts };

    ghost invariant = { λ p. GoNoFurther p.furthest (live_in p.parts) × AreNamed p.parts };
}

impl MountParts {
    /// Returns no parts. It takes no memory.
    pub fn new(alloc: Global) -> MountParts
        ensures { result ≡ record { live = []; attached = [] } }
    {
        MountParts {
            parts: Table::new(alloc),
            furthest: 0,
            listing: None,
        }
    }

    /// Each part that is made from now on keeps a list of what happens to it. Of a stream at least so many bytes will be kept.
    pub fn keep_lists(&mut self, alloc: Global, queue: u64)
        ensures { self.new ≡ self.old }
    {
        self.listing = Some(ListKeeping { alloc, queue });
    }

    /// Returns the part of a mount that is not live, and to which nobody is attached.
    pub(crate) fn new_part(&self, mount: MountName) -> ListedPart
        ensures { result ≡ record { mount = mount; session = None; attachments = []; lagged = [] } }
    {
        match self.listing {
            Some(ListKeeping { alloc, queue }) => ListedPart::listed(alloc, mount, queue),
            None => ListedPart::unlisted(MountPart::new(mount)),
        }
    }

    /// Returns the session of the mount, if it is live.
    pub fn session(&self, mount: &MountName) -> Option<&Session>
        ensures { option_copied result ≡ session_of self.now.live mount.now }
    {
        // the parts are in the order of their mounts
        let _ = self.parts.len();
        let Some(part) = self.parts.get(mount) else {
            return None;
        };
        part.session()
    }

    /// Returns the place behind the last byte of the stream of the mount's session; 0 if the mount is
    /// not live.
    pub fn stream_end(&self, mount: &MountName) -> Place
        ensures { result ≡ ends_in self.now.live mount.now }
    {
        match self.session(mount) {
            Some(session) => Place::new(session.stream.end()),
            None => Place::new(0),
        }
    }

    /// Begins this session on its mount. It takes no memory.
    pub fn open(&mut self, session: NewSession)
        requires { has_part self.old.attached session.mount ≡ true }
        ensures { self.new ≡ record self.old { live = with_session self.old.live session } }
    {
        // the parts are in the order of their mounts
        let _ = self.parts.len();
        let mount = session.mount();
        self.furthest = self.furthest.max(session.stream_end());
        let mut swap = SessionSwap {
            session: Some(session),
        };
        self.parts.swap(&mount, &mut swap);
    }

    /// Ends the mount's session, if it has one. It takes no memory.
    pub fn close(&mut self, mount: &MountName)
        ensures { self.new ≡ record self.old { live = without_session self.old.live mount.now } }
    {
        // the parts are in the order of their mounts
        let _ = self.parts.len();
        let mut swap = SessionSwap { session: None };
        self.parts.swap(mount, &mut swap);
    }

    /// Sets the title of what the mount's source feeds, if it is live. It takes no memory.
    pub fn set_title(&mut self, mount: &MountName, title: Title)
        ensures { self.new ≡ record self.old { live = titled self.old.live mount.now title } }
    {
        // the parts are in the order of their mounts
        let _ = self.parts.len();
        let mut swap = TitleSwap { title: Some(title) };
        self.parts.swap(mount, &mut swap);
    }

    /// Adds a block to the stream of the mount's session at this moment, in milliseconds, and returns
    /// where the stream ends then, in bytes; 0 if the mount is not live. The last blocks are kept,
    /// so many bytes or more. The mount is looked up once. `OutOfMemory` if memory was refused;
    /// nothing has changed then.
    pub fn receive(
        &mut self,
        mount: &MountName,
        block: &Block,
        moment: u64,
        limit: u64,
    ) -> Result<u64, OutOfMemory>
        ensures ok { OnOk result (self.new ≡ record self.old { live = kept_fed limit self.old.live mount.now block.now moment }) }
        ensures end { IfOk result (λ end. end ≡ end_in (session_of (kept_fed limit self.old.live mount.now block.now moment) mount.now)) }
        ensures err { OnErr result (self.new ≡ self.old) }
    {
        let end = deliver(&mut self.parts, mount, block, moment, limit)?;
        self.furthest = self.furthest.max(end);
        Ok(end)
    }
}

/// Adds a block to the stream of the mount's session at this moment, and returns where the stream ends
/// then; 0 if the mount is not live. `OutOfMemory` if memory was refused; nothing has changed then.
fn deliver(
    parts: &mut Table<ListedPart>,
    mount: &MountName,
    block: &Block,
    moment: u64,
    limit: u64,
) -> Result<u64, OutOfMemory>
    requires { AreNamed parts.old }
    ensures ok { OnOk result (parts.new ≡ update_first (is_part_of mount.now) (with_session_changed (longer_kept limit block.now moment)) parts.old) }
    ensures end { IfOk result (λ end. end ≡ end_in (session_of (kept_fed limit (live_in parts.old) mount.now block.now moment) mount.now)) }
    ensures rising { IsStrictlySortedBy (slice_cmp nat_cmp) (map (λ (part : PartOf). part.mount) parts.old) }
    ensures err { OnErr result (parts.new ≡ parts.old) }
{
    // the parts are in the order of their mounts
    let _ = parts.len();
    let mut delivers = Delivers { moment, limit };
    match parts.visit(mount, &mut delivers, block) {
        Some(delivered) => delivered,
        None => Ok(0),
    }
}
