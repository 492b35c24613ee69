//! The sessions of the live mounts.

ghost use Rattle.std.specs.Prelude.{◌≡◌, true, IfOk, OnOk, OnErr};
ghost use Rattle.radio_parts_mount.specs.Kept.{kept_fed};
ghost use Rattle.radio_parts_mount.specs.StatePart.{ends_in};
ghost use Rattle.radio_parts_mount.specs.Sessions.{titled, with_session, without_session};
ghost use Rattle.radio_seats_rows.specs.SeatTable.{is_prepared};

use crate::{Listeners, MountParts, OutOfMemory};
use radio_blocks::Block;
use radio_parts_mount::NewSession;
use radio_values::{MountName, Title};

impl Listeners {
    /// Returns the parts of the mounts, with their sessions.
    pub fn parts(&self) -> &MountParts
        ensures { result.now.live ≡ self.now.live }
    {
        &self.parts
    }

    /// Begins this session on its mount. It takes no memory.
    pub fn open(&mut self, session: NewSession)
        requires { is_prepared self.old.prepared session.mount ≡ true }
        ensures { self.new ≡ record self.old { live = with_session self.old.live session } }
    {
        self.parts.open(session);
    }

    /// Ends the mount's session, if it has one. It takes no memory.
    pub fn close(&mut self, mount: &MountName)
        ensures { self.new ≡ record self.old { live = without_session self.old.live mount.now } }
    {
        self.parts.close(mount);
    }

    /// Sets the title of what the mount's source feeds, if it is live. It takes no memory.
    pub fn set_title(&mut self, mount: &MountName, title: Title)
        ensures { self.new ≡ record self.old { live = titled self.old.live mount.now title } }
    {
        self.parts.set_title(mount, title);
    }

    /// Adds a block to the stream of the mount's session at this moment, in milliseconds, and returns
    /// where the stream ends then, in bytes; 0 if the mount is not live. The last blocks are kept,
    /// so many bytes or more. `OutOfMemory` if memory was refused; nothing has changed then.
    pub fn receive(
        &mut self,
        mount: &MountName,
        block: &Block,
        moment: u64,
        limit: u64,
    ) -> Result<u64, OutOfMemory>
        ensures ok { OnOk result (self.new ≡ record self.old { live = kept_fed limit self.old.live mount.now block.now moment }) }
        ensures end { IfOk result (λ end. end ≡ ends_in (kept_fed limit self.old.live mount.now block.now moment) mount.now) }
        ensures err { OnErr result (self.new ≡ self.old) }
    {
        self.parts.receive(mount, block, moment, limit)
    }
}
