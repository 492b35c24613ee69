//! Parts of mounts that are lent, and taken back.

ghost use Rattle.std.specs.Prelude.{◌≡◌, Err, IfOk, OnErr, MatchOption};
ghost use Rattle.radio_parts_changes.specs.Lent.{IsLentTo};
ghost use Rattle.radio_parts.specs.Lending.{IsTakenOut, IsUnattachedPart};
ghost use Rattle.radio_parts_table.specs.Exchange.{IsUnfit};

use crate::OutOfMemory;
use crate::control::Control;
use radio_parts_mount::{ListedPart, MountPart, Session};
use radio_values::{MountName, Shown};

impl Control {
    /// Makes each part that is created from now on keep a list of what happens to it.
    pub fn keep_lists(&mut self)
        ensures { self.new ≡ self.old }
    {
        self.state.keep_lists(self.alloc);
    }

    /// Puts a mount's part in the place of the one that is here, and returns that one. A listener that lagged out
    /// there, and still has its seat, loses it. It takes no memory.
    ///
    /// `Err` has the part itself, and nothing has changed, if the two parts have not the same source, or one has a
    /// source and the other none.
    pub fn exchange(&mut self, part: ListedPart) -> Result<ListedPart, ListedPart>
        ensures ok { IfOk result (λ there. IsLentTo part there self.old self.new) }
        ensures back { OnErr result (result ≡ Err part) }
        ensures unfit { OnErr result (IsUnfit part self.old.station.live) }
        ensures err { OnErr result (self.new ≡ self.old) }
    {
        self.due_from = self.due_from.min(self.state.part_due(&part));
        self.state.exchange(part)
    }

    /// Takes out the mount's part, and leaves one without data in its place, with the same source. Returns `None` if
    /// the mount has no part; nothing has changed then.
    ///
    /// `OutOfMemory` if memory was refused; nothing has changed then.
    pub fn take_out(&mut self, mount: &MountName) -> Result<Option<ListedPart>, OutOfMemory>
        ensures out { IfOk result (λ out. MatchOption out (self.new ≡ self.old) (λ part. IsTakenOut mount.now part self.old self.new)) }
        ensures err { OnErr result (self.new ≡ self.old) }
    {
        let stand_in = self.stand_in(mount)?;
        match self.exchange(ListedPart::unlisted(stand_in)) {
            Ok(part) => Ok(Some(part)),
            Err(stand_in) => {
                drop(stand_in);
                Ok(None)
            }
        }
    }

    /// Returns a part of the mount without data, which the same source feeds, if one does.
    /// `OutOfMemory` if memory was refused.
    fn stand_in(&self, mount: &MountName) -> Result<MountPart, OutOfMemory>
        ensures { IfOk result (λ part. IsUnattachedPart mount.now part) }
    {
        let Some(session) = self.station().session(mount) else {
            return Ok(MountPart::new(*mount));
        };
        let nothing = b"".as_slice();
        let shown = Shown::clean(self.alloc, nothing, nothing, nothing)?;
        let session = Session::new(
            self.alloc,
            *mount,
            session.number,
            shown,
            session.last_block,
        )?;
        let mut part = MountPart::new(*mount);
        part.session = Some(session);
        Ok(part)
    }
}
