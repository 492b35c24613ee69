//! Users of a mount, who are set and taken away while listeners sit there.

ghost use Rattle.std.specs.Prelude.{◌≡◌, IfOk, OnOk, OnErr};
ghost use Rattle.radio_parts_changes.specs.Changes.{outsiders_ended, user_added, user_deleted};
ghost use Rattle.radio_parts_changes.specs.Counts.{counts_out};

use crate::OutOfMemory;
use crate::state::ServerState;
use radio_fallback::Carried;
use radio_values::MountName;
use std::alloc::Global;

impl ServerState {
    /// The users of the mount let this one in with this password from now on, and those lose their
    /// seats there whom they do not let in; how many they are. `OutOfMemory` if memory was
    /// refused; nothing has changed then.
    pub(crate) fn add_user(
        &mut self,
        alloc: Global,
        mount: &MountName,
        user: &[u8],
        password: &[u8],
    ) -> Result<Carried, OutOfMemory>
        ensures ok { OnOk result (self.new ≡ outsiders_ended (user_added self.old mount.now user.now password.now) mount.now) }
        ensures counts { IfOk result (λ counts. counts ≡ counts_out (user_added self.old mount.now user.now password.now) mount.now) }
        ensures err { OnErr result (self.new ≡ self.old) }
    {
        self.registry.add_user(alloc, mount, user, password)?;
        Ok(self.end_outsiders(mount))
    }

    /// The users of the mount let this one in no more, and those lose their seats there whom they do
    /// not let in; how many they are. It takes no memory.
    pub(crate) fn delete_user(&mut self, mount: &MountName, user: &[u8]) -> Carried
        ensures state { self.new ≡ outsiders_ended (user_deleted self.old mount.now user.now) mount.now }
        ensures counts { result ≡ counts_out (user_deleted self.old mount.now user.now) mount.now }
    {
        self.registry.delete_user(mount, user);
        self.end_outsiders(mount)
    }

    /// Those lose their seats at the mount whom its users do not let in; how many they are.
    fn end_outsiders(&mut self, mount: &MountName) -> Carried
        ensures state { self.new ≡ outsiders_ended self.old mount.now }
        ensures counts { result ≡ counts_out self.old mount.now }
    {
        Carried {
            moved: 0,
            ended: self.registry.end_outsiders(&mut self.listeners, mount),
        }
    }
}
