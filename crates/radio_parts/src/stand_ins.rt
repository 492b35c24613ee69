//! Parts without data that the control has in the place of those that are lent.

ghost use Rattle.std.specs.Prelude.{◌≡◌, IsTrue, MatchOption};
ghost use Rattle.radio_parts.specs.Lending.{IsTakenOut, IsUnattachedPart};

use crate::Control;
use radio_parts_mount::ListedPart;
use radio_values::MountName;

impl Control {
    /// Takes the mount's part out, and leaves this in its place, if it is a part of the mount without data that the same source
    /// feeds; else one is made. Returns `None` if the mount has no part, or memory was refused; nothing has changed then.
    pub fn take_out_for(
        &mut self,
        mount: &MountName,
        stand_in: Option<ListedPart>,
    ) -> Option<ListedPart>
        ensures { MatchOption result (self.new ≡ self.old) (λ part. IsTakenOut mount.now part self.old self.new) }
    {
        match stand_in {
            Some(stand_in) if is_stand_in(&stand_in, mount) => self.exchange_for(mount, stand_in),
            Some(other) => {
                drop(other);
                self.make_and_take(mount)
            }
            None => self.make_and_take(mount),
        }
    }

    /// Takes the mount's part out, and leaves this part without data in its place, if the same source feeds both; else one is made.
    fn exchange_for(&mut self, mount: &MountName, stand_in: ListedPart) -> Option<ListedPart>
        requires { IsUnattachedPart mount.now stand_in }
        ensures { MatchOption result (self.new ≡ self.old) (λ part. IsTakenOut mount.now part self.old self.new) }
    {
        match self.exchange(stand_in) {
            Ok(part) => Some(part),
            Err(other) => {
                drop(other);
                self.make_and_take(mount)
            }
        }
    }

    /// Takes the mount's part out, and leaves a new one without data in its place.
    fn make_and_take(&mut self, mount: &MountName) -> Option<ListedPart>
        ensures { MatchOption result (self.new ≡ self.old) (λ part. IsTakenOut mount.now part self.old self.new) }
    {
        match self.take_out(mount) {
            Ok(part) => part,
            Err(_) => None,
        }
    }
}

/// Returns whether it is a part of the mount to which nobody is attached.
fn is_stand_in(part: &ListedPart, mount: &MountName) -> bool
    ensures { IsTrue result → IsUnattachedPart mount.now part.now }
{
    let part = part.part();
    part.mount == *mount && part.attachments.is_empty() && part.lagged.is_empty()
}
