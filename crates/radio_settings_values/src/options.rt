//! What holds for one mount.
use crate::{MountOptions, Settings};
use radio_values::MountName;

impl Settings {
    ghost use Rattle.std.specs.Prelude.{◌≡◌};
    ghost use Rattle.radio_settings_values.specs.Options.{options_for};

    /// What holds for a mount: what its table `[[mount]]` sets, or all defaults where it has none.
    // rule: Reading settings
    pub fn options(&self, mount: &MountName) -> &MountOptions
        ensures { result.now ≡ options_for self.now mount.now }
    {
        match self.mounts.get(mount) {
            Some(mount) => &mount.options,
            None => &self.other_mounts,
        }
    }
}
