//! Where listeners are attached.

ghost use Rattle.std.specs.Prelude.{◌≡◌, ℕ, Bool, true, List, Option};
ghost use Rattle.radio_fallback.specs.Heard.{OthersStay, IsAt, GoesOver, GoesOff};
ghost use Rattle.radio_parts_mount.specs.StatePart.{ends_in};
ghost use Rattle.radio_parts_mount.specs.Sessions.{Session};

use radio_blocks::Place;
use radio_values::MountName;

/// The mounts where listeners are attached, each with the place up to which it has heard the stream
/// there, and where the streams of these mounts end.
pub trait Attachments {
    // How far each listener has heard at a mount, if it is attached there.
    ghost places: { Self → List ℕ → ℕ → Option ℕ };

    // Whether a listener can be attached to a mount.
    ghost has_part: { Self → List ℕ → Bool };

    // The sessions of the live mounts, whose streams end somewhere.
    ghost live: { Self → List Session };

    /// Moves the listener's attachment from one mount to the end of the other's stream, and returns
    /// that place. It takes no memory.
    fn shift(&mut self, id: u64, from: &MountName, to: &MountName) -> Place
        ensures end { result ≡ ends_in (live self.old) to.now }
        ensures others { OthersStay (places self.old) (places self.new) id }
        ensures there { IsAt (places self.new to.now id) (ends_in (live self.old) to.now) }
        ensures over { has_part self.old to.now ≡ true → GoesOver (places self.old) (places self.new) id from.now to.now }
        ensures parts { (mount : _) → has_part self.new mount ≡ has_part self.old mount }
        ensures live { live self.new ≡ live self.old };

    /// Detaches the listener from the mount. It takes no memory.
    fn detach(&mut self, id: u64, from: &MountName)
        ensures others { OthersStay (places self.old) (places self.new) id }
        ensures off { GoesOff (places self.old) (places self.new) id from.now }
        ensures parts { (mount : _) → has_part self.new mount ≡ has_part self.old mount }
        ensures live { live self.new ≡ live self.old };
}
