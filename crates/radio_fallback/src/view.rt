//! What a walk asks of the server.

ghost use Rattle.std.specs.Prelude.{◌≡◌};
ghost use Rattle.std.specs.Option.{option_copied};
ghost use Rattle.radio_fallback.specs.Walk.{Sight};

use radio_creds::Pair;
use radio_values::MountName;

/// What a walk asks of the server.
pub trait View {
    // What there is to be seen.
    ghost sight: { Self → Sight };

    /// Whether one may sit at the mount: it has a live source, or waits for one.
    fn is_live(&self, mount: &MountName) -> bool
        ensures { result ≡ (sight self.now).is_live mount.now };

    /// How many may sit at the mount; `None` for no limit.
    fn limit(&self, mount: &MountName) -> Option<u32>
        ensures { result ≡ (sight self.now).limit mount.now };

    /// Whether the mount is open to one who sends this pair, or none.
    fn lets_in(&self, mount: &MountName, pair: Option<&Pair>) -> bool
        ensures { result ≡ (sight self.now).lets_in mount.now (option_copied pair.entry) };

    /// Whether a user may sit at the mount more than once.
    fn allows_duplicates(&self, mount: &MountName) -> bool
        ensures { result ≡ (sight self.now).allows_duplicates mount.now };

    /// The mount to which a walk goes on from this one; `None` if there is no such mount.
    fn fallback(&self, mount: &MountName) -> Option<MountName>
        ensures { result ≡ (sight self.now).fallback mount.now };

    /// Whether the mount sends on to its fallback where it is full.
    fn hands_on_when_full(&self, mount: &MountName) -> bool
        ensures { result ≡ (sight self.now).hands_on_when_full mount.now };

    /// Returns the number of the mount's session; 0 if the mount waits for one. Nobody asks it of a
    /// mount that is not live.
    fn session_number(&self, mount: &MountName) -> u64
        ensures { result ≡ ((sight self.now).stream_end mount.now).session };
}
