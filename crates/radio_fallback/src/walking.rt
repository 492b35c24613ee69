//! What a walk finds at a mount, and where it ends.

ghost use Rattle.std.specs.Prelude.{◌≡◌};
ghost use Rattle.std.specs.Option.{option_copied};
ghost use Rattle.radio_fallback.specs.Walk.{found_at, stop_of, stop_in, landing};

use crate::View;
use crate::walker::{MOST_MOUNTS, Walker, landed};
use radio_creds::Pair;
use radio_policy::Rule;
use radio_seats::Seats;
use radio_values::MountName;

/// What a walk finds at a mount.
#[derive(Clone, Copy)]
pub struct WalkFinding {
    /// The mount has a live source.
    pub is_live: bool,
    /// As many sit there as may.
    pub is_full: bool,
    /// The mount has no users, or they accept the pair that was sent.
    pub users_accept: bool,
    /// The user that was sent sits there already, where each may sit once.
    pub user_is_twice: bool,
}

impl WalkFinding {
    /// The rule that stops a walk that finds this; `None` if it may sit there.
    pub fn stop(&self) -> Option<Rule>
        ensures { result ≡ stop_of self.now }
    {
        if !self.is_live {
            Some(Rule::NotLive)
        } else if self.is_full {
            Some(Rule::MountFull)
        } else if !self.users_accept {
            Some(Rule::ListenerPassword)
        } else if self.user_is_twice {
            Some(Rule::UserTwice)
        } else {
            None
        }
    }
}

/// Where a walk ends.
#[derive(Clone, Copy)]
pub enum Landing {
    /// At this mount, where it may sit.
    Lands(MountName),
    /// By this rule.
    Stops(Rule),
}

impl Landing {
    /// The rule that stopped it; `None` if it found a mount where the client may sit.
    pub fn stop(&self) -> Option<Rule>
        ensures { result ≡ stop_in self.now }
    {
        match self {
            Landing::Lands(_) => None,
            Landing::Stops(rule) => Some(*rule),
        }
    }
}

/// A walk.
#[derive(Clone, Copy)]
pub struct Walk {
    /// What it found at the mount that it began from.
    pub first: WalkFinding,
    /// Where it ended.
    pub landing: Landing,
}

/// A walk from the mount, of one who sends this pair, or none, and does not sit yet: what it finds
/// there, and where it ends. From a mount that is not live it goes on to that mount's fallback, and
/// so it does from a full one whose settings say so; it looks at ten mounts at the most. The time
/// grows as the number of those who sent this user, where a user may sit at a mount once alone.
// rule: Not live; Mount full; Fallback depth; Passing a walk on; End of a walk
pub fn walk_from<V: View>(view: &V, seats: &Seats, mount: &MountName, pair: Option<&Pair>) -> Walk
    ensures first { result.first ≡ found_at (V.sight view.now) seats.now.seats mount.now (option_copied pair.entry) }
    ensures landing { result.landing ≡ landing (V.sight view.now) seats.now.seats (option_copied pair.entry) mount.now }
{
    let walker = Walker {
        view,
        seats,
        own: None,
    };
    let first = walker.found_at(mount, pair);
    let landing = match walker.next_mount(mount) {
        Some(next) => walker.walk(MOST_MOUNTS - 1, next, pair),
        None => landed(mount, first.stop()),
    };
    Walk { first, landing }
}
