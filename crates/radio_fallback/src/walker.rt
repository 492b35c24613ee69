//! One walk over the mounts.

ghost use Rattle.std.specs.Prelude.{◌≡◌};
ghost use Rattle.std.specs.Option.{option_copied};
ghost use Rattle.radio_seats_rows.specs.Seats.{others_of};
ghost use Rattle.radio_fallback.specs.Walk.{is_full, is_full_for, is_twice_for, sits_already, found_at, stop_of, landing_at, landing_here, hands_on, next_mount, walk};

use crate::{Landing, View, WalkFinding};
use radio_creds::Pair;
use radio_policy::Rule;
use radio_seats::Seats;
use radio_values::MountName;

/// At how many mounts a walk looks at the most.
pub(crate) const MOST_MOUNTS: u8 = 10;

/// One who walks: what it sees, those who sit, and its own number if it is among them.
#[derive(Clone, Copy)]
pub(crate) struct Walker<'v, 's, V: View> {
    pub(crate) view: &'v V,
    pub(crate) seats: &'s Seats,
    pub(crate) own: Option<u64>,
}

impl<V: View> Walker<'_, '_, V> {
    /// What it finds at the mount if it sends this pair, or none.
    pub(crate) fn found_at(&self, mount: &MountName, pair: Option<&Pair>) -> WalkFinding
        ensures { result ≡ found_at (V.sight self.now.view.now) (others_of self.now.seats.now.seats self.now.own) mount.now (option_copied pair.entry) }
    {
        WalkFinding {
            is_live: self.view.is_live(mount),
            is_full: self.is_full(mount),
            users_accept: self.view.lets_in(mount, pair),
            user_is_twice: self.is_twice(mount, pair),
        }
    }

    /// Where a walk from the mount ends that may look at so many mounts.
    pub(crate) fn walk(&self, most: u8, mount: MountName, pair: Option<&Pair>) -> Landing
        ensures { result ≡ walk most (V.sight self.now.view.now) (others_of self.now.seats.now.seats self.now.own) (option_copied pair.entry) mount }
    {
        let mut here = mount;
        let mut left = most;
        'mounts: while left > 0 {
            let Some(next) = self.next_mount(&here) else {
                return self.landing_here(&here, pair);
            };
            here = next;
            left -= 1;
        }
        Landing::Stops(Rule::FallbackDepth)
    }

    /// The mount to which the walk goes on from this one, if it does.
    pub(crate) fn next_mount(&self, mount: &MountName) -> Option<MountName>
        ensures { result ≡ next_mount (V.sight self.now.view.now) (others_of self.now.seats.now.seats self.now.own) mount.now }
    {
        if self.hands_on(mount) {
            self.view.fallback(mount)
        } else {
            None
        }
    }

    /// Where the client is seated if the walk goes no further, or which rule stops it there.
    pub(crate) fn landing_here(&self, mount: &MountName, pair: Option<&Pair>) -> Landing
        ensures { result ≡ landing_here (V.sight self.now.view.now) (others_of self.now.seats.now.seats self.now.own) (option_copied pair.entry) mount.now }
    {
        landed(mount, self.stop_at(mount, pair))
    }

    /// The rule that stops it at the mount. What is dear to find out is looked up last.
    // rule: Closed to moves; End of a walk
    fn stop_at(&self, mount: &MountName, pair: Option<&Pair>) -> Option<Rule>
        ensures { result ≡ stop_of (found_at (V.sight self.now.view.now) (others_of self.now.seats.now.seats self.now.own) mount.now (option_copied pair.entry)) }
    {
        if !self.view.is_live(mount) {
            Some(Rule::NotLive)
        } else if self.is_full(mount) {
            Some(Rule::MountFull)
        } else if !self.view.lets_in(mount, pair) {
            Some(Rule::ListenerPassword)
        } else if self.is_twice(mount, pair) {
            Some(Rule::UserTwice)
        } else {
            None
        }
    }

    /// Whether the walk goes on from the mount.
    fn hands_on(&self, mount: &MountName) -> bool
        ensures { result ≡ hands_on (V.sight self.now.view.now) (others_of self.now.seats.now.seats self.now.own) mount.now }
    {
        !self.view.is_live(mount) || self.is_full(mount) && self.view.hands_on_when_full(mount)
    }

    /// Whether as many others sit at the mount as may.
    fn is_full(&self, mount: &MountName) -> bool
        ensures { result ≡ is_full_for (V.sight self.now.view.now) (others_of self.now.seats.now.seats self.now.own) mount.now }
    {
        is_full(
            self.seats.count_beside(mount, self.own),
            self.view.limit(mount),
        )
    }

    /// Whether another who sits at the mount has the user that was sent, where each may sit once.
    fn is_twice(&self, mount: &MountName, pair: Option<&Pair>) -> bool
        ensures { result ≡ is_twice_for (V.sight self.now.view.now) (others_of self.now.seats.now.seats self.now.own) (option_copied pair.entry) mount.now }
    {
        !self.view.allows_duplicates(mount) && self.has_user_of(mount, pair)
    }

    /// Whether the user that was sent sits at the mount. Without a pair nobody does.
    fn has_user_of(&self, mount: &MountName, pair: Option<&Pair>) -> bool
        ensures { result ≡ sits_already (others_of self.now.seats.now.seats self.now.own) mount.now (option_copied pair.entry) }
    {
        match pair {
            Some(pair) => self.seats.user_beside(mount, pair.user(), self.own),
            None => false,
        }
    }
}

/// Where the mount puts it whom this rule stops there, or none.
pub(crate) fn landed(mount: &MountName, stop: Option<Rule>) -> Landing
    ensures { result ≡ landing_at mount.now stop }
{
    match stop {
        Some(rule) => Landing::Stops(rule),
        None => Landing::Lands(*mount),
    }
}

/// Whether so many are as many as may sit there.
fn is_full(count: u64, limit: Option<u32>) -> bool
    ensures { result ≡ is_full count limit }
{
    match limit {
        Some(most) => count >= u64::from(most),
        None => false,
    }
}
