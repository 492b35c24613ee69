//! The moves that carry listeners along.

ghost use Rattle.std.specs.Prelude.{◌≡◌};
ghost use Rattle.std.specs.Option.{option_copied};
ghost use Rattle.radio_seats_rows.specs.Seats.{others_of};
ghost use Rattle.radio_fallback.specs.Carry.{concerns, walks_on, is_asked, turn_by};

use crate::walker::{MOST_MOUNTS, Walker};
use crate::{Landing, View};
use radio_creds::Pair;
use radio_policy::Rule;
use radio_values::MountName;

/// A move of listeners.
#[derive(Clone, Copy)]
pub enum Move {
    /// The session of this mount has ended: all who sit there go where a walk from it lands, or lose
    /// their seats by the rule that stops it.
    Ended(MountName),
    /// A source has come up on this mount: all whose home it is, and who sit elsewhere, come home if
    /// they may sit there, and else stay.
    Up(MountName),
    /// All who sit at the mount go to the destination if they may sit there, and else stay.
    To {
        /// Where they sit.
        mount: MountName,
        /// Where they go.
        destination: MountName,
    },
}

/// How many a move has carried along.
#[derive(Clone, Copy)]
pub struct Carried {
    /// How many sit at another mount now, or go on at the end of their own.
    pub moved: u64,
    /// How many have lost their seats.
    pub ended: u64,
}

/// What a move does to one listener.
#[derive(Clone, Copy)]
pub enum MoveEffect {
    /// It stays as it is.
    Stays,
    /// It sits at this mount from now on.
    GoesTo(MountName),
    /// It loses its seat by the rule.
    IsOut(Rule),
}

impl Move {
    /// Whether the move concerns one who sits at this mount, and whose home is this.
    pub(crate) fn concerns(&self, at: &MountName, home: &MountName) -> bool
        ensures { result ≡ concerns self.now at.now home.now }
    {
        match self {
            Move::Ended(mount) => *at == *mount,
            Move::Up(mount) => *home == *mount && *at != *mount,
            Move::To { mount, .. } => *at == *mount,
        }
    }

    /// What it has in store for this one, if it sent this pair, or none.
    pub(crate) fn turn<V: View>(
        &self,
        walker: &Walker<'_, '_, V>,
        pair: Option<&Pair>,
    ) -> MoveEffect
        ensures { result ≡ turn_by (V.sight walker.now.view.now) (others_of walker.now.seats.now.seats walker.now.own) (option_copied pair.entry) self.now }
    {
        match self {
            Move::Ended(mount) => walks_on(walker.walk(MOST_MOUNTS, *mount, pair)),
            Move::Up(mount) => is_asked(walker.landing_here(mount, pair)),
            Move::To { destination, .. } => is_asked(walker.landing_here(destination, pair)),
        }
    }
}

/// It goes where it lands, or is out.
fn walks_on(landing: Landing) -> MoveEffect
    ensures { result ≡ walks_on landing }
{
    match landing {
        Landing::Lands(mount) => MoveEffect::GoesTo(mount),
        Landing::Stops(rule) => MoveEffect::IsOut(rule),
    }
}

/// It goes where it lands, or stays.
fn is_asked(landing: Landing) -> MoveEffect
    ensures { result ≡ is_asked landing }
{
    match landing {
        Landing::Lands(mount) => MoveEffect::GoesTo(mount),
        Landing::Stops(_) => MoveEffect::Stays,
    }
}
