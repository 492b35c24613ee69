//! A walk of one client, as a caller of this layer asks for it.

ghost use Rattle.std.specs.Prelude.{◌≡◌};
ghost use Rattle.std.specs.Option.{option_copied};
ghost use Rattle.radio_seats_rows.specs.Seats.{others_of};
ghost use Rattle.radio_fallback.specs.Walk.{landing as landing_of};

use crate::View;
use crate::walker::{MOST_MOUNTS, Walker};
use radio_creds::Pair;
use radio_seats::Seats;
use radio_values::MountName;

/// Who asks for a mount.
#[derive(Clone, Copy)]
pub struct Who<'a> {
    /// Its number, if it sits somewhere already. Its own seat is left out of account.
    pub id: Option<u64>,
    /// The user and the password that it sends, if it does.
    pub pair: Option<&'a Pair>,
}

/// Returns where a walk from the mount ends. It goes over the same mounts as [`walk_from`](crate::walk_from).
#[tactic(auto, unfolding(crate::specs::Walk::landing))]
pub fn landing<V: View>(
    view: &V,
    seats: &Seats,
    who: &Who<'_>,
    mount: &MountName,
) -> crate::walking::Landing
    ensures { result ≡ landing_of (V.sight view.now) (others_of seats.now.seats who.now.id) (option_copied who.now.pair) mount.now }
{
    let walker = Walker {
        view,
        seats,
        own: who.id,
    };
    walker.walk(MOST_MOUNTS, *mount, who.pair)
}
