//! Which server it is.

use std::marker::Brand;
use std::sync::ledger::Ledger;

/// Which server a book and its passes belong to: the state in which it was opened, and the ledger
/// of the ends that it reserves for those who let clients in. It stands in contracts alone; a call at
/// `Brand` picks one.
pub trait Origin: Ledger {
    ghost use Rattle.radio_parts_station.specs.World.{World};

    ghost opening: { World };
}

impl Origin for Brand {
    ghost use Rattle.radio_access.specs.Lists.{no_lists};
    ghost use Rattle.radio_parts_station.specs.World.{opening as opening_of};
    ghost use Rattle.radio_settings_values.specs.Least.{least_settings};

    ghost opening = { opening_of least_settings no_lists };
}
