//! How much of a slave's list is kept.

ghost use Rattle.std.specs.Prelude.{◌≡◌, ◌↔◌, ◌<◌, length, take, IsTrue};
ghost use Rattle.radio_masters.specs.Listed.{most_listed};

use radio_values::MountName;
use std::collections::BTreeSet;

/// How many names of a list are relayed at most.
pub const MOST_LISTED: usize = 10_000;

/// Keeps the first [`MOST_LISTED`] names of a list, in the order of their bytes, and lets the others go. Returns whether there
/// were others.
// rule: List of a slave
pub fn keep_first(names: &mut BTreeSet<MountName>) -> bool
    ensures kept { names.new.keys ≡ take most_listed names.old.keys }
    ensures others { IsTrue result ↔ (most_listed < length names.old.keys) }
{
    let has_others = names.len() > MOST_LISTED;
    'others: while names.len() > MOST_LISTED {
        let _ = names.pop_last();
    }
    has_others
}
