//! Laws of tables: functions that do nothing, each with a law for its contract.

ghost use Rattle.std.specs.Prelude.{◌≡◌, Some, List, find, if◌then◌else◌};
ghost use Rattle.radio_tables.specs.Lists.{placed};

use crate::Row;

/// Where a row has been put into its place, a look-up of its key finds it, and a look-up of any
/// other key finds what it found before.
pub fn a_placed_row_is_found<R: Row>()
    ensures { (key : R.Key) (row : R) (rows : List R)
        → find (R.has_key key) (placed (λ a b. R.Key.cmp (R.key a) (R.key b)) row rows)
        ≡ (if R.has_key key row then Some row else find (R.has_key key) rows) }
{}
