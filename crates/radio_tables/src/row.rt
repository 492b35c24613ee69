//! What a table has as its rows.

ghost use Rattle.std.specs.Prelude.{◌≡◌, Bool};
ghost use Rattle.std.specs.Ordering.{is_eq};

use std::cmp::Ord;

/// A row of a table: a value that has a key.
pub trait Row: Drop {
    /// What identifies a row.
    type Key: Ord + Copy;

    // The row's key.
    ghost key: { Self → Self.Key };

    // Whether a row has that key, in the words of those who keep the table.
    ghost has_key: { Self.Key → Self → Bool };

    /// The row's key.
    fn key(&self) -> Self::Key
        ensures { result ≡ key self.now };

    // A row has a key exactly if its own is equal to it.
    ghost has_key_is: { (k : Self.Key) (row : Self) → has_key k row ≡ is_eq (Self.Key.cmp k (key row)) };
}
