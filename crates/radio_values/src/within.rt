//! Numbers that carry their range.
ghost use Rattle.std.specs.Prelude.{◌≡◌, ◌≤◌};

use std::marker::Model;

/// A number from `LOW` to `HIGH`, both with it.
#[derive(Clone, Copy)]
pub struct Within<const LOW: u32, const HIGH: u32> {
    number: u32,
}

impl<const LOW: u32, const HIGH: u32> Model for Within<LOW, HIGH> {
    ghost use Rattle.std.specs.Prelude.{ℕ, ◌≤◌};
    ghost use Rattle.std.specs.Coded.{coded_ℕ};

    ghost Value = { ℕ };

    ghost coded = { coded_ℕ };

    ghost view = { λ a. a.number };

    ghost invariant = { λ a. (LOW ≤ a.number) × (a.number ≤ HIGH) };

    ghost inverse = { λ n. record { number = n } };
}

impl<const LOW: u32, const HIGH: u32> Within<LOW, HIGH> {
    /// A number that lies in the range.
    pub fn new(number: u32) -> Within<LOW, HIGH>
        requires low { LOW ≤ number }
        requires high { number ≤ HIGH }
        ensures { result ≡ number }
    {
        Within { number }
    }

    /// The number.
    pub fn get(self) -> u32
        ensures number { result ≡ self.entry }
        ensures low { LOW ≤ result }
        ensures high { result ≤ HIGH }
    {
        self.number
    }
}
