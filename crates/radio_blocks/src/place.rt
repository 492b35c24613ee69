ghost use Rattle.std.specs.Prelude.{◌≡◌, ℕ};

use std::marker::Model;

/// A place in a stream: how many bytes of the stream lie before it.
#[derive(Clone, Copy, Debug, PartialEq, Eq, PartialOrd, Ord)]
pub struct Place {
    bytes_before: u64,
}

impl Model for Place {
    ghost Value = { ℕ };

    ghost view = { λ p. p.bytes_before };

    ghost inverse = { λ n. record { bytes_before = n } };
}

impl Place {
    /// The place behind so many bytes.
    pub fn new(bytes_before: u64) -> Place
        ensures { result ≡ bytes_before }
    {
        Place { bytes_before }
    }

    /// How many bytes lie before it.
    pub fn bytes_before(self) -> u64
        ensures { result ≡ self }
    {
        self.bytes_before
    }
}
