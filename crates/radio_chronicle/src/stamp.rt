//! A place in a list.

ghost use Rattle.std.specs.Prelude.{◌≡◌, ◌↔◌, IsTrue};

/// A place in one of the lists of a server.
#[derive(Clone, Copy, Debug, PartialEq, Eq, PartialOrd, Ord)]
pub struct Stamp {
    /// The list: 0 is the control's, the others are those of mounts in the order in which they were made.
    pub list: u64,
    /// The place, counted from 1; 0, in list 0, if nothing is stored.
    pub serial: u64,
}

impl Stamp {
    /// Whether both are the same place.
    pub fn is(self, other: Stamp) -> bool
        ensures { IsTrue result ↔ self ≡ other }
    {
        self.list == other.list && self.serial == other.serial
    }
}
