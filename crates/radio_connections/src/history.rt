//! The bytes that a line gave and took, which only proofs read. They take no memory.

ghost use Rattle.std.specs.Prelude.{◌≡◌, ℕ, List, [], ◌++◌};
ghost use Rattle.std.specs.Borrow.{ftrue};

use std::marker::{Model, PhantomData};

/// Bytes that only proofs read, as `items`: for a line that keeps none of what it gave or took.
#[derive(Drop)]
pub struct History {
    marker: PhantomData<u8>,
    pub ghost items: { List ℕ },
}

impl Model for History {
    ghost also_owns = { λ _. ftrue };
}

// It owns nothing.
unsafe impl Send for History {}

impl History {
    /// No bytes.
    pub fn new() -> History
        ensures { result.items ≡ [] }
    {
        History {
            marker: PhantomData,
        }
    }

    /// These bytes come behind the others.
    pub fn note(&mut self, _bytes: &[u8])
        ensures { self.new.items ≡ self.old.items ++ _bytes.now }
    {}
}
