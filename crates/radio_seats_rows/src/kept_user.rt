//! The user that a listener sent, apart from the seat.

ghost use Rattle.std.specs.Prelude.{◌≡◌, IfOk};

use crate::OutOfMemory;
use std::alloc::Global;
use std::marker::Model;
use std::sync::ArcSlice;

/// A user that is kept in a place of its own in memory, so that what holds it is small. A clone
/// shares that place. In contracts it is the user's bytes.
#[derive(Drop)]
pub struct KeptUser {
    bytes: ArcSlice<u8>,
}

impl Model for KeptUser {
    ghost use Rattle.std.specs.Prelude.{ℕ, List};
    ghost use Rattle.std.specs.Coded.{coded_ℕ, coded_list};
    ghost use Rattle.std.specs.Arc.{arc_slice_items};

    ghost Value = { List ℕ };

    ghost coded = { coded_list coded_ℕ };

    ghost view = { λ k. arc_slice_items k.bytes };
}

impl KeptUser {
    /// A copy of the user, kept so. `OutOfMemory` if memory was refused.
    pub(crate) fn new(alloc: Global, user: &[u8]) -> Result<KeptUser, OutOfMemory>
        ensures { IfOk result (λ kept. kept ≡ user.now) }
    {
        Ok(KeptUser {
            bytes: ArcSlice::from_slice(alloc, user)?,
        })
    }

    /// The user's bytes.
    pub fn as_bytes(&self) -> &[u8]
        ensures { result.now ≡ self.now }
    {
        self.bytes.as_slice()
    }
}

impl Clone for KeptUser {
    ghost is_clone = { λ user other. other ≡ user };

    fn clone(&self) -> Result<KeptUser, OutOfMemory> {
        Ok(KeptUser {
            bytes: self.bytes.clone()?,
        })
    }
}
