//! The name of a mount, apart from the rest.

ghost use Rattle.std.specs.Prelude.{◌≡◌, IfOk};

use crate::OutOfMemory;
use radio_values::MountName;
use std::alloc::Global;
use std::marker::Model;
use std::sync::Arc;

/// The name of a mount that is kept in a place of its own in memory, so that what holds it is
/// small. A clone shares that place. In contracts it is the name.
pub struct KeptName {
    name: Arc<MountName>,
}

impl Drop for KeptName {
    fn drop(self) {
        let KeptName { name } = self;
        drop(name);
    }
}

impl Model for KeptName {
    ghost use Rattle.std.specs.Prelude.{ℕ, List};
    ghost use Rattle.std.specs.Coded.{coded_ℕ, coded_list};
    ghost use Rattle.std.specs.Arc.{arc_value};

    ghost Value = { List ℕ };

    ghost coded = { coded_list coded_ℕ };

    ghost view = { λ k. arc_value k.name };
}

impl KeptName {
    /// A copy of the name, kept so. `OutOfMemory` if memory was refused.
    pub fn new(alloc: Global, name: MountName) -> Result<KeptName, OutOfMemory>
        ensures { IfOk result (λ kept. kept ≡ name) }
    {
        Ok(KeptName {
            name: Arc::new(alloc, name)?,
        })
    }

    /// The name.
    pub fn get(&self) -> &MountName
        ensures { result.now ≡ self.now }
    {
        &self.name
    }
}

impl Clone for KeptName {
    ghost is_clone = { λ name other. other ≡ name };

    fn clone(&self) -> Result<KeptName, OutOfMemory> {
        Ok(KeptName {
            name: self.name.clone()?,
        })
    }
}
