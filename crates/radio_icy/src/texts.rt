//! Copies of borrowed texts.
ghost use Rattle.std.specs.Prelude.{◌≡◌, IfOk};
ghost use Rattle.std.specs.Option.{option_copied, option_map};

use crate::OutOfMemory;
use std::alloc::Global;

/// A copy of the text, if there is one.
pub fn copy_of(alloc: Global, text: Option<&[u8]>) -> Result<Option<Vec<u8>>, OutOfMemory>
    ensures { IfOk result (λ copy. option_map (λ v. v.items) copy ≡ option_copied text.entry) }
{
    match text {
        Some(text) => Ok(Some(Vec::from_slice(alloc, text)?)),
        None => Ok(None),
    }
}
