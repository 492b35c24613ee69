//! What no clause says: streams and texts from outside, and that calls succeed where there is memory.

mod texts;
mod unweaving;
mod weaving;

use radio_icy::OutOfMemory;
use std::alloc::Global;

/// The longest title.
const LONGEST: &[u8] = &[b'a'; 4065];

/// A title with these bytes before it and behind it.
fn enclosed(
    alloc: Global,
    before: &[u8],
    title: &[u8],
    behind: &[u8],
) -> Result<Vec<u8>, OutOfMemory> {
    let mut bytes = Vec::from_slice(alloc, before)?;
    bytes.extend_from_slice(title)?;
    bytes.extend_from_slice(behind)?;
    Ok(bytes)
}
