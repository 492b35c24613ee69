//! Sessions in the parts of the mounts: calls with ample memory, and what is found after each. A body
//! that gives up for want of memory is proved under any contract.

use bytes::Bytes;
use radio_blocks::Block;
use radio_parts_mount::NewSession;
use radio_parts_table::MountParts;
use radio_seats_rows::OutOfMemory;
use radio_values::{MountName, Shown, Title};
use std::alloc::{AllocGlobal, Global};

/// A block of these bytes.
fn block_of(alloc: Global, bytes: &[u8]) -> Result<Option<Block>, OutOfMemory> {
    Ok(Block::new(Bytes::copy_from_slice(alloc, bytes)?))
}

/// Whether the mount is live, fed by the client of this number, and its stream ends here.
fn is_live(parts: &MountParts, mount: &MountName, number: u64, end: u64) -> bool {
    match parts.session(mount) {
        Some(session) => session.number == number && session.stream.end() == end,
        None => false,
    }
}

/// A session begins on the mount, fed by the client of this number.
fn begin(
    alloc: Global,
    parts: &mut MountParts,
    mount: &MountName,
    number: u64,
) -> Result<(), OutOfMemory> {
    let nothing = b"".as_slice();
    let shown = Shown::clean(alloc, nothing, nothing, nothing)?;
    parts.prepare(mount)?;
    let session = NewSession::new(alloc, *mount, number, shown, 0)?;
    parts.open(session);
    Ok(())
}

fn are_kept(alloc: Global, one: &MountName, other: &MountName) -> Result<bool, OutOfMemory> {
    let mut parts = MountParts::new(alloc);
    // the greater name first
    begin(alloc, &mut parts, other, 2)?;
    begin(alloc, &mut parts, one, 1)?;
    let Some(block) = block_of(alloc, b"abc".as_slice())? else {
        return Ok(false);
    };
    let end = parts.receive(one, &block, 5, 1_000)?;
    let again = parts.receive(one, &block, 6, 1_000)?;
    let fed = end == 3 && again == 6 && is_live(&parts, one, 1, 6) && is_live(&parts, other, 2, 0);
    let title = Title::clean(alloc, b"a title".as_slice())?;
    parts.set_title(other, title);
    let titled = match parts.session(other) {
        Some(session) => session.title.is_some(),
        None => false,
    };
    parts.close(one);
    let none = parts.receive(one, &block, 7, 1_000)? == 0;
    parts.release(one);
    Ok(fed && titled && none && parts.session(one).is_none() && is_live(&parts, other, 2, 0))
}

#[test]
fn mounts_keep_their_sessions(rt: HostRuntime) {
    let (Some(one), Some(other)) = (
        MountName::read(b"/one".as_slice()),
        MountName::read(b"/other".as_slice()),
    ) else {
        assert!(rt; false);
        return;
    };
    let kept = are_kept(rt.alloc(), &one, &other);
    assert!(rt; matches!(kept, Ok(true)));
}
