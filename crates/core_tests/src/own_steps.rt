//! Own steps of a mount's part: calls with ample memory, what each replies, and what the part's list has then. A body that gives up for
//! want of memory is proved under any contract.

use bytes::Bytes;
use radio_attachments::{Attachment, BoxedAttachment};
use radio_blocks::{Block, Pieces};
use radio_events::{Event, Reply};
use radio_parts_mount::{ListedPart, MountItem, NewSession, PartAnswer};
use radio_seats_rows::OutOfMemory;
use radio_values::{MountName, Shown, Title};
use std::alloc::{AllocGlobal, Global};

/// Only so many bytes of a stream are kept, and no listener that is further behind stays attached.
const QUEUE: u64 = 4;

/// The source that feeds the mount.
const SOURCE: u64 = 5;

/// A listener that is attached to it.
const LISTENER: u64 = 7;

/// A mount that the source feeds, with the listener at the beginning of its stream. A list is kept.
fn fed_part(alloc: Global, mount: MountName) -> Result<ListedPart, OutOfMemory> {
    let nothing = b"".as_slice();
    let shown = Shown::clean(alloc, nothing, nothing, nothing)?;
    let mut part = ListedPart::listed(alloc, mount, QUEUE);
    part.begin(NewSession::new(alloc, mount, SOURCE, shown, 0)?);
    let attachment = Attachment {
        id: LISTENER,
        place: 0,
    };
    part.put(Some(BoxedAttachment::new(alloc, attachment)?));
    Ok(part)
}

/// Whether the part notes the event, which comes at the second second.
fn is_noted(alloc: Global, part: &mut ListedPart, event: Event) -> Result<bool, OutOfMemory> {
    let answer = part.step(alloc, 2_000, QUEUE, event)?;
    Ok(matches!(&answer, PartAnswer::Replied(Reply::Noted)))
}

/// Whether the part has nothing to say to the event.
fn is_elsewhere(alloc: Global, part: &mut ListedPart, event: Event) -> Result<bool, OutOfMemory> {
    let answer = part.step(alloc, 2_000, QUEUE, event)?;
    Ok(matches!(&answer, PartAnswer::Elsewhere(_)))
}

/// A source of this number sends the bytes: whether the part notes them.
fn takes(alloc: Global, part: &mut ListedPart, id: u64, bytes: &[u8]) -> Result<bool, OutOfMemory> {
    match Block::new(Bytes::copy_from_slice(alloc, bytes)?) {
        Some(block) => is_noted(alloc, part, Event::Push { id, block }),
        None => Ok(false),
    }
}

/// The source sets a title: whether the part notes it.
fn takes_title(alloc: Global, part: &mut ListedPart) -> Result<bool, OutOfMemory> {
    let text = Title::clean(alloc, b"a title".as_slice())?;
    is_noted(alloc, part, Event::Title { id: SOURCE, text })
}

/// The listener has room for so many bytes: whether it is handed these, with a title or without.
fn draws(
    alloc: Global,
    part: &mut ListedPart,
    room: u32,
    bytes: &[u8],
    titled: bool,
) -> Result<bool, OutOfMemory> {
    let answer = part.step(alloc, 0, QUEUE, Event::Draw { id: LISTENER, room })?;
    match &answer {
        PartAnswer::Replied(Reply::Drawn { pieces, title }) => {
            Ok(is_text(alloc, pieces, bytes)? && title.is_some() == titled)
        }
        PartAnswer::Replied(_) | PartAnswer::Elsewhere(_) => Ok(false),
    }
}

/// Whether the pieces are these bytes.
fn is_text(alloc: Global, pieces: &Pieces, bytes: &[u8]) -> Result<bool, OutOfMemory> {
    let mut out = Vec::new(alloc);
    pieces.write_to(&mut out)?;
    Ok(out.as_slice() == bytes)
}

/// Whether the listener is handed what the source of its mount sends, and nothing that another sends.
fn blocks_are_drawn(alloc: Global, part: &mut ListedPart) -> Result<bool, OutOfMemory> {
    let none = draws(alloc, part, 8, b"".as_slice(), false)?;
    let taken = takes(alloc, part, SOURCE, b"abc".as_slice())?;
    let strange = takes(alloc, part, 6, b"xyz".as_slice())?;
    let first = draws(alloc, part, 2, b"ab".as_slice(), false)?;
    let titled = takes_title(alloc, part)?;
    let rest = draws(alloc, part, 8, b"c".as_slice(), true)?;
    Ok(none && taken && !strange && first && titled && rest)
}

/// Whether the stream's last block came at the second second.
fn is_dated(part: &ListedPart) -> bool {
    match part.session() {
        Some(session) => session.last_block == 2_000,
        None => false,
    }
}

fn hands_out(alloc: Global, mount: MountName) -> Result<bool, OutOfMemory> {
    let mut part = fed_part(alloc, mount)?;
    let drawn = blocks_are_drawn(alloc, &mut part)? && is_dated(&part);
    Ok(drawn && has_items(part, 2, 5, 0))
}

/// Whether a listener that is further behind than the queue is long lags out, and is answered elsewhere.
fn laggards_are_noted(alloc: Global, part: &mut ListedPart) -> Result<bool, OutOfMemory> {
    let near = takes(alloc, part, SOURCE, b"abcd".as_slice())?;
    let keeps_up = part.part().lagged.is_empty();
    let far = takes(alloc, part, SOURCE, b"e".as_slice())?;
    let draws = is_elsewhere(
        alloc,
        part,
        Event::Draw {
            id: LISTENER,
            room: 8,
        },
    )?;
    let leaves = is_elsewhere(alloc, part, Event::Leave { id: LISTENER })?;
    Ok(near && keeps_up && far && draws && leaves)
}

fn lets_lag_out(alloc: Global, mount: MountName) -> Result<bool, OutOfMemory> {
    let mut part = fed_part(alloc, mount)?;
    let noted = laggards_are_noted(alloc, &mut part)?;
    let inside = part.part();
    let out = inside.attachments.is_empty() && inside.lagged.get(LISTENER).is_some();
    Ok(noted && out && has_items(part, 2, 2, 1))
}

/// Whether the part's list has so many clients attached, own entries, and listeners that lagged.
fn has_items(part: ListedPart, attached: usize, own: usize, lagged: usize) -> bool {
    let Some(kept) = part.into_items() else {
        return false;
    };
    let items = kept.items.as_slice();
    let mut found = (0usize, 0usize, 0usize);
    for item in items {
        found = counted(found, item);
    }
    found == (attached, own, lagged)
}

/// The counts with one item more: of clients attached, own entries, and listeners that lagged.
fn counted(found: (usize, usize, usize), item: &MountItem) -> (usize, usize, usize) {
    let (attached, own, lagged) = found;
    match item {
        MountItem::Attach { .. } => (attached.saturating_add(1), own, lagged),
        MountItem::Own { .. } => (attached, own.saturating_add(1), lagged),
        MountItem::Detach { .. } if item.is_left_out() => (attached, own, lagged.saturating_add(1)),
        MountItem::Detach { .. } | MountItem::Titled(_) => found,
    }
}

#[test]
fn a_part_hands_out_what_its_source_sends(rt: HostRuntime) {
    let Some(mount) = MountName::read(b"/one".as_slice()) else {
        assert!(rt; false);
        return;
    };
    let drawn = hands_out(rt.alloc(), mount);
    assert!(rt; matches!(drawn, Ok(true)));
}

#[test]
fn a_part_notes_who_lags_out(rt: HostRuntime) {
    let Some(mount) = MountName::read(b"/one".as_slice()) else {
        assert!(rt; false);
        return;
    };
    let noted = lets_lag_out(rt.alloc(), mount);
    assert!(rt; matches!(noted, Ok(true)));
}
