//! Weaving: what happens to no listener today, and how much room is asked for.
//! Streams and titles are in the end-to-end scripts.

use super::*;
use radio_icy::Weaver;

/// Sound, and the title at its end, which is gone for a while, as no session's title ever is.
const TITLE_THAT_WAS_GONE: &[(&[u8], Option<&[u8]>)] = &[
    (b"abcd", Some(b"X")),
    (b"efgh", None),
    (b"ijkl", Some(b"X")),
];

/// What is woven of it.
fn woven(alloc: Global) -> Result<Vec<u8>, OutOfMemory> {
    let mut out = Vec::new(alloc);
    let mut weaver = Weaver::new(alloc, 4);
    for (sound, title) in TITLE_THAT_WAS_GONE {
        weaver.weave(sound, *title, &mut out)?;
    }
    Ok(out)
}

/// Whether it is not sent again.
fn is_sent_once(alloc: Global) -> Result<bool, OutOfMemory> {
    let out = woven(alloc)?;
    Ok(out.as_slice() == b"abcd\x01StreamTitle='X';efgh\0ijkl\0".as_slice())
}

#[test]
fn a_title_that_was_gone(rt: HostRuntime) {
    assert!(rt; is_sent_once(rt.alloc()) == Ok(true));
}

/// How much room there is for bytes after one call that brought many blocks, of which the first has a title.
fn room_after_a_call(alloc: Global) -> Result<usize, OutOfMemory> {
    let sound = vec![in alloc; b's'; 1000]?;
    let mut out = Vec::new(alloc);
    Weaver::new(alloc, 10).weave(sound.as_slice(), Some(b"X"), &mut out)?;
    Ok(out.capacity())
}

/// The sound, a byte for each of 100 blocks, and as much as the block of a title may take: asked for at once.
// rule: Metadata block
#[test]
fn room_is_asked_for_once(rt: HostRuntime) {
    assert!(rt; room_after_a_call(rt.alloc()) == Ok(1133));
}
