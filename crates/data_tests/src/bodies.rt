//! Feeds behind the end of a body, and behind a fault, which the server never makes. What bodies bring is in the
//! end-to-end scripts.

use radio_blocks::Block;
use radio_source::{Blocks, Body, BodyFault, OutOfMemory};
use std::alloc::Global;

/// What one feed is to answer: data and whether the end came, or a fault.
#[derive(Clone, Copy)]
enum Answer {
    Brings(&'static [u8], bool),
    Refuses(BodyFault),
}

use Answer::{Brings, Refuses};

/// A kind of body.
#[derive(Clone, Copy)]
enum Kind {
    Sized(u64),
    Chunked,
}

type Feeds = &'static [(&'static [u8], Answer)];

/// Bodies, each with its feeds and their answers.
const FED: &[(Kind, Feeds)] = &[
    (
        Kind::Sized(3),
        &[
            (b"abcd", Brings(b"abc", true)),
            (b"", Refuses(BodyFault::PastEnd)),
            (b"", Refuses(BodyFault::Failed)),
            (b"e", Refuses(BodyFault::Failed)),
        ],
    ),
    (
        Kind::Sized(2),
        &[
            (b"a", Brings(b"a", false)),
            (b"b", Brings(b"b", true)),
            (b"", Brings(b"", false)),
            (b"c", Refuses(BodyFault::PastEnd)),
            (b"", Refuses(BodyFault::Failed)),
        ],
    ),
    (
        Kind::Sized(0),
        &[
            (b"a", Brings(b"", true)),
            (b"", Refuses(BodyFault::PastEnd)),
        ],
    ),
    (
        Kind::Sized(0),
        &[(b"", Brings(b"", true)), (b"", Brings(b"", false))],
    ),
    (
        Kind::Chunked,
        &[
            (b"1\r\na\r\n0\r\n\r\n0", Brings(b"a", true)),
            (b"", Refuses(BodyFault::PastEnd)),
        ],
    ),
    (
        Kind::Chunked,
        &[
            (b"2\r\nabX", Brings(b"ab", false)),
            (b"\r\n0\r\n\r\n", Refuses(BodyFault::BadChunk)),
            (b"", Refuses(BodyFault::Failed)),
        ],
    ),
];

/// Joins blocks to what came before.
fn gather(blocks: &[Block], sound: &mut Vec<u8>) -> Result<(), OutOfMemory> {
    for block in blocks {
        sound.extend_from_slice(block.as_bytes())?;
    }
    Ok(())
}

/// Whether a feed gives the answer.
fn answers(alloc: Global, body: &mut Body, piece: &[u8], answer: Answer) -> bool {
    match body.feed(piece) {
        Ok(blocks) => are_brought(alloc, &blocks, answer),
        Err(fault) => match answer {
            Brings(..) => false,
            Refuses(wanted) => fault == wanted,
        },
    }
}

/// Whether the answer brings these blocks.
fn are_brought(alloc: Global, blocks: &Blocks, answer: Answer) -> bool {
    match answer {
        Brings(wanted, is_complete) => {
            blocks.is_complete == is_complete && is_sound(alloc, blocks.blocks.as_slice(), wanted)
        }
        Refuses(_) => false,
    }
}

/// Whether the data of these blocks are that.
fn is_sound(alloc: Global, blocks: &[Block], wanted: &[u8]) -> bool {
    let mut sound = Vec::new(alloc);
    gather(blocks, &mut sound).is_ok() && sound.as_slice() == wanted
}

/// Whether each feed of a body gives its answer.
fn all_answer(alloc: Global, kind: Kind, feeds: Feeds) -> bool {
    let mut body = match kind {
        Kind::Sized(size) => Body::sized(alloc, size),
        Kind::Chunked => Body::chunked(alloc),
    };
    for (piece, answer) in feeds {
        if !answers(alloc, &mut body, piece, *answer) {
            return false;
        }
    }
    true
}

// rule: Place of a fault; Feed
#[test]
fn feeds(rt: HostRuntime) {
    for (kind, feeds) in FED {
        assert!(rt; all_answer(rt.alloc(), *kind, feeds));
    }
}
