//! Lines that take little or nothing, and what becomes of them.

use crate::clients::{HEARD, LISTENER, SOURCE, SOURCE_ANSWER, SOURCE_HEAD};
use crate::memory_line::{Look, Manners, SILENT};
use crate::steps::Step;

/// A source that is silent for half a minute is no silent one.
pub const LONG_TIMEOUT: &str = "[limits]\nsource-timeout = 60\n";

/// A listener whose line takes one byte in a write.
pub const BYTE_BY_BYTE: Manners = Manners {
    takes: 1,
    ..LISTENER
};

/// A listener whose line takes three bytes once, and then nothing for good.
const STALLED: Manners = Manners {
    takes: 3,
    stalls_at: 1,
    ..LISTENER
};

/// A turn less than the source timeout after the three bytes: the line is still there, and another
/// listener, whose line takes all, got all.
pub const KEPT: &[Step] = &[
    Step::Comes(SOURCE, 0),
    Step::Turns(1, 1, 2),
    Step::Comes(STALLED, 2),
    Step::Comes(LISTENER, 2),
    Step::Turns(3, 9_999, 2),
    Step::Clients(&[1, 2, 3]),
    Step::Shows(1, Look::Took(b"HTT")),
    Step::Shows(2, Look::Took(HEARD)),
];

/// A turn a millisecond later: it is gone.
pub const CLOSED: &[Step] = &[
    Step::Comes(SOURCE, 0),
    Step::Turns(1, 1, 2),
    Step::Comes(STALLED, 2),
    Step::Comes(LISTENER, 2),
    Step::Turns(3, 10_000, 2),
    Step::Clients(&[1, 3]),
    Step::Shows(1, Look::Took(HEARD)),
];

/// A source whose last three blocks come when its listeners have got the first.
const THREE_MORE: Manners = Manners {
    gives: &[SOURCE_HEAD, b"abcd", b"", b"efgh", b"ijkl", b"mnop"],
    ..SILENT
};

/// A listener whose line takes nothing for four turns.
pub const STALLED_FOR_FOUR: Manners = Manners {
    stalls_at: 0,
    resumes_at: 4,
    ..LISTENER
};

/// What a listener gets of one block.
pub const ONE_BLOCK: &[u8] =
    b"HTTP/1.0 200 OK\r\nContent-Type: audio/mpeg\r\nConnection: close\r\n\r\nabcd";

/// What it gets of four.
const FOUR_BLOCKS: &[u8] =
    b"HTTP/1.0 200 OK\r\nContent-Type: audio/mpeg\r\nConnection: close\r\n\r\nabcdefghijklmnop";

/// The push of the third block finishes a listener that is three blocks behind. It gets what was pending for it
/// before, and nothing more. Another listener gets all meanwhile.
pub const LAGS: &[Step] = &[
    Step::Comes(THREE_MORE, 0),
    Step::Turns(1, 1, 2),
    Step::Comes(STALLED_FOR_FOUR, 2),
    Step::Comes(LISTENER, 2),
    Step::Turns(3, 1, 4),
    Step::Shows(1, Look::Took(b"")),
    Step::Shows(2, Look::Took(FOUR_BLOCKS)),
    Step::Turns(100, 1, 1),
    Step::Shows(1, Look::Took(ONE_BLOCK)),
    Step::Shows(0, Look::Took(SOURCE_ANSWER)),
];

/// A listener whose peer has closed behind its head, and whose line takes one byte in a write.
const CLOSED_WHILE_OWED: Manners = Manners {
    closes_at: 1,
    ..BYTE_BY_BYTE
};

/// All that is pending but the last byte: 71 bytes.
const ALL_BUT_ONE: &[u8] =
    b"HTTP/1.0 200 OK\r\nContent-Type: audio/mpeg\r\nConnection: close\r\n\r\nabcdefg";

/// It is there up to the last pending byte, and has left when that is taken.
pub const CLOSES_WHILE_OWED: &[Step] = &[
    Step::Comes(SOURCE, 0),
    Step::Turns(1, 1, 2),
    Step::Comes(CLOSED_WHILE_OWED, 2),
    Step::Turns(3, 1, 71),
    Step::Clients(&[1, 2]),
    Step::Shows(1, Look::Took(ALL_BUT_ONE)),
    Step::Turns(200, 1, 1),
    Step::Clients(&[1]),
];
