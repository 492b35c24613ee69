//! What masters answer, as a whole and cut at each byte.

use super::*;
use radio_relay::Pull;

/// Answers, what a pull shows of each, and its fault.
const ANSWERS: &[(&[u8], &[u8], Option<PullFault>)] = &[
    (
        b"HTTP/1.0 200 OK\r\nicy-metaint: 4\r\n\r\nabcd\x01StreamTitle='X';ef",
        b"{audio/mpeg||}abcd<X>ef",
        None,
    ),
    (
        b"HTTP/1.1 200 Fine\r\ncontent-type: audio/aac\r\nicy-name: N\r\nicy-genre: G\r\n\r\n\0a",
        b"{audio/aac|N|G}\0a",
        None,
    ),
    (
        b"HTTP/1.0 200 OK\r\nicy-name: N\r\nicy-description: D\ticy\r\nicy-url: u\r\nicy-br: 96\r\nice-audio-info: b=1\r\n\r\na",
        b"{audio/mpeg|N||Dicy|u|96}a",
        None,
    ),
    // the same title twice, a URL behind a title, and texts without one
    (
        b"HTTP/1.0 200 OK\r\nicy-metaint:1\r\n\r\na\x01StreamTitle='X';b\x01StreamTitle='X';c\0d",
        b"{audio/mpeg||}a<X>b<X>cd",
        None,
    ),
    (
        b"HTTP/1.0 200 OK\r\nicy-metaint:1\r\n\r\na\x02StreamTitle='X';StreamUrl='u';\0\0b\x01no title at all.c",
        b"{audio/mpeg||}a<X>bc",
        None,
    ),
    (
        b"HTTP/1.0 200 OK\r\nicy-metaint:1\r\n\r\na\x02StreamTitle='\x01X\xff';\0\0\0\0\0\0\0\0\0\0\0\0\0\0b",
        b"{audio/mpeg||}a<X\xef\xbf\xbd>b",
        None,
    ),
    // intervals
    (
        b"HTTP/1.0 200 OK\r\nicy-metaint: 16777216\r\n\r\nab",
        b"{audio/mpeg||}ab",
        None,
    ),
    (
        b"HTTP/1.0 200 OK\r\nicy-metaint: 4\r\nicy-metaint: x\r\n\r\nab",
        b"{audio/mpeg||}ab",
        None,
    ),
    (
        b"HTTP/1.0 200 OK\r\nicy-metaint: 16777217\r\n\r\n",
        b"",
        Some(PullFault::BadMetaint),
    ),
    (
        b"HTTP/1.0 200 OK\r\nicy-metaint: 0\r\n\r\n",
        b"",
        Some(PullFault::BadMetaint),
    ),
    (
        b"HTTP/1.0 200 OK\r\nicy-metaint: x\r\n\r\n",
        b"",
        Some(PullFault::BadMetaint),
    ),
    // heads
    (
        b"HTTP/1.0 404 Not Found\r\n\r\n",
        b"",
        Some(PullFault::Status(404)),
    ),
    (
        b"HTTP/1.1 302 Found\r\nLocation: /b\r\nTransfer-Encoding: chunked\r\n\r\n",
        b"",
        Some(PullFault::Status(302)),
    ),
    (
        b"HTTP/1.0 401 Unauthorized\r\nicy-metaint: 0\r\n\r\n",
        b"",
        Some(PullFault::Status(401)),
    ),
    (
        b"HTTP/1.1 200 OK\r\nicy-metaint: 0\r\nTransfer-Encoding: chunked\r\n\r\n",
        b"",
        Some(PullFault::BadHead),
    ),
    (
        b"ICY 200 OK\r\nicy-metaint: 4\r\n\r\n",
        b"",
        Some(PullFault::BadHead),
    ),
];

/// Feeds a piece, and appends what it brings to the text. Returns its fault, if it has one.
fn feed(
    pull: &mut Pull,
    piece: &[u8],
    out: &mut Vec<u8>,
) -> Result<Option<PullFault>, OutOfMemory> {
    match pull.feed(piece) {
        Ok(items) => {
            append_items(items.as_slice(), out)?;
            Ok(None)
        }
        Err(PullFault::OutOfMemory) => Err(AllocError),
        Err(fault) => Ok(Some(fault)),
    }
}

/// The faults of two pieces, and of an empty one behind them.
#[derive(Clone, Copy)]
struct Faults {
    first: Option<PullFault>,
    second: Option<PullFault>,
    last: Option<PullFault>,
}

impl Faults {
    /// Whether this fault comes once, and then that the pull has failed.
    fn are(&self, fault: Option<PullFault>) -> bool {
        self.first.or(self.second) == fault && self.have_failed(fault)
    }

    fn have_failed(&self, fault: Option<PullFault>) -> bool {
        let failed = Some(PullFault::Failed);
        match self.first {
            Some(_) => self.second == failed && self.last == failed,
            None => fault.is_none() || self.last == failed,
        }
    }
}

fn feed_all(
    pull: &mut Pull,
    pieces: (&[u8], &[u8]),
    out: &mut Vec<u8>,
) -> Result<Faults, OutOfMemory> {
    let first = feed(pull, pieces.0, out)?;
    let second = feed(pull, pieces.1, out)?;
    let last = feed(pull, b"", out)?;
    Ok(Faults {
        first,
        second,
        last,
    })
}

fn pull_all(
    alloc: Global,
    pieces: (&[u8], &[u8]),
    out: &mut Vec<u8>,
) -> Result<Faults, OutOfMemory> {
    let mut pull = Pull::new(alloc);
    let faults = feed_all(&mut pull, pieces, out);
    drop(pull);
    faults
}

/// Whether two pieces bring what this text shows. The fault comes once, and after it that the pull has failed.
fn is_pulled(
    alloc: Global,
    pieces: (&[u8], &[u8]),
    want: &[u8],
    fault: Option<PullFault>,
) -> Result<bool, OutOfMemory> {
    let mut out = Vec::new(alloc);
    let faults = pull_all(alloc, pieces, &mut out)?;
    Ok(faults.are(fault) && out.as_slice() == want)
}

/// Whether an answer brings the same wherever it is cut.
fn is_pulled_however_cut(
    alloc: Global,
    answer: &[u8],
    want: &[u8],
    fault: Option<PullFault>,
) -> Result<bool, OutOfMemory> {
    for cut in 0..=answer.len() {
        if !is_pulled(alloc, answer.split_at(cut), want, fault)? {
            return Ok(false);
        }
    }
    Ok(true)
}

// rule: Pulled stream
#[test]
fn answers_cut_at_each_byte(rt: HostRuntime) {
    for (answer, want, fault) in ANSWERS {
        assert!(rt; is_pulled_however_cut(rt.alloc(), answer, want, *fault) == Ok(true));
    }
}

/// A head of 8192 bytes and more that has not ended.
const ENDLESS: &[u8] = &[b'a'; 8192];

/// Answers, and how many items they are when they come as one: runs end at titles alone, and are cut every 4096 bytes.
const COUNTS: &[(&[u8], &[u8], usize)] = &[
    (
        b"HTTP/1.0 200 OK\r\nicy-metaint:1\r\n\r\n",
        b"a\0b\x01no title at all.c\x01StreamTitle='X';d",
        4,
    ),
    (b"HTTP/1.0 200 OK\r\n\r\n", ENDLESS, 3),
    (b"HTTP/1.0 200 OK\r\n\r\n", b"", 1),
];

/// How many items an answer brings that comes as one.
fn count_items(alloc: Global, answer: &[u8]) -> Result<usize, OutOfMemory> {
    match Pull::new(alloc).feed(answer) {
        Ok(items) => Ok(items.len()),
        Err(_) => Err(AllocError),
    }
}

fn has_count(alloc: Global, head: &[u8], stream: &[u8], want: usize) -> Result<bool, OutOfMemory> {
    let mut answer = Vec::from_slice(alloc, head)?;
    answer.extend_from_slice(stream)?;
    Ok(count_items(alloc, answer.as_slice())? == want)
}

#[test]
fn runs_in_blocks(rt: HostRuntime) {
    for (head, stream, want) in COUNTS {
        assert!(rt; has_count(rt.alloc(), head, stream, *want) == Ok(true));
    }
}

// rule: Bad pull
#[test]
fn endless_heads(rt: HostRuntime) {
    let (front, last) = ENDLESS.split_at(8191);
    assert!(rt; is_pulled(rt.alloc(), (front, last), b"", Some(PullFault::BadHead)) == Ok(true));
}
