//! Lines of the log. The moments are those of `date -u -d @SECONDS`, the percent-encoded values those of Python's
//! `urllib.parse.quote`.

use radio_addr::Peer;
use radio_log::{ClientEnded, Fact, LAST_SECOND, Moment, Note, QuotedText, line};
use std::alloc::Global;

/// Seconds since 1970, and the front of the line of that moment.
const MOMENTS: &[(u64, &str)] = &[
    (0, "1970-01-01T00:00:00Z"),
    (68_169_599, "1972-02-28T23:59:59Z"),
    (68_169_600, "1972-02-29T00:00:00Z"),
    (951_782_400, "2000-02-29T00:00:00Z"),
    (978_307_199, "2000-12-31T23:59:59Z"),
    (1_795_596_229, "2026-11-25T08:43:49Z"),
    (4_107_542_399, "2100-02-28T23:59:59Z"),
    (4_107_542_400, "2100-03-01T00:00:00Z"),
    (LAST_SECOND, "9999-12-31T23:59:59Z"),
    (u64::MAX, "9999-12-31T23:59:59Z"),
];

/// Whether a line of that moment says that one line was lost.
fn is_written_at(alloc: Global, seconds: u64, moment: &str) -> bool {
    let note = Note {
        moment: Moment::at(seconds),
        fact: Fact::Lost { lines: 1 },
    };
    match line(alloc, &note) {
        Ok(line) => line.starts_with(moment.as_bytes()) && line.ends_with(b"Z lost lines=1\n"),
        Err(_) => false,
    }
}

// rule: Line of the log
#[test]
fn moments_are_told(rt: HostRuntime) {
    for (seconds, moment) in MOMENTS {
        assert!(rt; is_written_at(rt.alloc(), *seconds, moment));
    }
}

/// Whether the line of a fact, behind its moment, is this one.
fn is_written(alloc: Global, fact: Fact<'_>, text: &str) -> bool {
    let note = Note {
        moment: Moment::at(1_795_596_229),
        fact,
    };
    match line(alloc, &note) {
        Ok(line) => {
            line.starts_with(b"2026-11-25T08:43:49Z ")
                && line.ends_with(text.as_bytes())
                && line.len() == 21 + text.len()
        }
        Err(_) => false,
    }
}

fn client<'a>(user: &'a [u8], agent: &'a [u8]) -> Fact<'a> {
    Fact::ClientEnded(ClientEnded {
        peer: Peer::of_v4(0x0a00_0003),
        method: QuotedText::of(b"GET"),
        path: QuotedText::of(b"/live"),
        mount: QuotedText::of(b"/live"),
        status: 200,
        why: QuotedText::of(b"left"),
        user: QuotedText::of(user),
        seconds: 12,
        bytes: 38_400,
        agent: QuotedText::of(agent),
    })
}

#[test]
fn clients_are_told(rt: HostRuntime) {
    let text =
        "client peer=10.0.0.3 method=GET path=/live mount=/live status=200 why=left user= seconds=12 bytes=38400 agent=VLC/3.0.20%20LibVLC/3.0.20\n";
    assert!(rt; is_written(rt.alloc(), client(b"", b"VLC/3.0.20 LibVLC/3.0.20"), text));
}

// rule: Line of the log
#[test]
fn forged_lines_are_not(rt: HostRuntime) {
    let text =
        "client peer=10.0.0.3 method=GET path=/live mount=/live status=200 why=left user=a%20seconds=9%25 seconds=12 bytes=38400 agent=x%0A2026-11-25T08:43:49Z%20ended%20why=%C3%A4%7F\n";
    let agent = b"x\n2026-11-25T08:43:49Z ended why=\xc3\xa4\x7f";
    assert!(rt; is_written(rt.alloc(), client(b"a seconds=9%", agent), text));
}
