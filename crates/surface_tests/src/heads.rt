//! Heads of requests and answers, and the text of an answer.

use radio_heads::{Answer, Head, Progress, TextKind, read_request, read_response, write_answer};
use std::alloc::{AllocGlobal, Global};

/// A command's answer.
const DONE: &[u8] = b"HTTP/1.0 200 OK\r\n\
Content-Type: text/plain; charset=utf-8\r\n\
Content-Length: 5\r\n\
Connection: close\r\n\
\r\n\
done\n";

/// A request, with bytes behind it.
const REQUEST: &[u8] = b"GET /a?b HTTP/1.0\r\nHost: h\r\n\r\nrest";

/// Whether the request is read to its end, and no part of it is a head.
fn is_read() -> bool {
    let is_open = matches!(read_request(&REQUEST[..19]), Ok(Progress::More));
    match read_request(REQUEST) {
        Ok(Progress::Whole(head, length)) => is_open && length == 30 && is_of(&head),
        _ => false,
    }
}

/// Whether the head has the request's parts.
fn is_of(head: &Head<'_>) -> bool {
    head.method() == b"GET".as_slice()
        && head.path() == b"/a".as_slice()
        && head.query() == Some(b"b".as_slice())
        && head.value("host") == Some(b"h".as_slice())
}

/// Whether the answer is written, and is an answer's head again.
fn is_written(alloc: Global) -> bool {
    let answer = Answer::Text {
        kind: TextKind::Plain,
        body: b"done\n",
    };
    match write_answer(alloc, &answer) {
        Ok(text) => text.as_slice() == DONE && is_answer(text.as_slice()),
        Err(_) => false,
    }
}

fn is_answer(text: &[u8]) -> bool {
    match read_response(text) {
        Ok(Progress::Whole(head, _)) => head.status() == 200,
        _ => false,
    }
}

#[test]
fn heads_of_both_sides(rt: HostRuntime) {
    assert!(rt; is_read());
    assert!(rt; is_written(rt.alloc()));
}
