//! Values of headers, and answers with a body, which the server does not write yet.
use radio_heads::{
    AboutHeaders, Answer, FieldValue, Progress, TextKind, Welcome, read_response, write_answer,
};
use std::alloc::Global;

/// Bytes, and whether they may be a header's value: none that would end its line, or bring another one.
const VALUES: &[(&[u8], bool)] = &[
    (b"Radio\r\nSet-Cookie: a=b", false),
    (b"Radio\rX", false),
    (b"Radio\nX", false),
    (b"\n", false),
    (b"\0", false),
    (b"\x7f", false),
    (b"a\x1fb", false),
    (b"", true),
    (b"Radio X", true),
    (b"\tRadio ", true),
    (b"\xc3\xa9", true),
    (b"\x80\xff", true),
    (b"a: b", true),
];

// rule: Answers are read back
#[test]
fn values_of_headers(rt: HostRuntime) {
    for (bytes, is_value) in VALUES {
        assert!(rt; FieldValue::read(bytes).is_some() == *is_value);
    }
}

/// Bodies, and the texts of the answers that have them.
const TEXTS: &[(TextKind, &[u8], &[u8])] = &[
    (
        TextKind::Json,
        b"{\"mounts\":[]}",
        b"HTTP/1.0 200 OK\r\n\
Content-Type: application/json\r\n\
Content-Length: 13\r\n\
Connection: close\r\n\
\r\n\
{\"mounts\":[]}",
    ),
    (
        TextKind::Plain,
        b"",
        b"HTTP/1.0 200 OK\r\n\
Content-Type: text/plain; charset=utf-8\r\n\
Content-Length: 0\r\n\
Connection: close\r\n\
\r\n",
    ),
];

/// Whether an answer's text is this.
fn is_text(alloc: Global, answer: &Answer, want: &[u8]) -> bool {
    match write_answer(alloc, answer) {
        Ok(text) => text.as_slice() == want,
        Err(_) => false,
    }
}

/// Whether each of these answers has its text, as in `is_text`.
fn are_texts(alloc: Global) -> bool {
    for (kind, body, text) in TEXTS {
        let kind = *kind;
        if !is_text(alloc, &Answer::Text { kind, body }, text) {
            return false;
        }
    }
    true
}

// rule: Answers are read back
#[test]
fn answers(rt: HostRuntime) {
    assert!(rt; are_texts(rt.alloc()));
}

const LARGE_HEAD: &[u8] = b"HTTP/1.0 200 OK\r\n\
Content-Type: application/json\r\n\
Content-Length: 1048576\r\n\
Connection: close\r\n\
\r\n";

/// Whether the answer with this body of 1 MiB is its head and then the whole body.
fn is_whole(alloc: Global, body: &[u8]) -> bool {
    let kind = TextKind::Json;
    match write_answer(alloc, &Answer::Text { kind, body }) {
        Ok(text) => text.strip_prefix(LARGE_HEAD) == Some(body),
        Err(_) => false,
    }
}

fn is_large_text_whole(alloc: Global) -> bool {
    match vec![in alloc; b'x'; 1_048_576] {
        Ok(body) => is_whole(alloc, body.as_slice()),
        Err(_) => false,
    }
}

#[test]
fn large_body(rt: HostRuntime) {
    assert!(rt; is_large_text_whole(rt.alloc()));
}

/// The answer to a listener, if these may be values of headers.
fn welcomed<'a>(
    content_type: &'a [u8],
    name: &'a [u8],
    genre: &'a [u8],
    interval: Option<u32>,
) -> Option<Answer<'a>> {
    Some(Answer::Listener(Welcome {
        content_type: FieldValue::read(content_type)?,
        name: FieldValue::read(name)?,
        genre: FieldValue::read(genre)?,
        about: nothing_more()?,
        interval,
    }))
}

/// A stream that says nothing of itself but its name and genre.
pub fn nothing_more<'a>() -> Option<AboutHeaders<'a>> {
    Some(AboutHeaders {
        description: FieldValue::read(b"")?,
        url: FieldValue::read(b"")?,
        bitrate: FieldValue::read(b"")?,
    })
}

/// Whether a name is read back out of the answer to a listener as the other.
fn is_read_back(alloc: Global, name: &[u8], read: &[u8]) -> bool {
    let Some(answer) = welcomed(b"\taudio/mpeg ", name, b" ", None) else {
        return false;
    };
    match write_answer(alloc, &answer) {
        Ok(text) => is_named(text.as_slice(), read),
        Err(_) => false,
    }
}

fn is_named(text: &[u8], name: &[u8]) -> bool {
    match read_response(text) {
        Ok(Progress::Whole(head, _)) => head.value("icy-name") == Some(name),
        _ => false,
    }
}

#[test]
fn read_back_without_blanks(rt: HostRuntime) {
    assert!(rt; is_read_back(rt.alloc(), b"  Radio X\t", b"Radio X"));
}
