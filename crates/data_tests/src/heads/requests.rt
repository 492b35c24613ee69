//! Parts of a request that the server writes nowhere: its query, and which fault it has.

use radio_heads::{HeadFault, Progress, read_request};
use std::alloc::Global;

/// A request's length, method, path and query.
type Parts<'b> = (usize, &'b [u8], &'b [u8], Option<&'b [u8]>);

/// Requests and their parts: a target is cut at its first question mark.
const REQUESTS: &[(&[u8], Parts<'static>)] = &[
    (
        b"GET /a?b?c= HTTP/1.1\r\n\r\n",
        (24, b"GET", b"/a", Some(b"b?c=")),
    ),
    (b"GET /a? HTTP/1.1\r\n\r\n", (20, b"GET", b"/a", Some(b""))),
    (b"OPTIONS * HTTP/1.1\r\n\r\n", (22, b"OPTIONS", b"*", None)),
];

/// The parts of the request that these bytes are; `None` if they are none.
fn parts_of(bytes: &[u8]) -> Option<Parts<'_>> {
    match read_request(bytes) {
        Ok(Progress::Whole(head, length)) => {
            Some((length, head.method(), head.path(), head.query()))
        }
        _ => None,
    }
}

#[test]
fn parts_of_requests(rt: HostRuntime) {
    for (bytes, want) in REQUESTS {
        assert!(rt; parts_of(bytes) == Some(*want));
    }
}

/// 65 headers.
const HEADERS_65: &[u8] = b"GET / HTTP/1.0\n\
a:b\na:b\na:b\na:b\na:b\na:b\na:b\na:b\na:b\na:b\na:b\na:b\na:b\n\
a:b\na:b\na:b\na:b\na:b\na:b\na:b\na:b\na:b\na:b\na:b\na:b\na:b\n\
a:b\na:b\na:b\na:b\na:b\na:b\na:b\na:b\na:b\na:b\na:b\na:b\na:b\n\
a:b\na:b\na:b\na:b\na:b\na:b\na:b\na:b\na:b\na:b\na:b\na:b\na:b\n\
a:b\na:b\na:b\na:b\na:b\na:b\na:b\na:b\na:b\na:b\na:b\na:b\na:b\n\
\n";

fn fault_of(bytes: &[u8]) -> Option<HeadFault> {
    read_request(bytes).err()
}

/// The server answers both as bad heads.
// rule: Longest head
#[test]
fn too_many_headers_and_bytes(rt: HostRuntime) {
    let bytes = [b'x'; 8192];
    assert!(rt; fault_of(HEADERS_65) == Some(HeadFault::TooManyHeaders));
    assert!(rt; fault_of(&bytes) == Some(HeadFault::HeadTooLong));
}

const MESSAGES: &[(HeadFault, &str)] = &[
    (HeadFault::BadHead, "bad head"),
    (HeadFault::TooManyHeaders, "too many headers"),
    (HeadFault::HeadTooLong, "head too long"),
];

fn is_worded(alloc: Global, fault: HeadFault, want: &str) -> bool {
    match fault.to_string(alloc) {
        Ok(words) => words.as_str() == want,
        Err(_) => false,
    }
}

#[test]
fn messages(rt: HostRuntime) {
    for (fault, want) in MESSAGES {
        assert!(rt; is_worded(rt.alloc(), *fault, want));
    }
}
