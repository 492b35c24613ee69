//! Answers that the pages of web sites read, and whose pages may.
use crate::heads::answers::nothing_more;
use radio_answers::{POLICY, page};
use radio_heads::{
    AboutHeaders, FieldValue, Progress, TextKind, WebAnswer, Welcome, read_response,
    write_web_answer,
};
use std::alloc::Global;

const STREAM: &[u8] = b"HTTP/1.0 200 OK\r\n\
Content-Type: audio/mpeg\r\n\
icy-name: Radio X\r\n\
icy-metaint: 16000\r\n\
Connection: close\r\n\
\r\n";

const STREAM_WITH_MORE: &[u8] = b"HTTP/1.0 200 OK\r\n\
Content-Type: audio/mpeg\r\n\
icy-name: Radio X\r\n\
icy-description: Talk, and songs\r\n\
icy-br: 128\r\n\
icy-metaint: 16000\r\n\
Connection: close\r\n\
\r\n";

const STREAM_FOR_ALL: &[u8] = b"HTTP/1.0 200 OK\r\n\
Content-Type: audio/mpeg\r\n\
icy-name: Radio X\r\n\
icy-metaint: 16000\r\n\
Access-Control-Allow-Origin: *\r\n\
Connection: close\r\n\
\r\n";

const TEXT: &[u8] = b"HTTP/1.0 200 OK\r\n\
Content-Type: application/json\r\n\
Content-Length: 2\r\n\
Connection: close\r\n\
\r\n\
{}";

const TEXT_FOR_ONE: &[u8] = b"HTTP/1.0 200 OK\r\n\
Content-Type: application/json\r\n\
Content-Length: 2\r\n\
Access-Control-Allow-Origin: https://radio.example\r\n\
Connection: close\r\n\
\r\n\
{}";

const PAGE: &[u8] = b"HTTP/1.0 200 OK\r\n\
Content-Type: text/html; charset=utf-8\r\n\
Content-Length: 3\r\n\
Content-Security-Policy: default-src 'none'\r\n\
Connection: close\r\n\
\r\n\
<p>";

const PAGE_FOR_ALL: &[u8] = b"HTTP/1.0 200 OK\r\n\
Content-Type: text/html; charset=utf-8\r\n\
Content-Length: 3\r\n\
Content-Security-Policy: default-src 'none'\r\n\
Access-Control-Allow-Origin: *\r\n\
Connection: close\r\n\
\r\n\
<p>";

fn stream<'a>(about: Option<AboutHeaders<'a>>) -> Option<WebAnswer<'a>> {
    Some(WebAnswer::Stream(Welcome {
        content_type: FieldValue::read(b"audio/mpeg")?,
        name: FieldValue::read(b"Radio X")?,
        genre: FieldValue::read(b"")?,
        about: about?,
        interval: Some(16000),
    }))
}

/// A stream that says something of itself, and has no URL.
fn about<'a>() -> Option<AboutHeaders<'a>> {
    Some(AboutHeaders {
        description: FieldValue::read(b"Talk, and songs")?,
        url: FieldValue::read(b"")?,
        bitrate: FieldValue::read(b"128")?,
    })
}

fn text<'a>() -> Option<WebAnswer<'a>> {
    Some(WebAnswer::Text {
        kind: TextKind::Json,
        body: b"{}",
    })
}

fn any_page<'a>() -> Option<WebAnswer<'a>> {
    Some(WebAnswer::Page {
        policy: FieldValue::read(b"default-src 'none'")?,
        body: b"<p>",
    })
}

/// Whether an answer's text is this, for pages of that origin, or where nothing is said of it.
fn is_text(
    alloc: Global,
    answer: &Option<WebAnswer>,
    allow_origin: Option<&[u8]>,
    want: &[u8],
) -> bool {
    let Some(answer) = answer else {
        return false;
    };
    let allow_origin = allow_origin.and_then(|origin| FieldValue::read(origin));
    match write_web_answer(alloc, answer, &allow_origin) {
        Ok(text) => text.as_slice() == want,
        Err(_) => false,
    }
}

fn are_streams(alloc: Global) -> bool {
    let bare = stream(nothing_more());
    is_text(alloc, &bare, None, STREAM)
        && is_text(alloc, &bare, Some(b"*"), STREAM_FOR_ALL)
        && is_text(alloc, &stream(about()), None, STREAM_WITH_MORE)
}

fn are_listings(alloc: Global) -> bool {
    let text = text();
    let origin = b"https://radio.example";
    is_text(alloc, &text, None, TEXT) && is_text(alloc, &text, Some(origin), TEXT_FOR_ONE)
}

fn are_pages(alloc: Global) -> bool {
    let page = any_page();
    is_text(alloc, &page, None, PAGE) && is_text(alloc, &page, Some(b"*"), PAGE_FOR_ALL)
}

fn are_texts(alloc: Global) -> bool {
    are_streams(alloc) && are_listings(alloc) && are_pages(alloc)
}

// rule: Answers are read back
#[test]
fn answers_for_web_sites(rt: HostRuntime) {
    assert!(rt; are_texts(rt.alloc()));
}

/// Whether the answer has the policy of the page of what is on air in its head, and then the whole page.
fn is_page(text: &[u8]) -> bool {
    match read_response(text) {
        Ok(Progress::Whole(head, length)) => {
            head.value("Content-Security-Policy") == Some(POLICY.as_bytes())
                && has_page(text.get(length..))
        }
        _ => false,
    }
}

fn has_page(body: Option<&[u8]>) -> bool {
    match body {
        Some(body) => body.starts_with(b"<!DOCTYPE html>\n") && body.ends_with(b"</html>\n"),
        None => false,
    }
}

fn is_page_written(alloc: Global) -> bool {
    match write_web_answer(alloc, &page(), &None) {
        Ok(text) => is_page(text.as_slice()),
        Err(_) => false,
    }
}

#[test]
fn the_page_of_what_is_on_air(rt: HostRuntime) {
    assert!(rt; is_page_written(rt.alloc()));
}
