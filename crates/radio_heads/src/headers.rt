//! The headers of a head, as spans of the bytes that it was read from.
ghost use Rattle.std.specs.Prelude.{◌≡◌, ℕ, ◌≤◌, List, length, take, map, find, All, IfSome, option_copied};
ghost use Rattle.httparse.specs.Spans.{IsHeaderWithin, header_bytes, span_bytes};
ghost use Rattle.radio_heads.specs.Headers.{is_same_name, value_of};

use httparse::spans::HeaderSpan;
use std::marker::Model;

/// The most headers that a head may have.
pub const MAX_HEADERS: usize = 64;

/// The media type of a stream whose head names none (Icecast 2.4 documentation).
pub const DEFAULT_CONTENT_TYPE: &[u8] = b"audio/mpeg";

/// The headers of a head. A contract sees their names and values, in order.
#[derive(Drop)]
pub(crate) struct Headers<'b> {
    front: &'b [u8],
    spans: [HeaderSpan; MAX_HEADERS],
    count: usize,
}

impl<'b> Model for Headers<'b> {
    ghost Value = { List (List ℕ × List ℕ) };

    ghost view = { λ h. map (header_bytes h.front.now) (take h.count h.spans) };

    ghost invariant = { λ h. (h.count ≤ 64) × All (IsHeaderWithin (length h.front.now)) (take h.count h.spans) };
}

impl<'b> Headers<'b> {
    /// The first `count` headers of the spans of `front`.
    pub(crate) fn new(
        front: &'b [u8],
        spans: [HeaderSpan; MAX_HEADERS],
        count: usize,
    ) -> Headers<'b>
        requires counted { count ≤ 64 }
        requires within { All (IsHeaderWithin (length front.now)) (take count spans) }
        ensures { result ≡ map (header_bytes front.now) (take count spans) }
    {
        Headers {
            front,
            spans,
            count,
        }
    }

    /// The value of the first header of that name, ASCII case disregarded.
    pub(crate) fn value(&self, name: &str) -> Option<&'b [u8]>
        ensures { option_copied result ≡ value_of name.now self.now }
    {
        let header = header_named(&self.spans[..self.count], self.front, name.as_bytes())?;
        Some(header.value.of(self.front))
    }
}

/// The first header of that name, ASCII case disregarded.
fn header_named<'s>(spans: &'s [HeaderSpan], front: &[u8], name: &[u8]) -> Option<&'s HeaderSpan>
    requires { All (IsHeaderWithin (length front.now)) spans.now }
    ensures first { option_copied result
        ≡ find (λ h. is_same_name (span_bytes front.now h.name) name.now) spans.now }
    ensures within { IfSome result (λ h. IsHeaderWithin (length front.now) h.now) }
{
    spans
        .iter()
        .find(|header| is_same_name(header.name.of(front), name))
}

/// Whether the names are the same, ASCII case disregarded.
fn is_same_name(a: &[u8], b: &[u8]) -> bool
    ensures { result ≡ is_same_name a.now b.now }
{
    a.eq_ignore_ascii_case(b)
}
