//! How the data of a source arrive, by its head.

ghost use Rattle.std.specs.Prelude.{◌≡◌, option_copied};
ghost use Rattle.radio_source.specs.Feeding.{unfed};
ghost use Rattle.radio_heads.specs.Headers.{is_same_name};
ghost use Rattle.radio_session.specs.Framing.{framing_of, framed_by, unless_identity, coded, sized, start_of, is_put, is_source, is_word, greeting_of};

use crate::session::Greeting;
use radio_heads::Head;
use radio_source::Body;
use radio_texts::read_number;
use std::alloc::Global;

/// How the data of a source arrive (RFC 9112, section 6).
#[derive(Clone, Copy)]
pub(crate) enum Framing {
    /// All bytes are data, without an end.
    Plain,
    /// The data are this many bytes.
    Sized(u64),
    /// The data arrive in chunks.
    Chunked,
}

/// Returns the body of this framing, before its first byte.
pub(super) fn body(alloc: Global, framing: Framing) -> Body
    ensures { result ≡ unfed (start_of framing) }
{
    match framing {
        Framing::Plain => Body::plain(alloc),
        Framing::Sized(length) => Body::sized(alloc, length),
        Framing::Chunked => Body::chunked(alloc),
    }
}

/// Returns whether a source feeds a mount by the method of this head.
pub(super) fn is_source(head: &Head) -> bool
    ensures { result ≡ is_source head.now }
{
    head.method() == b"SOURCE".as_slice() || is_put(head)
}

fn is_put(head: &Head) -> bool
    ensures { result ≡ is_put head.now }
{
    head.method() == b"PUT".as_slice()
}

/// Returns how the data of a source arrive after this head. `None` if its headers name an unknown coding, a bad
/// length, or both a coding and a length.
pub(super) fn framing_of(head: &Head) -> Option<Framing>
    ensures { result ≡ framing_of head.now }
{
    if !is_put(head) {
        return Some(Framing::Plain);
    }
    framed_by(
        unless_identity(head.value("Transfer-Encoding")),
        head.value("Content-Length"),
    )
}

/// Returns what the source of this head reads first if it is admitted.
pub(super) fn greeting(head: &Head) -> Greeting
    ensures { result ≡ greeting_of head.now }
{
    if is_put(head) && is_word(head.value("Expect"), b"100-continue") {
        Greeting::Continue
    } else {
        Greeting::Welcome
    }
}

fn framed_by(coding: Option<&[u8]>, length: Option<&[u8]>) -> Option<Framing>
    ensures { result ≡ framed_by (option_copied coding.entry) (option_copied length.entry) }
{
    match (coding, length) {
        (None, None) => Some(Framing::Plain),
        (None, Some(length)) => sized(length),
        (Some(coding), None) => coded(coding),
        (Some(_), Some(_)) => None,
    }
}

/// Returns the coding, or `None` if it is `identity`, which counts as none.
fn unless_identity(coding: Option<&[u8]>) -> Option<&[u8]>
    ensures { option_copied result ≡ unless_identity (option_copied coding.entry) }
{
    let coding = coding?;
    if is_same_word(coding, b"identity") {
        None
    } else {
        Some(coding)
    }
}

fn coded(coding: &[u8]) -> Option<Framing>
    ensures { result ≡ coded coding.now }
{
    if is_same_word(coding, b"chunked") {
        Some(Framing::Chunked)
    } else {
        None
    }
}

fn sized(length: &[u8]) -> Option<Framing>
    ensures { result ≡ sized length.now }
{
    Some(Framing::Sized(read_number(length, 10, u64::MAX)?))
}

/// Returns whether the value of a header is this word, in any case of letters.
pub(super) fn is_word(value: Option<&[u8]>, word: &[u8]) -> bool
    ensures { result ≡ is_word word.now (option_copied value.entry) }
{
    match value {
        Some(value) => is_same_word(value, word),
        None => false,
    }
}

fn is_same_word(a: &[u8], b: &[u8]) -> bool
    ensures { result ≡ is_same_name a.now b.now }
{
    a.eq_ignore_ascii_case(b)
}
