//! The head of a request.
ghost use Rattle.std.specs.Prelude.{◌≡◌, ℕ, ◌==◌, IfOk, IfErr, option_copied, position};
ghost use Rattle.radio_heads.specs.Head.{RequestParts, ShowsRequest, path_of, query_of, is_question_mark};
ghost use Rattle.radio_heads.specs.Headers.{value_of};
ghost use Rattle.radio_heads.specs.Reading.{IsFrontFault};

use crate::headers::{Headers, MAX_HEADERS};
use crate::outcome::HeadFault;
use httparse::spans::{EMPTY_HEADER_SPAN, parse_request};
use httparse::{Error, Status};
use std::marker::Model;

/// The head of a request, which borrows the bytes that it was read from. It takes some 2 KiB, so
/// lend it rather than move it.
///
/// A contract sees its parts: method, path, query and headers.
#[derive(Drop)]
pub struct Head<'b> {
    method: &'b [u8],
    path: &'b [u8],
    query: Option<&'b [u8]>,
    headers: Headers<'b>,
}

impl<'b> Model for Head<'b> {
    ghost use Rattle.std.specs.Prelude.{option_copied};
    ghost use Rattle.radio_heads.specs.Head.{RequestParts};

    ghost Value = { RequestParts };

    ghost view = { λ h. record {
      method = h.method.now;
      path = h.path.now;
      query = option_copied h.query;
      headers = h.headers;
    } };
}

impl<'b> Head<'b> {
    /// The request's method, as `GET` or `SOURCE`; letters keep their case.
    pub fn method(&self) -> &'b [u8]
        ensures { result.now ≡ self.now.method }
    {
        self.method
    }

    /// The request's target up to its first question mark.
    // rule: Percent decoding
    pub fn path(&self) -> &'b [u8]
        ensures { result.now ≡ self.now.path }
    {
        self.path
    }

    /// What follows the first question mark of the target; `None` if it has no question mark.
    pub fn query(&self) -> Option<&'b [u8]>
        ensures { option_copied result ≡ self.now.query }
    {
        self.query
    }

    /// The value of the first header of that name, ASCII case disregarded, without the white
    /// space around it; `None` if there is no such header.
    // rule: Grammar of heads; Two lengths
    pub fn value(&self, name: &str) -> Option<&'b [u8]>
        ensures { option_copied result ≡ value_of name.now self.now.headers }
    {
        self.headers.value(name)
    }

    /// The head that the whole front is, or the fault that it has.
    pub(crate) fn read(front: &'b [u8]) -> Result<Head<'b>, HeadFault>
        ensures whole { IfOk result (ShowsRequest front.now) }
        ensures fault { IfErr result IsFrontFault }
        ensures none { IfErr result (λ _. (parts : RequestParts) → ¬ (ShowsRequest front.now parts)) }
    {
        let mut spans = [EMPTY_HEADER_SPAN; MAX_HEADERS];
        match parse_request(front, &mut spans) {
            Ok(Status::Complete(found)) if found.len == front.len() => {
                let (path, query) = cut(found.path.of(front));
                Ok(Head {
                    method: found.method.of(front),
                    path,
                    query,
                    headers: Headers::new(front, spans, found.headers),
                })
            }
            Err(Error::TooManyHeaders) => Err(HeadFault::TooManyHeaders),
            _ => Err(HeadFault::BadHead),
        }
    }
}

/// A target cut at its first question mark.
fn cut(target: &[u8]) -> (&[u8], Option<&[u8]>)
    ensures path { result.0.now ≡ path_of target.now }
    ensures query { option_copied result.1 ≡ query_of target.now }
{
    match question_mark(target) {
        Some(at) => (&target[..at], Some(&target[at + 1..])),
        None => (target, None),
    }
}

fn question_mark(target: &[u8]) -> Option<usize>
    ensures { result ≡ position is_question_mark target.now }
{
    target.iter().position(|b| *b == b'?')
}
