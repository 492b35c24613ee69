//! The head of a response.
ghost use Rattle.std.specs.Prelude.{◌≡◌, ◌≤◌, IfOk, IfErr, option_copied};
ghost use Rattle.radio_heads.specs.Response.{ResponseParts, ShowsResponse, version_of};
ghost use Rattle.radio_heads.specs.Headers.{value_of};
ghost use Rattle.radio_heads.specs.Reading.{IsFrontFault};

use crate::headers::{Headers, MAX_HEADERS};
use crate::outcome::HeadFault;
use httparse::spans::{EMPTY_HEADER_SPAN, parse_response};
use httparse::{Error, Status};
use std::marker::Model;

/// A version of HTTP/1 (RFC 9112, section 2.3).
#[derive(Clone, Copy, Debug, PartialEq, Eq)]
pub enum Version {
    /// HTTP/1.0
    Http10,
    /// HTTP/1.1
    Http11,
}

/// The head of a response, which borrows the bytes that it was read from. It takes some 2 KiB, so
/// lend it rather than move it.
///
/// A contract sees its parts: version, status and headers.
#[derive(Drop)]
pub struct ResponseHead<'b> {
    version: Version,
    status: u16,
    headers: Headers<'b>,
}

impl<'b> Model for ResponseHead<'b> {
    ghost use Rattle.radio_heads.specs.Response.{ResponseParts};

    ghost Value = { ResponseParts };

    ghost view = { λ h. record { version = h.version; status = h.status; headers = h.headers } };
}

impl<'b> ResponseHead<'b> {
    /// The version of HTTP that the answer is written in.
    pub fn version(&self) -> Version
        ensures { result ≡ self.now.version }
    {
        self.version
    }

    /// The status, a number of three digits: 0 to 999.
    pub fn status(&self) -> u16
        ensures { result ≡ self.now.status }
    {
        self.status
    }

    /// The value of the first header of that name, ASCII case disregarded, without the white
    /// space around it; `None` if there is no such header.
    pub fn value(&self, name: &str) -> Option<&'b [u8]>
        ensures { option_copied result ≡ value_of name.now self.now.headers }
    {
        self.headers.value(name)
    }

    /// The head that the whole front is, or the fault that it has.
    pub(crate) fn read(front: &'b [u8]) -> Result<ResponseHead<'b>, HeadFault>
        ensures whole { IfOk result (ShowsResponse front.now) }
        ensures fault { IfErr result IsFrontFault }
        ensures none { IfErr result (λ _. (parts : ResponseParts) → ¬ (ShowsResponse front.now parts)) }
    {
        let mut spans = [EMPTY_HEADER_SPAN; MAX_HEADERS];
        match parse_response(front, &mut spans) {
            Ok(Status::Complete(found)) if found.len == front.len() => Ok(ResponseHead {
                version: version_named(found.version),
                status: found.code,
                headers: Headers::new(front, spans, found.headers),
            }),
            Err(Error::TooManyHeaders) => Err(HeadFault::TooManyHeaders),
            _ => Err(HeadFault::BadHead),
        }
    }
}

fn version_named(minor: u8) -> Version
    ensures { result ≡ version_of minor }
{
    match minor {
        0 => Version::Http10,
        _ => Version::Http11,
    }
}
