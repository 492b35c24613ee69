//! The answers that the server gives.
ghost use Rattle.std.specs.Prelude.{◌≡◌};
ghost use Rattle.radio_heads.specs.Answer.{content_type};

use crate::field_value::FieldValue;
use radio_policy::Status;

/// An answer of the server. Its texts are written as they are; no value of a header can hold a line end, by its type.
#[derive(Drop)]
pub enum Answer<'a> {
    /// A listener is admitted (200), and the stream's bytes follow.
    Listener(Welcome<'a>),
    /// A source is admitted (200).
    Source,
    /// A source may send its body (100; RFC 9110, section 15.2.1).
    Continue,
    /// A request is denied by the rule of that name (RFC 9110, section 15.5); 401 alone asks for a
    /// name and a password.
    Denial { status: Status, rule: &'a str },
    /// A command's answer (200), whose body is of that kind.
    Text { kind: TextKind, body: &'a [u8] },
}

/// What an admitted listener reads of the stream.
#[derive(Drop)]
pub struct Welcome<'a> {
    /// The stream's media type, written even where it is empty.
    pub content_type: FieldValue<'a>,
    /// The stream's name, which is left out where it is empty.
    pub name: FieldValue<'a>,
    /// The stream's genre, which is left out where it is empty.
    pub genre: FieldValue<'a>,
    /// What else the stream says of itself.
    pub about: AboutHeaders<'a>,
    /// The data bytes between two metadata blocks, where the listener asked for metadata.
    pub interval: Option<u32>,
}

/// What a stream says of itself beyond its name and genre, as Icecast's heads show it. A value is left out if it is empty.
#[derive(Drop)]
pub struct AboutHeaders<'a> {
    /// `icy-description`: the description.
    pub description: FieldValue<'a>,
    /// `icy-url`: the URL of the station's web site.
    pub url: FieldValue<'a>,
    /// `icy-br`: the bit rate in kbit/s.
    pub bitrate: FieldValue<'a>,
}

/// The kind of a command's answer.
#[derive(Clone, Copy, Debug, PartialEq, Eq)]
pub enum TextKind {
    /// `text/plain; charset=utf-8`
    Plain,
    /// `application/json`
    Json,
}

impl TextKind {
    /// The media type, as a `Content-Type` names it.
    pub fn content_type(self) -> &'static [u8]
        ensures { result.now ≡ content_type self }
    {
        match self {
            TextKind::Plain => b"text/plain; charset=utf-8",
            TextKind::Json => b"application/json",
        }
    }
}
