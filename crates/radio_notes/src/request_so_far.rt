//! The part of a client's request that has arrived, as far as the log keeps it.

ghost use Rattle.std.specs.Prelude.{◌≡◌};
ghost use Rattle.radio_notes.specs.Requests.{request_kept};

use crate::request::Request;

/// The part of a client's request that has arrived so far.
#[derive(Drop)]
pub enum RequestSoFar {
    /// These first bytes of a head, which may be none.
    Part(Vec<u8>),
    /// A request.
    Request(Request),
    /// Nothing that is known.
    Nothing,
}

impl RequestSoFar {
    /// The method that it asks by, empty if none is known.
    pub(crate) fn method(&self) -> &[u8]
        ensures { result.now ≡ (request_kept self.now).method }
    {
        match self {
            RequestSoFar::Request(request) => request.method(),
            RequestSoFar::Part(_) | RequestSoFar::Nothing => b"",
        }
    }

    /// The path that it asks for, up to a `?`, empty if none is known.
    pub(crate) fn path(&self) -> &[u8]
        ensures { result.now ≡ (request_kept self.now).path }
    {
        match self {
            RequestSoFar::Request(request) => request.path(),
            RequestSoFar::Part(_) | RequestSoFar::Nothing => b"",
        }
    }

    /// The user that it names, empty if it names none.
    pub(crate) fn user(&self) -> &[u8]
        ensures { result.now ≡ (request_kept self.now).user }
    {
        match self {
            RequestSoFar::Request(request) => request.user(),
            RequestSoFar::Part(_) | RequestSoFar::Nothing => b"",
        }
    }

    /// What it says of itself, empty if it says nothing.
    pub(crate) fn agent(&self) -> &[u8]
        ensures { result.now ≡ (request_kept self.now).agent }
    {
        match self {
            RequestSoFar::Request(request) => request.agent(),
            RequestSoFar::Part(_) | RequestSoFar::Nothing => b"",
        }
    }
}
