//! The header of a stream, taken off it.

ghost use Rattle.std.specs.Prelude.{◌≡◌, ◌≤◌, IfSome, length, take, true};
ghost use Rattle.std.specs.Io.{StartsWith};
ghost use Rattle.std.specs.Io.KnownBytes.{Consumes, Keeps};
ghost use Rattle.radio_proxy.specs.Greetings.{IsGreeted};

use crate::header::{Header, MOST_BYTES, NamedClient, read_header};
use crate::peek::Peek;
use std::io::{ErrorKind, Read};

/// The result of a look at a stream whose header is awaited.
#[derive(Clone, Copy, Debug, PartialEq, Eq)]
pub enum HeaderLook {
    /// Its header has not come whole.
    Waits,
    /// Its header has come, was read, and names this.
    Named(NamedClient),
    /// What has come is no header.
    Bad,
    /// Its peer has closed, or it has failed.
    Over,
}

/// Reads the header that the stream begins with, if it has come whole, and no byte behind it. What is no header, or no whole
/// one, is left where it is.
// rule: Proxy header
pub fn take_header<S: Peek>(stream: &mut S) -> HeaderLook
    ensures { IsGreeted (S.remaining stream.old) (S.remaining stream.new) result }
{
    let mut buffer = [0u8; MOST_BYTES];
    match stream.peek_front(&mut buffer) {
        Ok(0) => HeaderLook::Over,
        Ok(count) => greet(stream, &mut buffer[..count]),
        Err(error) if error.kind() == ErrorKind::WouldBlock => HeaderLook::Waits,
        Err(_) => HeaderLook::Over,
    }
}

/// The same of a stream that begins with these bytes.
// rule: Proxy header
fn greet<S: Peek>(stream: &mut S, front: &mut [u8]) -> HeaderLook
    requires { IfSome (S.remaining stream.old) (λ bytes. StartsWith bytes front.old) }
    ensures { IsGreeted (S.remaining stream.old) (S.remaining stream.new) result }
{
    match read_header(front) {
        Header::Partial => HeaderLook::Waits,
        Header::Bad => HeaderLook::Bad,
        Header::Whole { len, named } => {
            if take_off(stream, &mut front[..len]) {
                HeaderLook::Named(named)
            } else {
                HeaderLook::Over
            }
        }
    }
}

/// Reads as many bytes as the buffer has. Returns whether they came at once.
fn take_off<S: Read>(stream: &mut S, buffer: &mut [u8]) -> bool
    ensures taken { result ≡ true → Consumes (S.remaining stream.old) (S.remaining stream.new) buffer.new }
    ensures len { length buffer.new ≡ length buffer.old }
{
    match stream.read(buffer) {
        Ok(count) => count == buffer.len(),
        Err(_) => false,
    }
}
