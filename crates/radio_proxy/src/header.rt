//! The header of a proxy, version 1 (section 2.1 of the protocol).

ghost use Rattle.std.specs.Prelude.{◌≡◌, ◌≤◌, ◌<◌, ℕ, length, take};
ghost use Rattle.std.specs.Option.{option_map};
ghost use Rattle.radio_addr.specs.declared.address.Address.{Address};
ghost use Rattle.radio_proxy.specs.Headers.{address_in, header_in, header_of, is_port, client_in_fields, named_in, tcp_of, unended, client_of_family, line_without_return};
ghost use Rattle.radio_proxy.specs.declared.header.Header.TheVariants.{Whole};
ghost use Rattle.radio_proxy.specs.declared.header.NamedClient.{NamedClient as NamedOf};

use radio_addr::{Peer, read_peer};
use radio_texts::{cut, read_number};

/// How many bytes a header has at most, with the CR LF at its end.
// rule: Proxy header
pub const MOST_BYTES: usize = 107;

/// Whom a header names.
#[derive(Clone, Copy, Debug, PartialEq, Eq)]
pub enum NamedClient {
    /// A client at this address.
    Client(Peer),
    /// Nobody: the connection is the proxy's own, or of a protocol that it does not know.
    Nobody,
}

/// What the first bytes of a connection are.
#[derive(Clone, Copy, Debug, PartialEq, Eq)]
pub enum Header {
    /// A part of a header: more bytes decide.
    Partial,
    /// A whole header of `len` bytes, with its CR LF, and whom it names.
    Whole { len: usize, named: NamedClient },
    /// No header, whatever follows.
    Bad,
}

/// A family of addresses.
#[derive(Clone, Copy)]
enum AddressFamily {
    /// IPv4, as `TCP4` says.
    V4,
    /// IPv6, as `TCP6` says.
    V6,
}

impl NamedClient {
    ghost use Rattle.radio_proxy.specs.Headers.{peer_by};

    /// Returns the peer of a connection whose header names this, and whose other end is at `own`: the client that is named, or
    /// `own` if nobody is.
    // rule: Proxy header
    pub fn peer(self, own: Peer) -> Peer
        ensures { result ≡ peer_by self own }
    {
        match self {
            NamedClient::Client(peer) => peer,
            NamedClient::Nobody => own,
        }
    }
}

/// Returns the header that these bytes begin with. They are a part of one as long as they have no LF and are fewer than
/// [`MOST_BYTES`]; what follows a whole header is not looked at.
// rule: Proxy header
#[tactic(auto, using(crate::proofs::LawLemmas::within))]
pub fn read_header(bytes: &[u8]) -> Header
    ensures value { result ≡ header_of bytes.now }
    ensures within { (len : ℕ) (named : NamedOf) → result ≡ Whole len named → len ≤ length bytes.now }
{
    header_at(bytes)
}

/// Returns the header that these bytes begin with.
#[tactic(auto, unfolding(crate::specs::Headers::header_of))]
fn header_at(bytes: &[u8]) -> Header
    ensures { result ≡ header_of bytes.now }
{
    let front = front_of(bytes);
    match cut(front, b'\n') {
        Some((line, _)) => header_in(line),
        None => unended(front.len()),
    }
}

/// Returns the first [`MOST_BYTES`] of these bytes, or all of fewer.
fn front_of(bytes: &[u8]) -> &[u8]
    ensures { result.now ≡ take 107 bytes.now }
{
    if bytes.len() < MOST_BYTES {
        return bytes;
    }
    &bytes[..MOST_BYTES]
}

/// Returns the header of so many bytes without an LF.
fn unended(count: usize) -> Header
    ensures { result ≡ unended count }
{
    if count < MOST_BYTES {
        Header::Partial
    } else {
        Header::Bad
    }
}

/// Returns the header of this line, which is given without its LF.
fn header_in(line: &[u8]) -> Header
    ensures { result ≡ header_in line.now }
{
    match named_in(line) {
        Some(named) => Header::Whole {
            len: line.len() + 1,
            named,
        },
        None => Header::Bad,
    }
}

/// Returns whom this line names. `None` if it is no header.
#[tactic(auto, unfolding(crate::specs::Headers::named_in))]
fn named_in(line: &[u8]) -> Option<NamedClient>
    ensures { result ≡ named_in line.now }
{
    let text = line_text(line)?;
    let (word, fields) = cut(text, b' ')?;
    if word == b"PROXY".as_slice() {
        named_by(fields)
    } else {
        None
    }
}

/// Returns the line without the carriage return at its end. `None` if it has none.
fn line_text(line: &[u8]) -> Option<&[u8]>
    ensures { option_map (λ text. text.now) result ≡ line_without_return line.now }
{
    match line {
        [text @ .., b'\r'] => Some(text),
        _ => None,
    }
}

/// Returns whom the fields behind the word `PROXY` name: a family of addresses, and what it needs.
#[tactic(auto, unfolding(crate::specs::Headers::client_in_fields))]
fn named_by(fields: &[u8]) -> Option<NamedClient>
    ensures { result ≡ client_in_fields fields.now }
{
    match cut(fields, b' ') {
        Some((family, rest)) => fields_of(family, rest),
        None => fields_of(fields, b""),
    }
}

/// Returns whom the fields behind this family name. Behind `UNKNOWN` anything may come.
fn fields_of(family: &[u8], rest: &[u8]) -> Option<NamedClient>
    ensures { result ≡ client_of_family family.now rest.now }
{
    if family == b"UNKNOWN".as_slice() {
        return Some(NamedClient::Nobody);
    }
    if family == b"TCP4".as_slice() {
        return tcp_of(AddressFamily::V4, rest);
    }
    if family == b"TCP6".as_slice() {
        return tcp_of(AddressFamily::V6, rest);
    }
    None
}

/// Returns whom these fields name: the address of the client, that of the server, and the port of each.
// rule: Proxy header
#[tactic(auto, unfolding(crate::specs::Headers::tcp_of))]
fn tcp_of(family: AddressFamily, fields: &[u8]) -> Option<NamedClient>
    ensures { result ≡ tcp_of family fields.now }
{
    let (client, rest) = cut(fields, b' ')?;
    let (server, ports) = cut(rest, b' ')?;
    let (client_port, server_port) = cut(ports, b' ')?;
    let peer = family.address(client)?;
    let _server = family.address(server)?;
    if is_port(client_port) && is_port(server_port) {
        Some(NamedClient::Client(peer))
    } else {
        None
    }
}

impl AddressFamily {
    /// Returns the peer of a text of this family: an IPv6 address has a colon, and an IPv4 address has none.
    #[tactic(auto, unfolding(crate::specs::Headers::address_in))]
    fn address(self, text: &[u8]) -> Option<Peer>
        ensures { result ≡ address_in self text.now }
    {
        match (self, cut(text, b':')) {
            (AddressFamily::V4, None) | (AddressFamily::V6, Some(_)) => read_peer(text),
            (AddressFamily::V4, Some(_)) | (AddressFamily::V6, None) => None,
        }
    }
}

/// Returns whether a text is a port: a decimal number to 65535 with no needless zero in front.
#[tactic(auto, unfolding(crate::specs::Headers::is_port))]
fn is_port(text: &[u8]) -> bool
    ensures { result ≡ is_port text.now }
{
    if text.len() > 1 && text[0] == b'0' {
        return false;
    }
    read_number(text, 10, 65535).is_some()
}
