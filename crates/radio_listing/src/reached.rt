//! Where a server is reached.
ghost use Rattle.std.specs.Prelude.{◌≡◌, ◌++◌, codes, decimal, filter, take, IfOk, OnOk};
ghost use Rattle.std.specs.List.{list_any};
ghost use Rattle.radio_listing.specs.Reached.{base_url, bracketed, has_colon, host_in, host_or, is_host_byte, own_host};

use crate::OutOfMemory;
use std::alloc::Global;

/// The largest number of bytes of a host and its port.
pub const MAX_HOST: usize = 255;

/// Returns what comes before a mount's name in its URL, as `http://radio.example:8000`.
///
/// `host` is the `Host` that a client sent (RFC 9110, section 7.2), empty if it sent none. Of it the letters and digits
/// of ASCII and `-`, `.`, `:`, `[`, `]` and `_` are kept, at most 255 bytes. If nothing is left, the result has the
/// address and the port of the settings, an address of IPv6 in brackets (RFC 3986, section 3.2.2). The only error is
/// `OutOfMemory`.
// rule: Address of a stream
#[tactic(auto, unfolding(crate::specs::Reached::base_url))]
pub fn base_url(
    alloc: Global,
    host: &[u8],
    address: &[u8],
    port: u32,
) -> Result<Vec<u8>, OutOfMemory>
    ensures { IfOk result (λ url. url.items ≡ base_url host.now address.now port) }
{
    let host = host_or_own(alloc, host, address, port)?;
    let mut url = Vec::new(alloc);
    url.extend_from_slice(b"http://")?;
    url.extend_from_slice(host.as_slice())?;
    Ok(url)
}

fn host_or_own(
    alloc: Global,
    host: &[u8],
    address: &[u8],
    port: u32,
) -> Result<Vec<u8>, OutOfMemory>
    ensures { IfOk result (λ made. made.items ≡ host_or (host_in host.now) (own_host address.now port)) }
{
    let kept = host_in(alloc, host)?;
    if kept.is_empty() {
        return own_host(alloc, address, port);
    }
    Ok(kept)
}

/// Returns the address and the port of the settings.
fn own_host(alloc: Global, address: &[u8], port: u32) -> Result<Vec<u8>, OutOfMemory>
    ensures { IfOk result (λ made. made.items ≡ own_host address.now port) }
{
    let kept = host_in(alloc, address)?;
    let mut made = bracketed(alloc, kept.as_slice())?;
    made.extend_from_slice(b":")?;
    made.extend_from_slice(port.to_string(alloc)?.as_bytes())?;
    Ok(made)
}

fn bracketed(alloc: Global, address: &[u8]) -> Result<Vec<u8>, OutOfMemory>
    ensures { IfOk result (λ made. made.items ≡ bracketed address.now) }
{
    let mut made = Vec::new(alloc);
    if !has_colon(address) {
        made.extend_from_slice(address)?;
        return Ok(made);
    }
    made.extend_from_slice(b"[")?;
    made.extend_from_slice(address)?;
    made.extend_from_slice(b"]")?;
    Ok(made)
}

fn has_colon(address: &[u8]) -> bool
    ensures { result ≡ has_colon address.now }
{
    address.iter().any(|byte| *byte == b':')
}

/// What a host and its port may have of a text.
fn host_in(alloc: Global, text: &[u8]) -> Result<Vec<u8>, OutOfMemory>
    ensures { IfOk result (λ kept. kept.items ≡ host_in text.now) }
{
    text.iter()
        .copied()
        .filter(|byte| is_host_byte(*byte))
        .take(MAX_HOST)
        .collect(alloc)
}

fn is_host_byte(byte: u8) -> bool
    ensures { result ≡ is_host_byte byte }
{
    byte.is_ascii_alphanumeric()
        || byte == b'-'
        || byte == b'.'
        || byte == b':'
        || byte == b'['
        || byte == b']'
        || byte == b'_'
}
