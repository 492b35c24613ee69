//! Dotted quads.
ghost use Rattle.std.specs.Prelude.{◌≡◌};
ghost use Rattle.radio_addr.specs.Addresses.{quad_of};

use crate::numbers::read_octet;
use radio_texts::cut;

/// Four octets between three dots.
#[tactic(auto, unfolding(crate::specs::Addresses::quad_of))]
pub fn read_quad(text: &[u8]) -> Option<u32>
    ensures { result ≡ quad_of text.now }
{
    let (first, rest) = cut(text, b'.')?;
    let (second, rest) = cut(rest, b'.')?;
    let (third, fourth) = cut(rest, b'.')?;
    let a = read_octet(first)?;
    let b = read_octet(second)?;
    let c = read_octet(third)?;
    let d = read_octet(fourth)?;
    Some(((a * 256 + b) * 256 + c) * 256 + d)
}
