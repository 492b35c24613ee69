//! Addresses as they are written.
ghost use Rattle.std.specs.Prelude.{◌≡◌};
ghost use Rattle.radio_addr.specs.Addresses.{address_of};

use crate::groups::read_v6;
use crate::quad::read_quad;

/// An IPv4 or an IPv6 address.
#[derive(Debug, Clone, Copy, PartialEq, Eq)]
pub enum Address {
    /// An IPv4 address.
    V4(u32),
    /// An IPv6 address.
    V6(u128),
}

/// An address as it is written: an IPv6 address stays one.
#[tactic(auto, unfolding(crate::specs::Addresses::address_of))]
pub fn read_address(text: &[u8]) -> Option<Address>
    ensures { result ≡ address_of text.now }
{
    if let Some(n) = read_quad(text) {
        return Some(Address::V4(n));
    }
    let n = read_v6(text)?;
    Some(Address::V6(n))
}
