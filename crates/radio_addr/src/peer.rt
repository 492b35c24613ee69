//! Peers: the other ends of connections.
ghost use Rattle.std.specs.Prelude.{◌≡◌, Some};
ghost use Rattle.radio_addr.specs.Addresses.{peer_of, unmapped};
ghost use Rattle.radio_addr.specs.Writing.{written, IsPeer};
ghost use Rattle.radio_addr.specs.declared.address.Address.{Address as AddressOf};

use crate::address::{Address, read_address};
use crate::writing::{DottedQuad, EightGroups};
use radio_texts::laws::fields;
use std::fmt;
use std::marker::Model;

/// How many IPv4 addresses there are.
const V4_ADDRESSES: u128 = 0x1_0000_0000;

/// What comes before an IPv4 address that is written as IPv6, in `::ffff:0:0/96` (RFC 4291, section 2.5.5.2).
const MAPPED: u128 = 0xffff;

/// The address of the other end of a connection.
///
/// A peer is made by [`read_peer`], [`Peer::of_v4`] and [`Peer::of_v6`] alone, so an IPv4 peer is always known as one:
/// no peer is an IPv6 address in `::ffff:0:0/96`. In contracts a peer is its [`Address`].
#[derive(Debug, Clone, Copy, PartialEq, Eq)]
pub struct Peer {
    address: Address,
}

impl Model for Peer {
    ghost use Rattle.std.specs.Prelude.{◌≡◌, false};
    ghost use Rattle.radio_addr.specs.declared.address.Address.{Address};

    ghost Value = { Address };

    ghost use Rattle.radio_addr.specs.Addresses.{is_mapped};

    ghost view = { λ p. p.address };

    ghost invariant = { λ p. is_mapped p.address ≡ false };

    ghost inverse = { λ a. record { address = a } };
}

impl Peer {
    /// The peer at an IPv4 address.
    // rule: Peer
    pub fn of_v4(n: u32) -> Peer
        ensures { result ≡ Address.V4 n }
    {
        Peer {
            address: Address::V4(n),
        }
    }

    /// The peer at an IPv6 address, which is an IPv4 peer in `::ffff:0:0/96`.
    // rule: Peer
    pub fn of_v6(n: u128) -> Peer
        ensures { result ≡ unmapped (Address.V6 n) }
    {
        if n / V4_ADDRESSES == MAPPED {
            return Peer::of_v4((n % V4_ADDRESSES) as u32);
        }
        Peer {
            address: Address::V6(n),
        }
    }

    /// The peer's address.
    // rule: Peer
    pub fn address(self) -> Address
        ensures value { result ≡ self }
        ensures peer { IsPeer result }
    {
        self.address
    }
}

/// The peer of a text, or `None` exactly if the text is no address (RFC 4291, section 2.2).
///
/// An IPv4 address is four decimal numbers to 255 with no needless zeros in front. An IPv6 address is eight groups of
/// one to four hexadecimal digits; one `::` may replace one zero group or more, and the last two groups may be written
/// as a dotted quad. A peer in `::ffff:0:0/96` is an IPv4 peer.
// rule: Peer
pub fn read_peer(text: &[u8]) -> Option<Peer>
    ensures { result ≡ peer_of text.now }
{
    match read_address(text)? {
        Address::V4(n) => Some(Peer::of_v4(n)),
        Address::V6(n) => Some(Peer::of_v6(n)),
    }
}

/// Written as a dotted quad, or as eight groups in lower hexadecimal with no needless zeros, and never shortened.
impl fmt::Display for Peer {
    ghost use Rattle.std.specs.Prelude.{Some};
    ghost use Rattle.radio_addr.specs.Writing.{written};

    ghost output = { λ p. Some (written p) };

    fn fmt<W: fmt::Write>(&self, f: &mut fmt::Formatter<W>) -> fmt::Result {
        match self.address {
            Address::V4(n) => DottedQuad(n).fmt(f),
            Address::V6(n) => EightGroups(n).fmt(f),
        }
    }
}

/// A law: what is written of a peer is read back as the same peer.
///
/// The function does nothing; a caller that needs the law in a proof calls it, and cites its clause.
// rule: Peer
pub fn written_peers()
    ensures { (p : AddressOf) → IsPeer p → peer_of (written p) ≡ Some p }
{
    fields();
}
