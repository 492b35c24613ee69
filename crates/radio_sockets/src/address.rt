//! Addresses of sockets.

ghost use Rattle.std.specs.Prelude.{◌≡◌, MatchOption};
ghost use Rattle.std.specs.Net.Grammar.{IsIpText};
ghost use Rattle.std.specs.Net.Socket.{socket_ip, socket_port};
ghost use Rattle.radio_sockets.specs.Peers.{IsNoIp, peer_of_ip};

use radio_addr::Peer;
use std::net::{IpAddr, SocketAddr};

/// Returns the peer at an address.
pub(crate) fn peer_at(address: SocketAddr) -> Peer
    ensures { result ≡ peer_of_ip (socket_ip address) }
{
    match address.ip() {
        IpAddr::V4(v4) => Peer::of_v4(v4.to_bits()),
        IpAddr::V6(v6) => Peer::of_v6(v6.to_bits()),
    }
}

/// Returns the address of this text and port; `None` if the text is no IP address.
pub(crate) fn address_of(text: &str, port: u16) -> Option<SocketAddr>
    ensures { MatchOption result (IsNoIp text.now) (λ address. IsIpText text.now (socket_ip address) × (socket_port address ≡ port)) }
{
    match text.parse::<IpAddr>() {
        Ok(ip) => Some(SocketAddr::new(ip, port)),
        Err(_) => None,
    }
}
