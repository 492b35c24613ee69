//! Peers that are made of numbers, their texts, and a list of addresses. More texts and lists are in the end-to-end scripts.

use radio_addr::{AddressList, ListFault, Peer};
use std::alloc::Global;

/// Peers, and how they are written. One in `::ffff:0:0/96` is an IPv4 peer.
const WRITTEN: &[(u128, &str)] = &[
    (0xffff_0a00_00ff, "10.0.0.255"),
    (
        0x2001_0db8_0000_0000_0001_0000_0000_0001,
        "2001:db8:0:0:1:0:0:1",
    ),
];

/// Whether the peer of a number is written so.
fn is_written(alloc: Global, number: u128, text: &str) -> bool {
    match Peer::of_v6(number).to_string(alloc) {
        Ok(written) => written.as_str() == text,
        Err(_) => false,
    }
}

// rule: Peer
#[test]
fn made_and_written(rt: HostRuntime) {
    for (number, text) in WRITTEN {
        assert!(rt; is_written(rt.alloc(), *number, text));
    }
}

/// A list of two lines.
const LIST: &[u8] = b"10.0.0.0/8\r\n2001:db8::/32\n";

/// Which peers are in it: two of IPv4, and one of IPv6.
fn listed(alloc: Global, list: &[u8]) -> Result<[bool; 3], ListFault> {
    let list = AddressList::read(alloc, list)?;
    Ok([
        list.contains(Peer::of_v4(0x0aff_0001)),
        list.contains(Peer::of_v4(0x0b00_0001)),
        list.contains(Peer::of_v6(0x2001_0db8 << 96)),
    ])
}

#[test]
fn a_list_of_addresses(rt: HostRuntime) {
    assert!(rt; listed(rt.alloc(), LIST) == Ok([true, false, true]));
    let fault = ListFault::LineFault { line: 2 };
    assert!(rt; listed(rt.alloc(), b"10.0.0.0/8\nx") == Err(fault));
}
