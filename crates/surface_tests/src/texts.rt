//! Users of a list, peers of texts, and a body without an end.

use crate::access::{ANN, HER_VALUE, OTHER_VALUE, pair_of};
use radio_addr::{AddressList, Peer, read_peer};
use radio_blocks::Block;
use radio_creds::Users;
use radio_source::{Body, BodyFault};
use std::alloc::{AllocGlobal, Global};

/// Whether the users accept the pair of a header's value.
fn accept(alloc: Global, users: &Users, value: &[u8]) -> bool {
    let pair = pair_of(alloc, value);
    match &pair {
        Some(pair) => users.accepts(pair),
        None => false,
    }
}

/// She has the password `abd` then. Whether that is accepted, and the one before is not.
fn is_set(alloc: Global, users: &mut Users) -> bool {
    let was_hers = accept(alloc, users, HER_VALUE);
    let is_done = users.set(alloc, b"ann", b"abd").is_ok();
    was_hers && is_done && accept(alloc, users, OTHER_VALUE) && !accept(alloc, users, HER_VALUE)
}

/// She is taken out. Whether she was there, and is not any more.
fn is_removed(users: &mut Users) -> bool {
    let was_there = users.has(b"ann") && users.remove(b"ann");
    was_there && !users.has(b"ann") && !users.remove(b"ann")
}

fn are_changed(alloc: Global) -> bool {
    match Users::read(alloc, ANN) {
        Ok(mut users) => is_set(alloc, &mut users) && is_removed(&mut users),
        Err(_) => false,
    }
}

#[test]
fn users_of_a_list(rt: HostRuntime) {
    assert!(rt; are_changed(rt.alloc()));
}

/// Texts, and the number of the IPv4 peer that each is, if it is one.
const PEERS: &[(&[u8], Option<u32>)] = &[
    (b"10.0.0.9", Some(0x0a00_0009)),
    (b"::ffff:10.0.0.9", Some(0x0a00_0009)),
    (b"010.0.0.9", None),
    (b"10.0.0", None),
];

/// The peer of a number.
fn peer_of(number: Option<u32>) -> Option<Peer> {
    match number {
        Some(number) => Some(Peer::of_v4(number)),
        None => None,
    }
}

#[test]
fn peers_of_texts(rt: HostRuntime) {
    for (text, number) in PEERS {
        assert!(rt; read_peer(text) == peer_of(*number));
    }
}

/// Whether a list has the peer of a number.
fn is_listed(alloc: Global) -> bool {
    match AddressList::read(alloc, b"::1\n") {
        Ok(list) => list.contains(Peer::of_v6(1)) && !list.contains(Peer::of_v6(2)),
        Err(_) => false,
    }
}

#[test]
fn peers_of_a_list(rt: HostRuntime) {
    assert!(rt; is_listed(rt.alloc()));
}

/// Whether these are one block of that data.
fn are_one(blocks: &[Block], data: &[u8]) -> bool {
    match blocks {
        [block] => block.as_bytes() == data,
        _ => false,
    }
}

/// Whether a feed of a body without an end brings its data, and the body is not complete.
fn is_fed(body: &mut Body, data: &[u8]) -> Result<bool, BodyFault> {
    let fed = body.feed(data)?;
    Ok(!fed.is_complete && are_one(fed.blocks.as_slice(), data))
}

/// Whether two feeds do.
fn are_fed(alloc: Global) -> Result<bool, BodyFault> {
    let mut body = Body::plain(alloc);
    Ok(is_fed(&mut body, b"abc")? && is_fed(&mut body, b"d")?)
}

#[test]
fn a_body_without_an_end(rt: HostRuntime) {
    assert!(rt; are_fed(rt.alloc()) == Ok(true));
}

/// Whether a feed brings the data `abc`, and the end of the body.
fn is_ended(mut body: Body, data: &[u8]) -> Result<bool, BodyFault> {
    let fed = body.feed(data)?;
    Ok(fed.is_complete && are_one(fed.blocks.as_slice(), b"abc"))
}

#[test]
fn bodies_with_an_end(rt: HostRuntime) {
    assert!(rt; is_ended(Body::sized(rt.alloc(), 3), b"abc") == Ok(true));
    let chunks = b"3\r\nabc\r\n0\r\n\r\n";
    assert!(rt; is_ended(Body::chunked(rt.alloc()), chunks.as_slice()) == Ok(true));
}
