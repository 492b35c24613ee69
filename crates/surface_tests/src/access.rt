//! Lists of users and of addresses, as the server asks them.

use radio_addr::{AddressList, Peer};
use radio_core::Lists;
use radio_creds::{Pair, Users, basic};
use radio_settings::MountName;
use std::alloc::{AllocGlobal, Global};

/// The user `ann` with the password `abc`.
pub const ANN: &[u8] = b"ann:900150983cd24fb0d6963f7d28e17f72\n";

/// What she sends, and what one sends who has another password.
pub const HER_VALUE: &[u8] = b"Basic YW5uOmFiYw==";

pub const OTHER_VALUE: &[u8] = b"Basic YW5uOmFiZA==";

/// The pair of a header's value.
pub fn pair_of(alloc: Global, value: &[u8]) -> Option<Pair> {
    match basic(alloc, value) {
        Ok(pair) => pair,
        Err(_) => None,
    }
}

/// Returns whether the mount is open to a client that sends this value.
fn opens(alloc: Global, lists: &Lists, mount: &MountName, value: &[u8]) -> bool {
    let pair = pair_of(alloc, value);
    lists.lets_in(mount, pair.as_ref())
}

/// Whether the mount is open to her alone.
fn is_hers(alloc: Global, lists: &Lists, mount: &MountName) -> bool {
    opens(alloc, lists, mount, HER_VALUE)
        && !opens(alloc, lists, mount, OTHER_VALUE)
        && !lists.lets_in(mount, None)
}

/// The mount has her as its user from now on. Whether there was memory for it.
fn sets_users(alloc: Global, lists: &mut Lists, mount: MountName) -> bool {
    match Users::read(alloc, ANN) {
        Ok(users) => lists.set_users(mount, users).is_ok(),
        Err(_) => false,
    }
}

/// Whether the mount is open to everybody, and to her alone once it has her as its user.
fn are_users_set(alloc: Global, mount: MountName) -> bool {
    let mut lists = Lists::new(alloc);
    let was_open = lists.lets_in(&mount, None) && !lists.has_users(&mount);
    was_open && sets_users(alloc, &mut lists, mount) && is_hers(alloc, &lists, &mount)
}

/// She has another password, and is taken out then. Whether the mount is open to nobody in the end.
fn loses_her(alloc: Global, lists: &mut Lists, mount: &MountName) -> bool {
    let is_set = lists.set_user(alloc, mount, b"ann", b"abd").is_ok();
    let is_other = opens(alloc, lists, mount, OTHER_VALUE) && lists.has_user(mount, b"ann");
    lists.remove_user(mount, b"ann");
    is_set && is_other && !opens(alloc, lists, mount, OTHER_VALUE) && lists.has_users(mount)
}

/// Whether the mount loses her, and a copy of the lists from before does not.
fn are_users_changed(alloc: Global, mount: MountName) -> bool {
    let mut lists = Lists::new(alloc);
    let are_set = sets_users(alloc, &mut lists, mount);
    let Ok(before) = lists.clone() else {
        return false;
    };
    are_set && loses_her(alloc, &mut lists, &mount) && is_hers(alloc, &before, &mount)
}

#[test]
fn users_of_a_mount(rt: HostRuntime) {
    let Some(mount) = MountName::read(b"/a") else {
        assert!(rt; false);
        return;
    };
    assert!(rt; are_users_set(rt.alloc(), mount));
    assert!(rt; are_users_changed(rt.alloc(), mount));
}

/// The peers of this address are denied, and those of that one allowed alone. Whether both lists were read.
fn sets_addresses(alloc: Global, lists: &mut Lists, denied: &[u8], allowed: &[u8]) -> bool {
    match AddressList::read(alloc, denied) {
        Ok(list) => lists.deny(list),
        Err(_) => return false,
    }
    match AddressList::read(alloc, allowed) {
        Ok(list) => lists.allow(list),
        Err(_) => return false,
    }
    true
}

/// Whether the first peer alone is denied by the lists, and the second alone allowed.
fn are_told_apart(lists: &Lists, denied: Peer, allowed: Peer) -> bool {
    lists.is_denied(denied)
        && !lists.is_denied(allowed)
        && lists.is_allowed(allowed)
        && !lists.is_allowed(denied)
}

/// Whether they are so by a copy of the lists.
fn are_told_apart_again(lists: &Lists, denied: Peer, allowed: Peer) -> bool {
    match lists.clone() {
        Ok(copy) => are_told_apart(&copy, denied, allowed),
        Err(_) => false,
    }
}

/// Whether peers are denied and allowed by the lists.
fn are_addresses_asked(alloc: Global) -> bool {
    let mut lists = Lists::new(alloc);
    let denied = Peer::of_v4(0x0a00_0009);
    let allowed = Peer::of_v4(0xc0a8_0001);
    let is_free = !lists.is_denied(denied) && lists.is_allowed(denied);
    is_free
        && sets_addresses(alloc, &mut lists, b"10.0.0.0/8", b"192.168.0.0/16")
        && are_told_apart(&lists, denied, allowed)
        && are_told_apart_again(&lists, denied, allowed)
}

#[test]
fn addresses_of_a_server(rt: HostRuntime) {
    assert!(rt; are_addresses_asked(rt.alloc()));
}
