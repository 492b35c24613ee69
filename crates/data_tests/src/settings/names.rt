//! Names of mounts: how they are ordered, and that bytes which are no text name none. Other paths that name mounts, or
//! none, are rows of the end-to-end scripts.

use radio_values::MountName;
use std::cmp::Ordering;

/// Compares the first path's name with the second's. `None` if one of them names no mount.
const ORDERS: &[(&[u8], &[u8], Option<Ordering>)] = &[
    (b"/a", b"/a", Some(Ordering::Equal)),
    (b"/a", b"/ab", Some(Ordering::Less)),
    (b"/ab", b"/b", Some(Ordering::Less)),
    (b"/b", b"/", Some(Ordering::Greater)),
    (b"/a\xff", b"/a", None),
    (b"/a\xc3", b"/a", None),
];

fn order_of(path: &[u8], other: &[u8]) -> Option<Ordering> {
    Some(MountName::read(path)?.cmp(&MountName::read(other)?))
}

// rule: Name of a mount
#[test]
fn names_are_compared_by_their_bytes(rt: HostRuntime) {
    for (path, other, order) in ORDERS {
        assert!(rt; order_of(path, other) == *order);
    }
}
