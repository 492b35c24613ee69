//! Mounts that relays feed on demand: which listeners sit there, and which mounts are wanted.

use super::words::*;

/// A listener waits at a mount that a relay feeds on demand, hears the relay from its start, and waits again. Then a
/// source feeds the mount that is no relay.
const WAITS: &[(Call, &str)] = &[
    (Call::Arrive, "arrived 1"),
    (Call::Listen(1, "/d"), "seated audio/mpeg,,"),
    (Call::Draw(1, 9), "drawn "),
    (Call::Clock(60_000), "noted"),
    (Call::Draw(1, 9), "drawn "),
    (Call::RelayUp("/d", "audio/aac"), "arrived 2"),
    (Call::Push(2, "abcd"), "noted"),
    (Call::Draw(1, 9), "drawn abcd"),
    (Call::RelayDown(2), "noted"),
    (Call::Draw(1, 9), "drawn "),
    (Call::Arrive, "arrived 3"),
    (Call::Source(3, "/d"), "feeding"),
    (Call::Push(3, "ef"), "noted"),
    (Call::Draw(1, 9), "drawn ef"),
    (Call::Arrive, "arrived 4"),
    (Call::Listen(4, "/d"), "seated audio/aac,Night,"),
];

/// At a mount that nobody feeds, commands find no mount, and listings none.
const IDLE: &[(Call, &str)] = &[
    (Call::Arrive, "arrived 1"),
    (Call::Listen(1, "/d"), "seated audio/mpeg,,"),
    (Call::Arrive, "arrived 2"),
    (Call::KillClient(2, "/d", 1), "deny no-mount"),
    (Call::Arrive, "arrived 3"),
    (Call::KillSource(3, "/d"), "deny no-mount"),
    (Call::Arrive, "arrived 4"),
    (
        Call::Stats(4),
        "{\"clients\":4,\"listeners\":0,\"mounts\":[],\"sources\":0}",
    ),
    (Call::Draw(1, 9), "drawn "),
];

/// Listeners at mounts that relays feed on demand, and one at a mount that no relay feeds.
const TWO_WAIT: &[(Call, &str)] = &[
    (Call::Arrive, "arrived 1"),
    (Call::Source(1, "/a"), "feeding"),
    (Call::Arrive, "arrived 2"),
    (Call::Listen(2, "/a"), "seated audio/aac,Night,"),
    (Call::Arrive, "arrived 3"),
    (Call::Listen(3, "/w"), "seated audio/mpeg,,"),
    (Call::Arrive, "arrived 4"),
    (Call::Listen(4, "/d"), "seated audio/mpeg,,"),
];

/// The last listener leaves, whose relay has come up.
const HAS_LEFT: &[(Call, &str)] = &[
    (Call::Arrive, "arrived 1"),
    (Call::Listen(1, "/d"), "seated audio/mpeg,,"),
    (Call::RelayUp("/d", "audio/aac"), "arrived 2"),
    (Call::Leave(1), "noted"),
];

// rule: Waiting mount; Waiting is not live
#[test]
fn events_on_demand(rt: HostRuntime) {
    assert!(rt; all_reply(rt.alloc(), &[], &[WAITS, IDLE]));
}

// rule: Pulls on demand
#[test]
fn wanted_mounts(rt: HostRuntime) {
    assert!(rt; wants_then(rt.alloc(), TWO_WAIT, &["/d", "/w"]));
    assert!(rt; wants_then(rt.alloc(), HAS_LEFT, &[]));
}
