//! Relays: what each event makes of one, and what it is denied.

use super::words::*;

const UP: Call = Call::RelayUp("/a", "audio/aac");

/// A relay feeds as a source does, until it goes down; what is of a client alone is stray.
const FEEDS: &[(Call, &str)] = &[
    (UP, "arrived 1"),
    (Call::Push(1, "abcd"), "noted"),
    (Call::Arrive, "arrived 2"),
    (Call::Listen(2, "/a"), "seated audio/aac,Night,"),
    (Call::Draw(2, 9), "drawn abcd"),
    (Call::SourceEnd(1), "stray"),
    (Call::Leave(1), "stray"),
    (Call::RelayDown(2), "stray"),
    (Call::RelayDown(3), "stray"),
    (Call::Draw(1, 9), "stray"),
    (Call::Source(1, "/b"), "stray"),
    (Call::Listen(1, "/a"), "stray"),
    (Call::Stats(1), "stray"),
    (Call::Push(1, "ef"), "noted"),
    (Call::Draw(2, 9), "drawn ef"),
    (Call::RelayDown(1), "noted"),
    (Call::Draw(2, 9), "finished not-live"),
    (Call::RelayDown(1), "stray"),
    (Call::Push(1, "gh"), "stray"),
    (Call::Arrive, "arrived 3"),
];

/// A relay that is denied takes no number; the sessions of relays count among the sources.
const DENIALS: &[(Call, &str)] = &[
    (UP, "arrived 1"),
    (UP, "deny mount-in-use"),
    (Call::RelayUp("a", "audio/aac"), "deny bad-mount"),
    (Call::RelayUp("/c", "application/ogg"), "deny content-type"),
    (Call::RelayUp("/b", "audio/aac"), "arrived 2"),
    (Call::RelayUp("a", "application/ogg"), "deny bad-mount"),
    (
        Call::RelayUp("/c", "application/ogg"),
        "deny too-many-sources",
    ),
    (UP, "deny too-many-sources"),
    (Call::Arrive, "arrived 3"),
    (Call::Source(3, "/c"), "deny too-many-sources"),
    (Call::RelayDown(2), "noted"),
    (Call::Arrive, "arrived 4"),
    (Call::Source(4, "/c"), "feeding"),
    (Call::RelayUp("/c", "audio/aac"), "deny too-many-sources"),
    (Call::RelayDown(1), "noted"),
    (Call::RelayUp("/c", "audio/aac"), "deny mount-in-use"),
];

/// The replies to a relay whose session a command has ended say so until it goes down.
const KILLED: &[(Call, &str)] = &[
    (UP, "arrived 1"),
    (Call::Arrive, "arrived 2"),
    (Call::KillSource(2, "/a"), "done"),
    (Call::Push(1, "xy"), "finished source-killed"),
    (Call::SourceEnd(1), "finished source-killed"),
    (Call::Draw(1, 9), "finished source-killed"),
    (Call::Source(1, "/b"), "finished source-killed"),
    (Call::Listen(1, "/a"), "finished source-killed"),
    (Call::Stats(1), "finished source-killed"),
    (Call::Leave(1), "stray"),
    (UP, "arrived 3"),
    (Call::Push(1, "xy"), "finished source-killed"),
    (Call::RelayDown(1), "noted"),
    (Call::Push(1, "xy"), "stray"),
    (Call::Push(3, "xy"), "noted"),
];

/// One that has sent nothing in the time for it is finished, and the reply says so.
const SILENT: &[(Call, &str)] = &[
    (UP, "arrived 1"),
    (Call::Clock(9_999), "noted"),
    (Call::Push(1, "a"), "noted"),
    (Call::Clock(19_998), "noted"),
    (Call::Push(1, "b"), "noted"),
    (Call::Clock(29_998), "noted"),
    (Call::Push(1, "c"), "finished source-silent"),
    (Call::RelayDown(1), "noted"),
];

/// A relay is no client, and its session is one of the sources.
const COUNTED: &[(Call, &str)] = &[
    (UP, "arrived 1"),
    (Call::Arrive, "arrived 2"),
    (
        Call::Stats(2),
        "{\"clients\":1,\"listeners\":0,\"mounts\":[{\"genre\":\"\",\"hidden\":false,\"listeners\":0,\"mount\":\"/a\",\"name\":\"Night\",\"session\":1,\"title\":\"\",\"type\":\"audio/aac\"}],\"sources\":1}",
    ),
];

/// A relay that comes up on a mount with `fallback-override` calls home the listeners that had asked for it.
const CALLS_HOME: &[(Call, &str)] = &[
    (UP, "arrived 1"),
    (Call::Arrive, "arrived 2"),
    (Call::Listen(2, "/home"), "seated audio/aac,Night,"),
    (Call::RelayUp("/home", "audio/aac"), "arrived 3"),
    (Call::Push(1, "away"), "noted"),
    (Call::Push(3, "home"), "noted"),
    (Call::Draw(2, 9), "drawn home"),
    (Call::RelayDown(3), "noted"),
    (Call::Push(1, "more"), "noted"),
    (Call::Draw(2, 9), "drawn more"),
];

// rule: History adds up; Order for a relay; Source killed; Relay comes up; Relay is no client; Relay feeds
// rule: Relay goes down; Relay ended before
#[test]
fn events_of_relays(rt: HostRuntime) {
    let tables = &[FEEDS, DENIALS, KILLED, SILENT, COUNTED, CALLS_HOME];
    assert!(rt; all_reply(rt.alloc(), &[], tables));
}
