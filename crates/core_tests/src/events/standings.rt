//! Each event at each standing of a client.

use super::words::*;

/// A source is 1, a listener is 2, and 3 has asked for nothing.
const THREE_CLIENTS: &[(Call, &str)] = &[
    (Call::Arrive, "arrived 1"),
    (Call::Arrive, "arrived 2"),
    (Call::Arrive, "arrived 3"),
    (Call::Source(1, "/a"), "feeding"),
    (Call::Push(1, "abcd"), "noted"),
    (Call::Listen(2, "/a"), "seated audio/aac,Night,"),
];

/// What does not fit a client is stray, and changes nothing.
const STRAY_EVENTS: &[(Call, &str)] = &[
    (Call::Source(1, "/b"), "stray"),
    (Call::Listen(1, "/a"), "stray"),
    (Call::Draw(1, 9), "stray"),
    (Call::Source(2, "/b"), "stray"),
    (Call::Push(2, "xy"), "stray"),
    (Call::SourceEnd(2), "stray"),
    (Call::Push(3, "xy"), "stray"),
    (Call::Draw(3, 9), "stray"),
    (Call::SourceEnd(3), "stray"),
    (Call::Leave(4), "stray"),
    (Call::Draw(2, 9), "drawn abcd"),
];

/// A listener is handed the stream piece by piece, as it has room and as it grows.
const PIECE_BY_PIECE: &[(Call, &str)] = &[
    (Call::Draw(2, 3), "drawn abc"),
    (Call::Push(1, "efgh"), "noted"),
    (Call::Draw(2, 0), "drawn "),
    (Call::Draw(2, 2), "drawn de"),
    (Call::Draw(2, 100), "drawn fgh"),
    (Call::Draw(2, 100), "drawn "),
];

/// Each kind of reply.
const EACH_REPLY: &[(Call, &str)] = &[
    (Call::Arrive, "arrived 1"),
    (Call::Source(1, "/a"), "feeding"),
    (Call::Push(1, "abcd"), "noted"),
    (Call::Arrive, "arrived 2"),
    (Call::Listen(2, "/a"), "seated audio/aac,Night,"),
    (Call::Draw(2, 3), "drawn abc"),
    (Call::Arrive, "arrived 3"),
    (Call::Listen(3, "/b"), "deny no-mount"),
    (Call::SourceEnd(1), "noted"),
    (Call::Draw(2, 3), "finished not-live"),
    (Call::Leave(4), "stray"),
    (Call::Arrive, "arrived 4"),
    (Call::Source(4, "/a"), "feeding"),
    (Call::Arrive, "arrived 5"),
    (Call::KillSource(5, "/a"), "done"),
    (Call::SourceEnd(4), "finished source-killed"),
];

/// A record of an event, its client and its caller each have its reply.
#[test]
fn three_equal_replies(rt: HostRuntime) {
    assert!(rt; replies_three_times(rt.alloc(), EACH_REPLY));
}

/// The end of a session finishes its listeners, and no others, until they leave.
const SOURCE_ENDS: &[(Call, &str)] = &[
    (Call::Source(3, "/b"), "feeding"),
    (Call::Arrive, "arrived 4"),
    (Call::Listen(4, "/b"), "seated audio/aac,Night,"),
    (Call::SourceEnd(1), "noted"),
    (Call::Draw(2, 9), "finished not-live"),
    (Call::Listen(2, "/b"), "finished not-live"),
    (Call::Push(1, "xy"), "stray"),
    (Call::Push(3, "xy"), "noted"),
    (Call::Draw(4, 9), "drawn xy"),
    (Call::Leave(2), "noted"),
    (Call::Draw(2, 9), "stray"),
];

/// A source that leaves ends its session too. A listener of the next session hears only that one.
const SOURCE_LEAVES: &[(Call, &str)] = &[
    (Call::Leave(1), "noted"),
    (Call::Source(3, "/a"), "feeding"),
    (Call::Push(3, "new"), "noted"),
    (Call::Draw(2, 9), "finished not-live"),
    (Call::Arrive, "arrived 4"),
    (Call::Listen(4, "/a"), "seated audio/aac,Night,"),
    (Call::Draw(4, 9), "drawn new"),
];

/// Each rule of the policy that a test can meet. A client that is denied has had its answer.
const DENIALS: &[(Call, &str)] = &[
    (Call::Source(3, "/a"), "deny mount-in-use"),
    (Call::Source(3, "/b"), "stray"),
    (Call::Arrive, "arrived 4"),
    (Call::Source(4, "/admin/x"), "deny bad-mount"),
    (Call::Arrive, "arrived 5"),
    (Call::Listen(5, "a"), "deny bad-mount"),
    (Call::Listen(5, "/a"), "stray"),
    (Call::Arrive, "arrived 6"),
    (Call::Listen(6, "/b"), "deny no-mount"),
    (Call::Draw(6, 9), "stray"),
    (Call::Leave(6), "noted"),
    (Call::Draw(2, 9), "drawn abcd"),
];

/// A client gives a command once, if it has asked for nothing before. The reply to a client that the command finished
/// says so.
const COMMANDS: &[(Call, &str)] = &[
    (Call::KillClient(1, "/a", 2), "stray"),
    (Call::KillClient(2, "/a", 2), "stray"),
    (Call::KillClient(4, "/a", 2), "stray"),
    (Call::Draw(2, 2), "drawn ab"),
    (Call::KillClient(3, "/a", 1), "deny no-client"),
    (Call::KillClient(3, "/a", 2), "stray"),
    (Call::Arrive, "arrived 4"),
    (Call::KillClient(4, "/a", 2), "done"),
    (Call::KillClient(4, "/a", 2), "stray"),
    (Call::Draw(2, 2), "finished killed"),
    (Call::KillClient(2, "/a", 2), "finished killed"),
    (Call::Arrive, "arrived 5"),
    (Call::KillSource(5, "a"), "deny missing-argument"),
    (Call::Arrive, "arrived 6"),
    (Call::KillSource(6, "/a"), "done"),
    (Call::Push(1, "xy"), "finished source-killed"),
    (Call::Leave(1), "noted"),
    (Call::Leave(6), "noted"),
];

/// Numbers are not given again.
const NEXT_NUMBER: &[(Call, &str)] = &[(Call::Leave(3), "noted"), (Call::Arrive, "arrived 4")];

/// What the three clients are replied to, a table each.
const TABLES: &[&[(Call, &str)]] = &[
    STRAY_EVENTS,
    PIECE_BY_PIECE,
    SOURCE_ENDS,
    SOURCE_LEAVES,
    DENIALS,
    COMMANDS,
    NEXT_NUMBER,
];

// rule: Client numbers; Client states; Out of place; Leaving; First rule; End of a session; Commands by GET; Draws
#[test]
fn events_at_each_standing(rt: HostRuntime) {
    assert!(rt; all_reply(rt.alloc(), THREE_CLIENTS, TABLES));
}
