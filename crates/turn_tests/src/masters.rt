//! A relay and a slave over lines in memory.

use radio_core::Core;
use radio_masters::{
    ListPull, MasterListFault, MountPull, PullTurn, RelayServer, read_list_answer,
};
use radio_session::Ending;
use radio_settings_values::{RelaySetting, Settings, SlaveSetting};
use radio_values::MountName;
use std::alloc::Global;
use std::collections::BTreeSet;
use test_calls::{core, settings};
use test_stations::{HEARD, LISTENER, Look, Manners, MemoryLine, SILENT, Station};

/// A relay that feeds `/a`, and a slave.
const RELAYED: &str = "[[relay]]\nserver = \"master\"\nmount = \"/b\"\nlocal-mount = \"/a\"\n\
[slave]\nmaster-server = \"master\"\nmaster-password = \"x\"\n";

/// A master's answer, with a title, that ends.
const ANSWER: Manners = Manners {
    gives: &[
        b"HTTP/1.0 200 OK\r\nicy-meta",
        b"int: 8\r\n\r\nabcd",
        b"",
        b"efgh\x01StreamTitle='X';",
    ],
    closes_at: 4,
    ..SILENT
};

/// A relay over a line of these manners. None if memory is refused.
fn pull_of(alloc: Global, manners: Manners) -> Option<MountPull<MemoryLine>> {
    let settings = settings(alloc, RELAYED).ok()?;
    let pull = pull_by(alloc, &settings, manners);
    drop(settings);
    pull
}

/// The same, of these settings.
fn pull_by(alloc: Global, settings: &Settings, manners: Manners) -> Option<MountPull<MemoryLine>> {
    let relay = settings.relays.as_slice().first()?;
    MountPull::new(alloc, relay, MemoryLine::new(alloc, manners)).ok()
}

/// A server, as the relay asks it. None if memory is refused.
fn server_of(alloc: Global) -> Option<RelayServer<Core>> {
    let settings = settings(alloc, RELAYED).ok()?;
    let server = server_by(alloc, &settings);
    drop(settings);
    server
}

/// The same, of these settings.
fn server_by(alloc: Global, settings: &Settings) -> Option<RelayServer<Core>> {
    let relay = settings.relays.as_slice().first()?;
    asked_by(alloc, relay)
}

fn asked_by(alloc: Global, relay: &RelaySetting) -> Option<RelayServer<Core>> {
    let core = core(alloc, RELAYED).ok()?;
    RelayServer::new(alloc, core, relay).ok()
}

/// The result of the last of so many turns.
fn last_of(
    pull: &mut MountPull<MemoryLine>,
    server: &mut RelayServer<Core>,
    turns: u64,
) -> PullTurn {
    let mut buffer = [0u8; 64];
    let mut last = PullTurn::Running;
    for _ in 0..turns {
        last = pull.turn(server, &mut buffer);
    }
    last
}

/// Whether the last of so many turns of such a relay has that result.
fn comes_to(alloc: Global, row: &Row) -> bool {
    match pull_of(alloc, row.manners) {
        Some(mut pull) => {
            let comes = asks_as(alloc, &mut pull, row);
            drop(pull);
            comes
        }
        None => false,
    }
}

fn asks_as(alloc: Global, pull: &mut MountPull<MemoryLine>, row: &Row) -> bool {
    match server_of(alloc) {
        Some(mut server) => {
            let ends = ends_as(pull, &mut server, row);
            drop(server.into_server());
            ends
        }
        None => false,
    }
}

fn ends_as(pull: &mut MountPull<MemoryLine>, server: &mut RelayServer<Core>, row: &Row) -> bool {
    let last = last_of(pull, server, row.turns);
    let is_up = pull.number().is_some();
    let is_closed = pull.close(server).is_ok();
    last == row.last && is_up == row.is_up && is_closed
}

/// A relay, and what is seen of it.
struct Row {
    manners: Manners,
    turns: u64,
    last: PullTurn,
    is_up: bool,
}

const ROWS: &[Row] = &[
    Row {
        manners: ANSWER,
        turns: 1,
        last: PullTurn::Running,
        is_up: false,
    },
    Row {
        manners: ANSWER,
        turns: 4,
        last: PullTurn::Running,
        is_up: true,
    },
    Row {
        manners: ANSWER,
        turns: 5,
        last: PullTurn::Closed,
        is_up: true,
    },
    // the request is written byte by byte, and nothing comes
    Row {
        manners: Manners { takes: 1, ..SILENT },
        turns: 9,
        last: PullTurn::Running,
        is_up: false,
    },
    // the write fails, or the read
    Row {
        manners: Manners {
            fails_at: 0,
            ..ANSWER
        },
        turns: 1,
        last: PullTurn::Failed,
        is_up: false,
    },
    Row {
        manners: Manners {
            fails_at: 4,
            ..ANSWER
        },
        turns: 4,
        last: PullTurn::Failed,
        is_up: true,
    },
    Row {
        manners: Manners {
            gives: &[b"HTTP/1.0 404 Not Found\r\n\r\n"],
            ..SILENT
        },
        turns: 1,
        last: PullTurn::Shut(Ending::BadPull),
        is_up: false,
    },
];

// rule: Turn of a pull
// only tested: Turn of a pull: that it stops within a second
// only tested: Turn of a pull: that it is twice a second
#[test]
fn pulls_over_a_line(rt: HostRuntime) {
    for row in ROWS {
        assert!(rt; comes_to(rt.alloc(), row));
    }
}

/// Returns whether a listener gets what a relay has pulled in.
fn is_heard(alloc: Global) -> bool {
    match pulled(alloc) {
        Some(core) => hears(Station::new(alloc, core)),
        None => false,
    }
}

/// A server to which a relay has pulled in all of the answer. None if memory is refused.
fn pulled(alloc: Global) -> Option<Core> {
    let mut pull = pull_of(alloc, ANSWER)?;
    let core = pulled_by(alloc, &mut pull);
    drop(pull);
    core
}

fn pulled_by(alloc: Global, pull: &mut MountPull<MemoryLine>) -> Option<Core> {
    let mut server = server_of(alloc)?;
    if last_of(pull, &mut server, 4) == PullTurn::Running {
        return Some(server.into_server());
    }
    drop(server.into_server());
    None
}

/// Returns whether a listener of this station gets it.
fn hears(mut station: Station<Core>) -> bool {
    let hears = is_heard_at(&mut station);
    drop(station);
    hears
}

fn is_heard_at(station: &mut Station<Core>) -> bool {
    if !station.comes(LISTENER, 0) {
        return false;
    }
    station.turns(1, 1, 2, true);
    station.shows(0, Look::Took(HEARD))
}

// rule: Turn of a pull
#[test]
fn what_is_pulled_is_heard(rt: HostRuntime) {
    assert!(rt; is_heard(rt.alloc()));
}

/// Answers to the request for the list, whether the master has closed, and the names or the fault.
const LISTS: &[(&[u8], bool, Result<&[u8], MasterListFault>)] = &[
    (
        b"HTTP/1.0 200 OK\r\n\r\n/b\r\n/a\nnone\n/b\n",
        true,
        Ok(b"/a /b "),
    ),
    (b"HTTP/1.0 200 OK\r\n\r\n", true, Ok(b"")),
    (
        b"HTTP/1.0 200 OK\r\n\r\n/a\n",
        false,
        Err(MasterListFault::Cut),
    ),
    (
        b"HTTP/1.0 200 OK\r\nContent-Length: 3\r\n\r\n/a\n/b\n",
        false,
        Ok(b"/a "),
    ),
    (
        b"HTTP/1.0 200 OK\r\nContent-Length: 9\r\n\r\n/a\n",
        true,
        Err(MasterListFault::Cut),
    ),
    (
        b"HTTP/1.0 200 OK\r\nContent-Length: 1048577\r\n\r\n/a\n",
        true,
        Err(MasterListFault::TooLong),
    ),
    (
        b"HTTP/1.0 200 OK\r\nContent-Length: x\r\n\r\n/a\n",
        true,
        Err(MasterListFault::TooLong),
    ),
    (
        b"HTTP/1.0 401 No\r\n\r\n/a\n",
        true,
        Err(MasterListFault::Status(401)),
    ),
    (
        b"HTTP/1.1 200 OK\r\nTransfer-Encoding: chunked\r\n\r\n/a\n",
        true,
        Err(MasterListFault::BadHead),
    ),
    (b"HTTP/1.0 200 OK\r\n", true, Err(MasterListFault::Cut)),
    (b"none\r\n\r\n", true, Err(MasterListFault::BadHead)),
];

/// Whether these names are those, each followed by a space.
fn are_named(alloc: Global, names: &BTreeSet<MountName>, wanted: &[u8]) -> bool {
    let mut text = Vec::new(alloc);
    for name in names {
        if text.extend_from_slice(name.as_bytes()).is_err() || text.push(b' ').is_err() {
            return false;
        }
    }
    text.as_slice() == wanted
}

/// Whether an answer is read so.
fn is_read(
    alloc: Global,
    answer: &[u8],
    has_closed: bool,
    wanted: Result<&[u8], MasterListFault>,
) -> bool {
    match (read_list_answer(alloc, answer, has_closed), wanted) {
        (Ok(names), Ok(wanted)) => are_named(alloc, &names, wanted),
        (Err(fault), Err(wanted)) => fault == wanted,
        _ => false,
    }
}

// rule: List of a slave; Failed list
#[test]
fn lists_of_masters(rt: HostRuntime) {
    for (answer, has_closed, wanted) in LISTS {
        assert!(rt; is_read(rt.alloc(), answer, *has_closed, *wanted));
    }
}

/// A master that sends its list in pieces.
const LISTED: Manners = Manners {
    gives: &[b"HTTP/1.0 200 OK\r\n", b"\r\n/a", b"", b"\n/c\n"],
    closes_at: 4,
    ..SILENT
};

/// Whether the slave has this list with its fifth turn.
fn is_listed(alloc: Global) -> bool {
    match settings(alloc, RELAYED) {
        Ok(settings) => {
            let is_listed = is_listed_by(alloc, &settings);
            drop(settings);
            is_listed
        }
        Err(_) => false,
    }
}

fn is_listed_by(alloc: Global, settings: &Settings) -> bool {
    match &settings.slave {
        Some(slave) => comes_to_slave(alloc, slave),
        None => false,
    }
}

fn comes_to_slave(alloc: Global, slave: &SlaveSetting) -> bool {
    match ListPull::new(alloc, slave, MemoryLine::new(alloc, LISTED)) {
        Ok(mut pull) => {
            let is_last = is_last(alloc, &mut pull, 5);
            drop(pull);
            is_last
        }
        Err(_) => false,
    }
}

/// Whether the list comes with the last of so many turns, and no sooner.
fn is_last(alloc: Global, pull: &mut ListPull<MemoryLine>, turns: u64) -> bool {
    let mut buffer = [0u8; 64];
    for _ in 1..turns {
        match has_come(pull, &mut buffer) {
            Ok(false) => (),
            Ok(true) => return false,
            Err(_) => return false,
        }
    }
    is_whole(alloc, pull, &mut buffer)
}

/// Whether the list comes with the next turn.
fn has_come(pull: &mut ListPull<MemoryLine>, buffer: &mut [u8]) -> Result<bool, MasterListFault> {
    Ok(pull.turn(buffer)?.is_some())
}

/// Whether it comes then, and is the master's.
fn is_whole(alloc: Global, pull: &mut ListPull<MemoryLine>, buffer: &mut [u8]) -> bool {
    match pull.turn(buffer) {
        Ok(Some(names)) => are_named(alloc, &names, b"/a /c "),
        Ok(None) => false,
        Err(_) => false,
    }
}

// rule: List of a slave
#[test]
fn a_list_in_pieces(rt: HostRuntime) {
    assert!(rt; is_listed(rt.alloc()));
}
