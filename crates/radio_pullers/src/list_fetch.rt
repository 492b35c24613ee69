//! The thread that asks a slave's master for its list of streams.

ghost use Rattle.std.specs.Prelude.{◌≡◌, ◌↔◌, ◌<◌, length, IfSome, IsTrue};
ghost use Rattle.radio_masters.specs.Listed.{most_listed};
ghost use Rattle.radio_pullers.specs.Lists.{IsListOfAnswer};

use crate::station::RelayedStation;
use crate::waits::waits_until;
use mio::net::TcpStream;
use radio_board::Shared;
use radio_lines::{Network, SocketLine, Sockets, moment};
use radio_masters::{ListLog, ListPull, keep_first};
use radio_settings_values::SlaveSetting;
use radio_tries::{MOST_SILENT_MS, Pause, after, list_due_ms, pause_at};
use radio_values::MountName;
use std::alloc::Global;
use std::collections::BTreeSet;
use std::net::SocketAddr;
use std::sync::Wait;
use std::time::Clock;

/// How many bytes are read at once.
const READ_ROOM: usize = 4096;

/// How long it is waited at once, in milliseconds.
const WAIT_MS: u64 = 500;

/// Asks the master of this slave for its list, again after each interval, until all are to stop. Each list that comes whole
/// is put in force; one that does not leaves the last one so.
pub(crate) fn keep_list<R: Clock + Wait, N: Network, S>(
    rt: &R,
    station: &RelayedStation<'_, N, S>,
    slave: &SlaveSetting,
) {
    let mut log = ListLog::new(station.shared.alloc());
    'lists: for _ in rt.forever() {
        let next_ms = list_due_ms(moment(rt), slave.master_update_interval.get());
        if let Some(names) = fetch(rt, station.net, station.shared, slave) {
            set_list(rt, station, &mut log, names);
        }
        if !waits_until(rt, station.shared, None, next_ms) {
            return;
        }
    }
}

/// Puts the front of a list in force, and logs if there was more of it.
fn set_list<R: Clock + Wait, N: Network, S>(
    rt: &R,
    station: &RelayedStation<'_, N, S>,
    log: &mut ListLog,
    names: BTreeSet<MountName>,
)
    ensures { IsTrue log.new ↔ (most_listed < length names.keys) }
{
    let mut names = names;
    let has_others = keep_first(&mut names);
    let old = station.list.lock(rt).replace(names);
    drop(old);
    let seconds = match rt.since_1970() {
        Ok(since) => since.as_secs(),
        Err(_) => 0,
    };
    log.lines().set_moment(seconds);
    log.note_list(has_others);
    let lines = log.lines().take();
    if !lines.is_empty() {
        station.shared.add_lines(rt, lines.as_slice(), seconds);
    }
}

/// Returns the list of the first address of the master that answers.
// rule: List of a slave
fn fetch<R: Clock + Wait, N: Network>(
    rt: &R,
    net: &N,
    shared: &Shared,
    slave: &SlaveSetting,
) -> Option<BTreeSet<MountName>>
    ensures { IfSome result (λ names. IsListOfAnswer names.keys) }
{
    let mut sockets = Sockets::alone(net, shared.alloc()).ok()?;
    let master = &slave.master;
    let port = master.port.get() as u16;
    'addresses: for address in net.addresses(shared.alloc(), master.server.as_str(), port) {
        if let Some(names) = fetch_at(rt, net, shared, slave, &mut sockets, address) {
            return Some(names);
        }
    }
    None
}

/// Returns the list of the master at this address, if it comes whole and in time.
fn fetch_at<R: Clock + Wait, N: Network>(
    rt: &R,
    net: &N,
    shared: &Shared,
    slave: &SlaveSetting,
    sockets: &mut Sockets,
    address: SocketAddr,
) -> Option<BTreeSet<MountName>>
    ensures { IfSome result (λ names. IsListOfAnswer names.keys) }
{
    let line = sockets.connect(net, address).ok()?;
    let mut pull = ListPull::new(shared.alloc(), slave, line).ok()?;
    list_in(rt, shared, sockets, &mut pull)
}

/// Returns the list, if it comes whole and in time.
fn list_in<R: Clock + Wait>(
    rt: &R,
    shared: &Shared,
    sockets: &mut Sockets,
    pull: &mut ListPull<SocketLine<TcpStream>>,
) -> Option<BTreeSet<MountName>>
    ensures { IfSome result (λ names. IsListOfAnswer names.keys) }
{
    let ends_ms = after(moment(rt), MOST_SILENT_MS);
    let mut buffer = [0u8; READ_ROOM];
    'turns: for _ in rt.forever() {
        let wait_ms = sockets.activity().wait_ms(WAIT_MS);
        let polled = sockets.poll(rt, wait_ms).ok()?;
        let pause = pause_at(shared.is_over(), polled.ms, ends_ms);
        if !matches!(pause, Pause::Waits(_)) {
            return None;
        }
        let turn = pull.turn(&mut buffer).ok()?;
        if let Some(names) = turn {
            return Some(names);
        }
    }
    None
}
