//! The relays of a station, each in a thread of its own.

ghost use Rattle.std.specs.Prelude.{◌≡◌, ◌==◌, ◌||◌, not, length, is_some};
ghost use Rattle.std.specs.Thread.{IsSync};

use crate::keeper::Keeper;
use crate::list_fetch::keep_list;
use crate::puller::pull_relay;
use crate::running::RunningRelay;
use crate::station::RelayedStation;
use radio_board::Shared;
use radio_events::SharedServer;
use radio_lines::{Network, moment};
use radio_settings_values::{Settings, SlaveSetting};
use std::sync::{Arc, Mutex, Wait};
use std::thread;
use std::thread::{Scope, Threads, sleep};
use std::time::{Clock, Duration};

/// How often it is looked which relays are wished, in milliseconds.
const ROUND_MS: u64 = 500;

/// Whether these settings wish relays, now or later.
pub fn has_relays(settings: &Settings) -> bool
    ensures { result ≡ (not (length settings.now.relays == 0) || is_some settings.now.slave) }
{
    !settings.relays.as_slice().is_empty() || settings.slave.is_some()
}

/// Keeps the relays running that the settings and the slave's list wish, those that are on demand while
/// somebody sits at their mounts, until all are to stop. As many are tried or run at once as there may be sources; of those
/// that wait, the one whose turn it is begins when a place is free. Where memory is refused for
/// one, or no thread can be had, it is tried again.
pub fn keep_relays<'x, R, N, S>(
    rt: &'x R,
    net: &'x N,
    server: &'x S,
    shared: &'x Shared,
    settings: &'x Settings,
)
where
    R: Clock + Threads + Wait + Sync,
    N: Network + Sync,
    S: SharedServer + Sync,
    S::Pass: Send,
{
    let keeper = &mut Keeper::new(shared.alloc());
    let list = Mutex::new(None);
    let station = &RelayedStation::new(net, server, shared, settings, &list);
    thread::scope(
        thread::scope_env(),
        rt,
        move |scope|
            requires { IsSync R.row × IsSync N.row × IsSync S.row }
        { start_relays(scope, keeper, rt, station) },
    )
}

/// Asks for the slave's list, and starts each relay when it is to start, in threads of this scope, until all are to stop.
fn start_relays<'s, E, R, N, S>(
    scope: &Scope<'s, E>,
    keeper: &mut Keeper,
    rt: &'s R,
    station: &'s RelayedStation<'s, N, S>,
)
where
    R: Clock + Threads + Wait + Sync,
    N: Network + Sync,
    S: SharedServer + Sync,
    S::Pass: Send,
{
    let mut slave = station.settings.slave.as_ref();
    'rounds: for _ in rt.forever() {
        if station.shared.is_over() {
            return;
        }
        slave = begin_list(scope, rt, station, slave);
        start_due(scope, keeper, rt, station);
        sleep(rt, Duration::from_millis(ROUND_MS));
    }
}

/// Starts each relay that is to start now.
fn start_due<'s, E, R, N, S>(
    scope: &Scope<'s, E>,
    keeper: &mut Keeper,
    rt: &'s R,
    station: &'s RelayedStation<'s, N, S>,
)
where
    R: Clock + Threads + Wait + Sync,
    N: Network + Sync,
    S: SharedServer + Sync,
    S::Pass: Send,
{
    keeper.look(rt, station);
    for _ in 0..u64::MAX {
        let Some(relay) = keeper.next_start() else {
            return;
        };
        let mount = *relay.mount();
        if !begin(scope, rt, station, relay) {
            keeper.note_no_thread(&mount, moment(rt));
        }
    }
}

/// Asks for the list of this slave, if there is one, by a thread of the scope. Returns the slave if there is no thread for it.
fn begin_list<'s, E, R, N, S>(
    scope: &Scope<'s, E>,
    rt: &'s R,
    station: &'s RelayedStation<'s, N, S>,
    slave: Option<&'s SlaveSetting>,
) -> Option<&'s SlaveSetting>
where
    R: Clock + Threads + Wait + Sync,
    N: Network + Sync,
    S: SharedServer + Sync,
    S::Pass: Send,
{
    let asking = slave?;
    let thread = scope.spawn(move || keep_list(rt, station, asking));
    let has_begun = thread.is_ok();
    drop(thread);
    if has_begun { None } else { slave }
}

/// Pulls this relay in by a thread of the scope. Whether there is one for it.
fn begin<'s, E, R, N, S>(
    scope: &Scope<'s, E>,
    rt: &'s R,
    station: &'s RelayedStation<'s, N, S>,
    relay: Arc<RunningRelay>,
) -> bool
where
    R: Clock + Threads + Wait + Sync,
    N: Network + Sync,
    S: SharedServer + Sync,
    S::Pass: Send,
{
    let thread = scope.spawn(move || pull_relay(rt, station, &relay));
    let has_begun = thread.is_ok();
    drop(thread);
    has_begun
}
