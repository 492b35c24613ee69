//! What relays and a slave send, what a master answers, and which relays run.

use radio_core::OutOfMemory;
use radio_relay::{
    Pull, PullFault, PullItem, RelayOrder, list_request, plan, read_stream_list, request_text,
};
use radio_settings::{
    MountName, RelaySetting, Settings, SettingsFault, SlaveSetting, read_settings,
};
use std::alloc::{AllocGlobal, Global};

/// A slave, with a relay that is pulled on demand.
const STATION: &str = "source-password = 'a'\nadmin-password = 'b'\n\
[[relay]]\nserver = 's'\nmount = '/far'\nlocal-mount = '/r'\non-demand = true\n\
[slave]\nmaster-server = 'm'\nmaster-password = 'pw'\n";

const RELAY_SENDS: &[u8] =
    b"GET /far HTTP/1.0\r\nHost: s:8000\r\nUser-Agent: radiod\r\nIcy-MetaData: 1\r\n\r\n";

const SLAVE_SENDS: &[u8] =
    b"GET /admin/streamlist.txt HTTP/1.0\r\nHost: m:8000\r\nUser-Agent: radiod\r\n\
Authorization: Basic cmVsYXk6cHc=\r\n\r\n";

/// Whether the relay and the slave send these requests.
fn are_sent(
    alloc: Global,
    relay: &RelaySetting,
    slave: &SlaveSetting,
) -> Result<bool, OutOfMemory> {
    let of_relay = request_text(alloc, relay)?;
    let of_slave = list_request(alloc, slave)?;
    Ok(of_relay.as_slice() == RELAY_SENDS && of_slave.as_slice() == SLAVE_SENDS)
}

/// Whether this starts the relays of these two mounts.
fn start_both(orders: &[RelayOrder]) -> bool {
    match orders {
        [RelayOrder::Start(first), RelayOrder::Start(second)] => {
            first.local_mount.as_bytes() == b"/a".as_slice()
                && second.local_mount.as_bytes() == b"/r".as_slice()
        }
        _ => false,
    }
}

/// Whether the master's mount and the one that is wanted are pulled.
fn are_planned(alloc: Global, settings: &Settings, wanted: MountName) -> Result<bool, OutOfMemory> {
    let list = read_stream_list(alloc, b"/a\r\n/a\nx\n")?;
    let orders = plan(alloc, settings, &list, &[], &[wanted])?;
    Ok(start_both(orders.as_slice()))
}

fn is_run(alloc: Global, settings: &Settings) -> Result<bool, OutOfMemory> {
    match (
        settings.relays.as_slice().first(),
        &settings.slave,
        MountName::read(b"/r"),
    ) {
        (Some(relay), Some(slave), Some(wanted)) => {
            Ok(are_sent(alloc, relay, slave)? && are_planned(alloc, settings, wanted)?)
        }
        _ => Ok(false),
    }
}

fn are_run(alloc: Global) -> Result<bool, SettingsFault> {
    let settings = read_settings(alloc, STATION)?;
    let are_run = is_run(alloc, &settings);
    drop(settings);
    Ok(are_run == Ok(true))
}

/// Whether the first feed brings the head, and the second a fault at which the pull ends.
fn is_pulled(alloc: Global) -> bool {
    let mut pull = Pull::new(alloc);
    match pull.feed(b"HTTP/1.0 200 OK\r\n\r\nabcd") {
        Ok(items) => is_sound(items.as_slice()),
        Err(_) => false,
    }
}

fn is_sound(items: &[PullItem]) -> bool {
    match items {
        [PullItem::Up(_), PullItem::Sound(block)] => block.as_bytes() == b"abcd".as_slice(),
        _ => false,
    }
}

/// Whether an answer without a stream is a fault with its status, and ends the pull.
fn is_refused(alloc: Global) -> bool {
    let mut pull = Pull::new(alloc);
    let fed = pull.feed(b"HTTP/1.0 404 Not Found\r\n\r\n");
    let again = pull.feed(b"");
    matches!(fed, Err(PullFault::Status(404))) && matches!(again, Err(PullFault::Failed))
}

#[test]
fn relays_of_a_station(rt: HostRuntime) {
    assert!(rt; are_run(rt.alloc()) == Ok(true));
    assert!(rt; is_pulled(rt.alloc()));
    assert!(rt; is_refused(rt.alloc()));
}
