//! Lists of streams, and what is started and stopped.

use super::*;
use radio_relay::{RelayOrder, plan, read_stream_list};
use radio_settings_values::RelaySetting;
use radio_values::MountName;
use std::collections::BTreeSet;

/// A slave of a station with a mount and two relays.
const STATION: &str = "source-password = 'a'
admin-password = 'b'
[[mount]]
mount-name = '/b'
[[relay]]
server = 's'
mount = '/far'
local-mount = '/r'
[[relay]]
server = 's'
mount = '/c'
[slave]
master-server = 'm'
master-port = 81
master-password = 'pw'
";

/// A list of streams, what relays feed, and what is ordered: `+` starts a relay and `-` stops one.
const PLANS: &[(&[u8], &[u8], &[u8])] = &[
    (b"/a\r\n/b\n/a\nx\n", b"/c\n/r", b"+/a=m:/a "),
    (b"", b"/a\n/c\n/r", b"-/a "),
    (b"/z\n/r\n/c\n", b"", b"+/c=s:/c +/r=s:/far +/z=m:/z "),
    (
        b"/z\r\n/a\r",
        b"/b\n/z",
        b"+/a=m:/a -/b +/c=s:/c +/r=s:/far ",
    ),
    (b"\n\r\n /a\n/a b\n/admin/x\n", b"/c\n/r", b"+/a b=m:/a b "),
];

fn append_order(order: &RelayOrder, out: &mut Vec<u8>) -> Result<(), OutOfMemory> {
    match order {
        RelayOrder::Start(relay) => append_start(relay, out),
        RelayOrder::Stop(mount) => append_parts(&[b"-", mount.as_bytes(), b" "], out),
    }
}

fn append_start(relay: &RelaySetting, out: &mut Vec<u8>) -> Result<(), OutOfMemory> {
    let (local, far) = (relay.local_mount.as_bytes(), relay.mount.as_bytes());
    let server = relay.master.server.as_bytes();
    append_parts(&[b"+", local, b"=", server, b":", far, b" "], out)
}

fn append_orders(orders: &[RelayOrder], out: &mut Vec<u8>) -> Result<(), OutOfMemory> {
    for order in orders {
        append_order(order, out)?;
    }
    Ok(())
}

/// The names in a text, one on each line.
fn names(alloc: Global, text: &[u8]) -> Result<Vec<MountName>, OutOfMemory> {
    let mut names = Vec::new(alloc);
    for line in text.split(|b| *b == b'\n') {
        if let Some(name) = MountName::read(line) {
            names.push(name)?;
        }
    }
    Ok(names)
}

/// Whether this text shows these orders.
fn are_written(alloc: Global, orders: &[RelayOrder], want: &[u8]) -> Result<bool, OutOfMemory> {
    let mut out = Vec::new(alloc);
    append_orders(orders, &mut out)?;
    Ok(out.as_slice() == want)
}

/// Whether that is ordered for this list and these names of what relays feed.
fn is_ordered(
    alloc: Global,
    station: &Settings,
    list: &BTreeSet<MountName>,
    live: &[MountName],
    want: &[u8],
) -> Result<bool, OutOfMemory> {
    let orders = plan(alloc, station, list, live, &[])?;
    are_written(alloc, orders.as_slice(), want)
}

fn is_ordered_for(
    alloc: Global,
    station: &Settings,
    list: &BTreeSet<MountName>,
    live: &[u8],
    want: &[u8],
) -> Result<bool, OutOfMemory> {
    let live = names(alloc, live)?;
    is_ordered(alloc, station, list, live.as_slice(), want)
}

fn is_planned(
    alloc: Global,
    station: &Settings,
    row: (&[u8], &[u8]),
    want: &[u8],
) -> Result<bool, OutOfMemory> {
    let list = read_stream_list(alloc, row.0)?;
    is_ordered_for(alloc, station, &list, row.1, want)
}

fn all_planned(alloc: Global, station: &Settings) -> Result<bool, OutOfMemory> {
    for (list, live, want) in PLANS {
        if !is_planned(alloc, station, (list, live), want)? {
            return Ok(false);
        }
    }
    Ok(true)
}

fn are_planned(alloc: Global) -> Result<bool, OutOfMemory> {
    let station = settings(alloc, STATION)?;
    let planned = all_planned(alloc, &station);
    drop(station);
    planned
}

// rule: Pulled relays
#[test]
fn plans(rt: HostRuntime) {
    assert!(rt; are_planned(rt.alloc()) == Ok(true));
}

/// A station whose only relay is pulled on demand.
const ON_DEMAND: &str = "source-password = 'a'
admin-password = 'b'
[[relay]]
server = 's'
mount = '/far'
local-mount = '/a'
on-demand = true
";

/// What relays feed, what somebody waits for, and what is ordered then.
const DEMANDS: &[(&[u8], &[u8], &[u8])] = &[
    (b"", b"/a", b"+/a=s:/far "),
    (b"/a", b"", b"-/a "),
    (b"", b"", b""),
    (b"/a", b"/a", b""),
];

fn is_ordered_on_demand(
    alloc: Global,
    station: &Settings,
    live: &[MountName],
    wanted: &[MountName],
    want: &[u8],
) -> Result<bool, OutOfMemory> {
    let orders = plan(alloc, station, &BTreeSet::new(alloc), live, wanted)?;
    are_written(alloc, orders.as_slice(), want)
}

/// Whether that is ordered for these names of what relays feed, and of what somebody waits for.
fn is_demanded(
    alloc: Global,
    station: &Settings,
    live: &[u8],
    wanted: &[u8],
    want: &[u8],
) -> Result<bool, OutOfMemory> {
    let live = names(alloc, live)?;
    let wanted = names(alloc, wanted)?;
    is_ordered_on_demand(alloc, station, live.as_slice(), wanted.as_slice(), want)
}

fn all_demanded(alloc: Global, station: &Settings) -> Result<bool, OutOfMemory> {
    for (live, wanted, want) in DEMANDS {
        if !is_demanded(alloc, station, live, wanted, want)? {
            return Ok(false);
        }
    }
    Ok(true)
}

fn are_demanded(alloc: Global) -> Result<bool, OutOfMemory> {
    let station = settings(alloc, ON_DEMAND)?;
    let demanded = all_demanded(alloc, &station);
    drop(station);
    demanded
}

#[test]
fn relays_on_demand(rt: HostRuntime) {
    assert!(rt; are_demanded(rt.alloc()) == Ok(true));
}
