//! What of the settings is doubtful.
ghost use Rattle.std.specs.Prelude.{◌≡◌, Some};
ghost use Rattle.radio_addr.specs.Addresses.{peer_of};
ghost use Rattle.radio_startup.specs.Doubts.{is_example, is_loopback, is_set_mount, limit_of, limited_listeners};

use radio_addr::{Address, read_peer};
use radio_settings_values::{MountSetting, Settings};
use radio_values::MountName;

/// Whether a password is one of the example, which everybody knows.
pub fn is_example(password: &str) -> bool
    ensures { result ≡ is_example password.now }
{
    password == "hackme" || password == "letmein"
}

/// Whether only this machine reaches an address (RFC 1122, section 3.2.1.3; RFC 4291, section 2.5.3).
pub fn is_loopback(address: &str) -> bool
    ensures { result ≡ is_loopback (peer_of address.now) }
{
    match read_peer(address.as_bytes()) {
        Some(peer) => is_of_this_machine(peer.address()),
        None => false,
    }
}

fn is_of_this_machine(address: Address) -> bool
    ensures { result ≡ is_loopback (Some address) }
{
    match address {
        Address::V4(n) => n / 0x100_0000 == 127,
        Address::V6(n) => n == 1,
    }
}

/// Whether the settings name a mount: in a table of its own, as what a relay feeds, or by a slave, which feeds whatever its
/// master has.
pub fn is_named(settings: &Settings, name: &MountName) -> bool
    ensures { result ≡ is_set_mount settings.now name.now }
{
    settings.mounts.get(name).is_some()
        || settings.relays.get(name).is_some()
        || settings.slave.is_some()
}

/// How many listeners the mounts may have together that have a limit.
pub fn limited_listeners(mounts: &[MountSetting]) -> u64
    ensures { result ≡ limited_listeners mounts.now }
{
    let mut sum: u64 = 0;
    for mount in mounts {
        sum = sum.saturating_add(limit_of(mount));
    }
    sum
}

/// How many listeners a mount may have; 0 for no limit.
fn limit_of(mount: &MountSetting) -> u64
    ensures { result ≡ limit_of mount.now }
{
    match mount.options.listeners.max_listeners {
        Some(limit) => limit.get() as u64,
        None => 0,
    }
}
