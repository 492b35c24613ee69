//! Every key given once and read back, and every default.

use crate::settings::dashes::{field_or_dash, name_or_dash, or_dash, or_zero, origin_or_dash};
use radio_settings::{AnswerSettings, read_answers, read_proxies, read_settings};
use radio_settings_values::{
    Login, MountOptions, RelaySetting, Settings, SlaveSetting, WebPath, WebSettings,
};
use radio_values::{MountName, Text};
use std::alloc::Global;

const EVERY_KEY: &str = "
source-password = \"sp\"
admin-user = \"au\"
admin-password = \"ap\"
relay-user = \"ru\"
relay-password = \"rp\"
deny-ip = \"d\"
allow-ip = \"a\"
[listen]
address = \"::\"
port = 1
workers = 2
proxy-from = \"pf\"
[limits]
clients = 3
sources = 4
queue-size = 5
burst-size = 6
source-timeout = 7
header-timeout = 8
[web]
allow-origin = \"*\"
icecast-status = true
page = true
public-url = \"pu\"
cache-control = true
browser-commands = true
log-polls = false
icecast-heads = true
[[mount]]
mount-name = \"/a\"
username = \"mu\"
password = \"mp\"
max-listeners = 9
max-listener-duration = 10
fallback-mount = \"/b\"
fallback-override = true
fallback-when-full = true
hidden = true
burst-size = 11
mp3-metadata-interval = 12
stream-name = \"N\\tight\"
genre = \"Talk\"
stream-description = \"D\\tay\"
stream-url = \"U\"
bitrate = \"128\"
htpasswd = \"h\"
allow_duplicate_users = false
[[relay]]
server = \"s\\n\"
port = 13
mount = \"/c\"
local-mount = \"/e\"
username = \"u\"
password = \"p\"
on-demand = true
[slave]
master-server = \"m\\u007f\"
master-port = 14
master-username = \"su\"
master-password = \"spw\"
master-update-interval = 15
";

/// What only two texts are set to: the passwords, a mount, a relay and a slave, each with the keys that it needs.
const NEEDED_KEYS: &str = "
source-password = \"sp\"
admin-password = \"ap\"
[[mount]]
mount-name = \"/a\"
[[relay]]
server = \"s\"
mount = \"/e\"
[slave]
master-server = \"m\"
master-password = \"spw\"
";

/// What a text sets, with `-` for what is absent and 0 for no limit: for the whole station, of the mount `/a`, of the mount
/// `/b`, which has no table, and of the relay that feeds `/e`.
struct Station {
    /// The texts above all tables, and the address.
    texts: [&'static str; 8],
    /// The numbers of `[listen]` and of `[limits]`.
    numbers: [u32; 8],
    /// Whose pages may read, and what `/status-json.xsl` and `/` name.
    origin: &'static [u8],
    paths: [Option<WebPath>; 2],
    /// What is written before a mount's name.
    public_url: &'static str,
    answers: AnswerSettings,
    /// The path of the list of proxies.
    proxies: &'static str,
    mount: Mount,
    other_mount: Mount,
    relay: [&'static str; 5],
    relay_port: u32,
    is_on_demand: bool,
    slave: [&'static str; 3],
    slave_numbers: [u32; 2],
}

/// What holds for a mount, in the order of `mount_texts`, `mount_numbers` and `mount_flags`.
struct Mount {
    texts: [&'static str; 9],
    numbers: [u32; 4],
    flags: [bool; 4],
}

const EVERY_KEY_SET: Station = Station {
    texts: ["sp", "au", "ap", "ru", "rp", "d", "a", "::"],
    numbers: [1, 2, 3, 4, 5, 6, 7, 8],
    origin: b"*",
    paths: [Some(WebPath::IcecastStatus), Some(WebPath::Page)],
    public_url: "pu",
    answers: AnswerSettings {
        has_table: true,
        cache_control: true,
        browser_commands: true,
        log_polls: false,
        icecast_heads: true,
    },
    proxies: "pf",
    mount: Mount {
        texts: ["mu", "mp", "/b", "Night", "Talk", "Day", "U", "128", "h"],
        numbers: [9, 10, 11, 12],
        flags: [true, true, true, false],
    },
    other_mount: Mount {
        texts: ["source", "sp", "-", "-", "-", "-", "-", "-", "-"],
        numbers: [0, 0, 6, 16000],
        flags: [false, false, false, true],
    },
    relay: ["s", "/c", "/e", "u", "p"],
    relay_port: 13,
    is_on_demand: true,
    slave: ["m", "su", "spw"],
    slave_numbers: [14, 15],
};

const DEFAULT_MOUNT: Mount = Mount {
    texts: ["source", "sp", "-", "-", "-", "-", "-", "-", "-"],
    numbers: [0, 0, 65_536, 16000],
    flags: [false, false, false, true],
};

const DEFAULTS: Station = Station {
    texts: ["sp", "admin", "ap", "relay", "-", "-", "-", "127.0.0.1"],
    numbers: [8000, 4, 100, 2, 524_288, 65_536, 10, 15],
    origin: b"-",
    paths: [None, None],
    public_url: "-",
    answers: AnswerSettings {
        has_table: false,
        cache_control: false,
        browser_commands: false,
        log_polls: true,
        icecast_heads: false,
    },
    proxies: "-",
    mount: DEFAULT_MOUNT,
    other_mount: DEFAULT_MOUNT,
    relay: ["s", "/e", "/e", "-", "-"],
    relay_port: 8000,
    is_on_demand: false,
    slave: ["m", "relay", "spw"],
    slave_numbers: [8000, 120],
};

/// The texts above all tables, and the address.
fn basic_texts(settings: &Settings) -> [&str; 8] {
    let access = &settings.access;
    [
        access.source_password.as_str(),
        access.admin.username.as_str(),
        access.admin.password.as_str(),
        access.relays.username.as_str(),
        or_dash(&access.relays.password),
        or_dash(&access.addresses.deny_ip),
        or_dash(&access.addresses.allow_ip),
        settings.listen.address.as_str(),
    ]
}

/// The numbers of `[listen]` and of `[limits]`.
fn basic_numbers(settings: &Settings) -> [u32; 8] {
    let limits = &settings.limits;
    [
        settings.listen.port.get(),
        settings.listen.workers.get(),
        limits.clients.get(),
        limits.sources.get(),
        limits.queue_size.get(),
        limits.burst_size.get(),
        limits.source_timeout.get(),
        limits.header_timeout.get(),
    ]
}

fn mount_texts(options: &MountOptions) -> [&str; 9] {
    let about = &options.stream.about;
    [
        options.source.username.as_str(),
        options.source.password.as_str(),
        name_or_dash(&options.listeners.fallback_mount),
        field_or_dash(&options.stream.stream_name),
        field_or_dash(&options.stream.genre),
        field_or_dash(&about.description),
        field_or_dash(&about.url),
        field_or_dash(&about.bitrate),
        or_dash(&options.users.htpasswd),
    ]
}

fn mount_numbers(options: &MountOptions) -> [u32; 4] {
    [
        or_zero(options.listeners.max_listeners),
        or_zero(options.listeners.max_listener_duration),
        options.stream.burst_size.get(),
        options.stream.mp3_metadata_interval.get(),
    ]
}

fn mount_flags(options: &MountOptions) -> [bool; 4] {
    [
        options.listeners.fallback_override,
        options.listeners.fallback_when_full,
        options.stream.hidden,
        options.users.allow_duplicate_users,
    ]
}

fn relay_texts(relay: &RelaySetting) -> [&str; 5] {
    let (username, password) = login_texts(&relay.login);
    [
        relay.master.server.as_str(),
        relay.mount.as_str(),
        relay.local_mount.as_str(),
        username,
        password,
    ]
}

fn login_texts(login: &Option<Login>) -> (&str, &str) {
    match login {
        Some(login) => (login.username.as_str(), login.password.as_str()),
        None => ("-", "-"),
    }
}

/// Whether another handle on a text has the same text.
fn is_shared(text: &Text) -> bool {
    match text.clone() {
        Ok(other) => other.as_str() == text.as_str(),
        Err(_) => false,
    }
}

/// Whether the web site is as wanted, and no other path is one of it.
fn is_web(web: &WebSettings, want: &Station) -> bool {
    origin_or_dash(web) == want.origin
        && or_dash(&web.public_url) == want.public_url
        && [web.path(b"/status-json.xsl"), web.path(b"/")] == want.paths
        && web.has(b"/") == web.page
        && !web.has(b"/status.json")
        && !web.has(b"")
}

/// Whether the keys above all tables, `[listen]`, `[limits]` and `[web]` are as wanted.
fn has_basics(settings: &Settings, want: &Station) -> bool {
    basic_texts(settings) == want.texts
        && basic_numbers(settings) == want.numbers
        && is_web(&settings.web, want)
}

fn is_mount(options: &MountOptions, want: &Mount) -> bool {
    mount_texts(options) == want.texts
        && mount_numbers(options) == want.numbers
        && mount_flags(options) == want.flags
}

fn has_mount(settings: &Settings, path: &[u8], want: &Mount) -> bool {
    match MountName::read(path) {
        Some(name) => is_mount(settings.options(&name), want),
        None => false,
    }
}

fn is_relay(relay: &RelaySetting, want: &Station) -> bool {
    relay_texts(relay) == want.relay
        && relay.on_demand == want.is_on_demand
        && relay.master.port.get() == want.relay_port
}

/// The relay that feeds a mount.
fn relay_at<'a>(settings: &'a Settings, path: &[u8]) -> Option<&'a RelaySetting> {
    settings.relays.get(&MountName::read(path)?)
}

fn has_relay(settings: &Settings, path: &[u8], want: &Station) -> bool {
    match relay_at(settings, path) {
        Some(relay) => is_relay(relay, want),
        None => false,
    }
}

fn is_slave(slave: &SlaveSetting, want: &Station) -> bool {
    slave_texts(slave) == want.slave
        && [slave.master.port.get(), slave.master_update_interval.get()] == want.slave_numbers
}

fn has_slave(settings: &Settings, want: &Station) -> bool {
    match &settings.slave {
        Some(slave) => is_slave(slave, want),
        None => false,
    }
}

fn slave_texts(slave: &SlaveSetting) -> [&str; 3] {
    [
        slave.master.server.as_str(),
        slave.login.username.as_str(),
        slave.login.password.as_str(),
    ]
}

/// Whether the settings are those of a station.
fn is_station(settings: &Settings, want: &Station) -> bool {
    has_basics(settings, want)
        && is_shared(&settings.access.source_password)
        && has_mount(settings, b"/a", &want.mount)
        && has_mount(settings, b"/b", &want.other_mount)
        && has_relay(settings, b"/e", want)
        && has_slave(settings, want)
}

/// Whether a copy of the settings is those of the station too.
fn is_copied(settings: &Settings, want: &Station) -> bool {
    match settings.clone() {
        Ok(copy) => is_station(&copy, want),
        Err(_) => false,
    }
}

/// Whether a text says of answers what is wanted.
fn has_answers(alloc: Global, text: &str, want: &Station) -> bool {
    match read_answers(alloc, text) {
        Ok(answers) => answers == want.answers,
        Err(_) => false,
    }
}

/// Whether a text names the list of proxies that is wanted.
fn has_proxies(alloc: Global, text: &str, want: &Station) -> bool {
    match read_proxies(alloc, text) {
        Ok(path) => or_dash(&path) == want.proxies,
        Err(_) => false,
    }
}

/// Whether a text sets this station.
fn sets(alloc: Global, text: &str, want: &Station) -> bool {
    let Ok(settings) = read_settings(alloc, text) else {
        return false;
    };
    let is_wanted = is_station(&settings, want) && is_copied(&settings, want);
    drop(settings);
    is_wanted && has_answers(alloc, text, want) && has_proxies(alloc, text, want)
}

/// Texts, and what they set.
const STATIONS: &[(&str, &Station)] = &[(EVERY_KEY, &EVERY_KEY_SET), (NEEDED_KEYS, &DEFAULTS)];

// rule: Reading settings
#[test]
fn every_key_and_its_default(rt: HostRuntime) {
    for (text, want) in STATIONS {
        assert!(rt; sets(rt.alloc(), text, want));
    }
}
