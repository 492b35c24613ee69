//! The settings, table by table. Keys are named and meant as in the Icecast 2.4 documentation, where it has them.

use crate::{MountSettings, RelaySettings, WebSettings};
use radio_values::{Field, MountName, Text, Within};

/// A number of bytes, from 1 to 2^30.
pub type SomeBytes = Within<1, 1_073_741_824>;

/// A number of bytes, from 0 to 2^30.
pub type Bytes = Within<0, 1_073_741_824>;

/// A number of seconds, from 1 to those of a day.
pub type SecondsOfDay = Within<1, 86400>;

/// A TCP port to connect to.
pub type Port = Within<1, 65535>;

/// What a station sets.
pub struct Settings {
    /// The keys above all tables: who may do what.
    pub access: AccessSettings,
    /// The table `[listen]`.
    pub listen: ListenSettings,
    /// The table `[limits]`.
    pub limits: LimitSettings,
    /// The table `[web]`.
    pub web: WebSettings,
    /// The tables `[[mount]]`.
    pub mounts: MountSettings,
    /// What holds for a mount that has no table.
    pub other_mounts: MountOptions,
    /// The tables `[[relay]]`.
    pub relays: RelaySettings,
    /// The table `[slave]`.
    pub slave: Option<SlaveSetting>,
}

impl Drop for Settings {
    fn drop(self) {
        let Settings {
            access,
            listen,
            limits,
            web,
            mounts,
            other_mounts,
            relays,
            slave,
        } = self;
        drop(access);
        drop(listen);
        drop(limits);
        drop(web);
        drop(mounts);
        drop(other_mounts);
        drop(relays);
        drop(slave);
    }
}

/// Passwords, users and address lists of the whole station.
#[derive(Drop)]
pub struct AccessSettings {
    /// What a source client sends, where its mount sets no password of its own.
    pub source_password: Text,
    /// The admin: `admin-user` and `admin-password`.
    pub admin: Login,
    /// Who may ask for the list of streams.
    pub relays: RelayAccess,
    /// Lists of addresses.
    pub addresses: AddressLists,
}

/// A user and a password.
#[derive(Drop)]
pub struct Login {
    /// The user.
    pub username: Text,
    /// The password.
    pub password: Text,
}

/// Who may ask for the list of streams in addition to the admin: `relay-user` and `relay-password`.
#[derive(Drop)]
pub struct RelayAccess {
    /// The user.
    pub username: Text,
    /// The password; with none, everybody is turned away but the admin.
    pub password: Option<Text>,
}

/// The lists of addresses that hold for all clients.
#[derive(Drop)]
pub struct AddressLists {
    /// The path of a list of addresses that are denied.
    pub deny_ip: Option<Text>,
    /// The path of a list of addresses, all others of which are denied.
    pub allow_ip: Option<Text>,
}

/// Where the server listens.
#[derive(Drop)]
pub struct ListenSettings {
    /// The address to bind.
    pub address: Text,
    /// The TCP port to bind; 0 for any that is free.
    pub port: Within<0, 65535>,
    /// How many threads serve.
    pub workers: Within<1, 64>,
}

/// The limits of the whole station.
#[derive(Clone, Copy)]
pub struct LimitSettings {
    /// How many clients may be there at once.
    pub clients: Within<1, 1_000_000>,
    /// How many sessions of sources and relays may be live at once.
    pub sources: Within<1, 100_000>,
    /// How many bytes of a stream a listener may lie behind its end.
    pub queue_size: SomeBytes,
    /// How many bytes a new listener is sent at once, where the mount does not say.
    pub burst_size: Bytes,
    /// After how many seconds without data a source is ended.
    pub source_timeout: SecondsOfDay,
    /// After how many seconds without a request a client is ended.
    pub header_timeout: SecondsOfDay,
}

/// A table `[[mount]]`.
pub struct MountSetting {
    /// The mount's name.
    pub name: MountName,
    /// What it sets, and the defaults of what it does not.
    pub options: MountOptions,
}

impl Drop for MountSetting {
    fn drop(self) {
        let MountSetting { name: _, options } = self;
        drop(options);
    }
}

/// What a mount may set, with every default in its place.
pub struct MountOptions {
    /// Its source: `username` and `password`.
    pub source: Login,
    /// How many may listen and how long, and where they go.
    pub listeners: ListenerOptions,
    /// What its listeners are sent.
    pub stream: StreamOptions,
    /// Who may listen.
    pub users: UserOptions,
}

impl Drop for MountOptions {
    fn drop(self) {
        let MountOptions {
            source,
            listeners,
            stream,
            users,
        } = self;
        drop(source);
        drop(listeners);
        drop(stream);
        drop(users);
    }
}

/// How many may listen to a mount and how long, and where they go.
#[derive(Clone, Copy)]
pub struct ListenerOptions {
    /// How many listeners it may have at once; `None` for no limit.
    pub max_listeners: Option<Within<0, 1_000_000>>,
    /// After how many seconds a listener is ended; `None` for no limit.
    pub max_listener_duration: Option<Within<1, 31_536_000>>,
    /// Where its listeners go when its session ends.
    pub fallback_mount: Option<MountName>,
    /// Whether they come back when a session begins again.
    pub fallback_override: bool,
    /// Whether a listener goes to the fallback where the mount is full.
    pub fallback_when_full: bool,
}

/// What the listeners of a mount are sent, and whether it is listed.
#[derive(Drop)]
pub struct StreamOptions {
    /// Whether public listings leave the mount out.
    pub hidden: bool,
    /// How many bytes a new listener is sent at once.
    pub burst_size: Bytes,
    /// After how many bytes of data a metadata block comes.
    pub mp3_metadata_interval: Within<1, 1_000_000>,
    /// The stream's name; `None` for the source's.
    pub stream_name: Option<Field>,
    /// The genre; `None` for the source's.
    pub genre: Option<Field>,
    /// What else is said of the stream.
    pub about: AboutOptions,
}

/// What a mount's table says of its stream beyond its name and genre.
#[derive(Drop)]
pub struct AboutOptions {
    /// `stream-description`; `None` for the source's.
    pub description: Option<Field>,
    /// `stream-url`; `None` for the source's.
    pub url: Option<Field>,
    /// `bitrate`; `None` for the source's.
    pub bitrate: Option<Field>,
}

/// Who may listen to a mount.
#[derive(Drop)]
pub struct UserOptions {
    /// The path of its user list; `None` for an open mount.
    pub htpasswd: Option<Text>,
    /// Whether a user may listen twice at once.
    pub allow_duplicate_users: bool,
}

/// A table `[[relay]]`: a mount of another server that is pulled in.
pub struct RelaySetting {
    /// The other server: `server` and `port`.
    pub master: Master,
    /// The mount to pull.
    pub mount: MountName,
    /// The mount that it feeds here.
    pub local_mount: MountName,
    /// What is sent to the master; `None` for nothing.
    pub login: Option<Login>,
    /// Whether it is pulled only while somebody sits at the mount that it feeds.
    pub on_demand: bool,
}

impl Drop for RelaySetting {
    fn drop(self) {
        let RelaySetting {
            master,
            mount: _,
            local_mount: _,
            login,
            on_demand: _,
        } = self;
        drop(master);
        drop(login);
    }
}

/// A server that streams are pulled from.
#[derive(Drop)]
pub struct Master {
    /// Its name or address.
    pub server: Field,
    /// Its port.
    pub port: Port,
}

/// The table `[slave]`: a master whose mounts are all pulled in.
pub struct SlaveSetting {
    /// The master: `master-server` and `master-port`.
    pub master: Master,
    /// What is sent to the master: `master-username` and `master-password`.
    pub login: Login,
    /// After how many seconds the list of streams is asked for again.
    pub master_update_interval: SecondsOfDay,
}

impl Drop for SlaveSetting {
    fn drop(self) {
        let SlaveSetting {
            master,
            login,
            master_update_interval,
        } = self;
        drop(master);
        drop(login);
        drop(master_update_interval);
    }
}
