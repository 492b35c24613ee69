//! The keys of the settings.
ghost use Rattle.std.specs.Prelude.{◌≡◌};
ghost use Rattle.radio_keys.specs.Keys.{word};

use std::fmt;

/// A key of the settings, or the name of a table. A key of two tables is one.
#[derive(Clone, Copy, PartialEq, Eq)]
pub enum Key {
    SourcePassword,
    AdminUser,
    AdminPassword,
    RelayUser,
    RelayPassword,
    DenyIp,
    AllowIp,
    Listen,
    Address,
    Port,
    Workers,
    ProxyFrom,
    Limits,
    Clients,
    Sources,
    QueueSize,
    BurstSize,
    SourceTimeout,
    HeaderTimeout,
    Web,
    AllowOrigin,
    IcecastStatus,
    Page,
    PublicUrl,
    CacheControl,
    BrowserCommands,
    LogPolls,
    IcecastHeads,
    /// The list of mounts, and what a relay pulls.
    Mount,
    MountName,
    Username,
    Password,
    MaxListeners,
    MaxListenerDuration,
    FallbackMount,
    FallbackOverride,
    FallbackWhenFull,
    Hidden,
    Mp3MetadataInterval,
    StreamName,
    Genre,
    StreamDescription,
    StreamUrl,
    Bitrate,
    Htpasswd,
    AllowDuplicateUsers,
    Relay,
    Server,
    LocalMount,
    OnDemand,
    Slave,
    MasterServer,
    MasterPort,
    MasterUsername,
    MasterPassword,
    MasterUpdateInterval,
}

impl Key {
    /// The word for it in the settings.
    #[tactic(auto, unfolding(crate::specs::Keys::word))]
    pub fn word(self) -> &'static str
        ensures { result.now ≡ word self }
    {
        match self {
            Key::SourcePassword => "source-password",
            Key::AdminUser => "admin-user",
            Key::AdminPassword => "admin-password",
            Key::RelayUser => "relay-user",
            Key::RelayPassword => "relay-password",
            Key::DenyIp => "deny-ip",
            Key::AllowIp => "allow-ip",
            Key::Listen => "listen",
            Key::Address => "address",
            Key::Port => "port",
            Key::Workers => "workers",
            Key::ProxyFrom => "proxy-from",
            Key::Limits => "limits",
            Key::Clients => "clients",
            Key::Sources => "sources",
            Key::QueueSize => "queue-size",
            Key::BurstSize => "burst-size",
            Key::SourceTimeout => "source-timeout",
            Key::HeaderTimeout => "header-timeout",
            Key::Web => "web",
            Key::AllowOrigin => "allow-origin",
            Key::IcecastStatus => "icecast-status",
            Key::Page => "page",
            Key::PublicUrl => "public-url",
            Key::CacheControl => "cache-control",
            Key::BrowserCommands => "browser-commands",
            Key::LogPolls => "log-polls",
            Key::IcecastHeads => "icecast-heads",
            Key::Mount => "mount",
            Key::MountName => "mount-name",
            Key::Username => "username",
            Key::Password => "password",
            Key::MaxListeners => "max-listeners",
            Key::MaxListenerDuration => "max-listener-duration",
            Key::FallbackMount => "fallback-mount",
            Key::FallbackOverride => "fallback-override",
            Key::FallbackWhenFull => "fallback-when-full",
            Key::Hidden => "hidden",
            Key::Mp3MetadataInterval => "mp3-metadata-interval",
            Key::StreamName => "stream-name",
            Key::Genre => "genre",
            Key::StreamDescription => "stream-description",
            Key::StreamUrl => "stream-url",
            Key::Bitrate => "bitrate",
            Key::Htpasswd => "htpasswd",
            Key::AllowDuplicateUsers => "allow_duplicate_users",
            Key::Relay => "relay",
            Key::Server => "server",
            Key::LocalMount => "local-mount",
            Key::OnDemand => "on-demand",
            Key::Slave => "slave",
            Key::MasterServer => "master-server",
            Key::MasterPort => "master-port",
            Key::MasterUsername => "master-username",
            Key::MasterPassword => "master-password",
            Key::MasterUpdateInterval => "master-update-interval",
        }
    }
}

impl fmt::Debug for Key {
    fn fmt<W: fmt::Write>(&self, f: &mut fmt::Formatter<W>) -> fmt::Result {
        f.write_str(self.word())
    }
}
