//! The tables of the settings, and the keys of each.
ghost use Rattle.std.specs.Prelude.{◌≡◌, find, map};
ghost use Rattle.std.specs.List.{list_any};
ghost use Rattle.std.specs.Option.{option_copied};
ghost use Rattle.radio_settings.specs.Sections.{as_named, home_of, is_key_named, keys_of, knows, section_word, sections};

use crate::Key;
use crate::section::ValueKind::Number;

/// A table of the settings, or the keys above all tables.
#[derive(Clone, Copy, PartialEq, Eq)]
pub enum Section {
    /// The keys above all tables.
    Top,
    /// `[listen]`
    Listen,
    /// `[limits]`
    Limits,
    /// `[web]`
    Web,
    /// A table `[[mount]]`.
    Mount,
    /// A table `[[relay]]`.
    Relay,
    /// `[slave]`
    Slave,
}

/// What the value of a key has to be.
#[derive(Clone, Copy)]
pub enum ValueKind {
    /// A text.
    Text,
    /// An integer from the one to the other.
    Number(u32, u32),
    /// `true` or `false`.
    Flag,
    /// The name of a mount.
    MountName,
    /// What `Access-Control-Allow-Origin` may have.
    Origin,
    /// A table.
    Table,
    /// A list of tables.
    Tables,
}

/// A key of a table, and what its value has to be.
pub type KnownKey = (Key, ValueKind);

/// All tables, in the order in which faults are looked for.
pub const SECTIONS: &[Section] = &[
    Section::Top,
    Section::Listen,
    Section::Limits,
    Section::Web,
    Section::Mount,
    Section::Relay,
    Section::Slave,
];

const TOP: &[KnownKey] = &[
    (Key::SourcePassword, ValueKind::Text),
    (Key::AdminUser, ValueKind::Text),
    (Key::AdminPassword, ValueKind::Text),
    (Key::RelayUser, ValueKind::Text),
    (Key::RelayPassword, ValueKind::Text),
    (Key::DenyIp, ValueKind::Text),
    (Key::AllowIp, ValueKind::Text),
    (Key::Listen, ValueKind::Table),
    (Key::Limits, ValueKind::Table),
    (Key::Web, ValueKind::Table),
    (Key::Mount, ValueKind::Tables),
    (Key::Relay, ValueKind::Tables),
    (Key::Slave, ValueKind::Table),
];

const LISTEN: &[KnownKey] = &[
    (Key::Address, ValueKind::Text),
    (Key::Port, Number(0, 65535)),
    (Key::Workers, Number(1, 64)),
    (Key::ProxyFrom, ValueKind::Text),
];

const LIMITS: &[KnownKey] = &[
    (Key::Clients, Number(1, 1_000_000)),
    (Key::Sources, Number(1, 100_000)),
    (Key::QueueSize, Number(1, 1_073_741_824)),
    (Key::BurstSize, Number(0, 1_073_741_824)),
    (Key::SourceTimeout, Number(1, 86400)),
    (Key::HeaderTimeout, Number(1, 86400)),
];

const WEB: &[KnownKey] = &[
    (Key::AllowOrigin, ValueKind::Origin),
    (Key::IcecastStatus, ValueKind::Flag),
    (Key::Page, ValueKind::Flag),
    (Key::PublicUrl, ValueKind::Text),
    (Key::CacheControl, ValueKind::Flag),
    (Key::BrowserCommands, ValueKind::Flag),
    (Key::LogPolls, ValueKind::Flag),
    (Key::IcecastHeads, ValueKind::Flag),
];

const MOUNT: &[KnownKey] = &[
    (Key::MountName, ValueKind::MountName),
    (Key::Username, ValueKind::Text),
    (Key::Password, ValueKind::Text),
    (Key::MaxListeners, Number(0, 1_000_000)),
    (Key::MaxListenerDuration, Number(1, 31_536_000)),
    (Key::FallbackMount, ValueKind::MountName),
    (Key::FallbackOverride, ValueKind::Flag),
    (Key::FallbackWhenFull, ValueKind::Flag),
    (Key::Hidden, ValueKind::Flag),
    (Key::BurstSize, Number(0, 1_073_741_824)),
    (Key::Mp3MetadataInterval, Number(1, 1_000_000)),
    (Key::StreamName, ValueKind::Text),
    (Key::Genre, ValueKind::Text),
    (Key::StreamDescription, ValueKind::Text),
    (Key::StreamUrl, ValueKind::Text),
    (Key::Bitrate, ValueKind::Text),
    (Key::Htpasswd, ValueKind::Text),
    (Key::AllowDuplicateUsers, ValueKind::Flag),
];

const RELAY: &[KnownKey] = &[
    (Key::Server, ValueKind::Text),
    (Key::Port, Number(1, 65535)),
    (Key::Mount, ValueKind::MountName),
    (Key::LocalMount, ValueKind::MountName),
    (Key::Username, ValueKind::Text),
    (Key::Password, ValueKind::Text),
    (Key::OnDemand, ValueKind::Flag),
];

const SLAVE: &[KnownKey] = &[
    (Key::MasterServer, ValueKind::Text),
    (Key::MasterPort, Number(1, 65535)),
    (Key::MasterUsername, ValueKind::Text),
    (Key::MasterPassword, ValueKind::Text),
    (Key::MasterUpdateInterval, Number(1, 86400)),
];

impl Section {
    /// Returns its name in lines of the log: that of the table, or `top`.
    pub fn word(self) -> &'static str
        ensures { result.now ≡ section_word self }
    {
        match self {
            Section::Top => "top",
            Section::Listen => "listen",
            Section::Limits => "limits",
            Section::Web => "web",
            Section::Mount => "mount",
            Section::Relay => "relay",
            Section::Slave => "slave",
        }
    }

    /// Returns its keys, in the order in which faults are looked for; the names of tables come last of those above all
    /// tables. They are the keys that are read, each of the kind that is asked for.
    // rule: Unknown keys
    pub fn keys(self) -> &'static [KnownKey]
        ensures { map as_named result.now ≡ keys_of self }
    {
        match self {
            Section::Top => TOP,
            Section::Listen => LISTEN,
            Section::Limits => LIMITS,
            Section::Web => WEB,
            Section::Mount => MOUNT,
            Section::Relay => RELAY,
            Section::Slave => SLAVE,
        }
    }

    /// Returns whether a key of this name is read in it.
    // rule: Unknown keys
    #[tactic(auto, using(crate::proofs::SectionLemmas::any_named))]
    pub fn knows(self, name: &str) -> bool
        ensures { result ≡ knows self name.now }
    {
        has_key(self.keys(), name)
    }
}

fn has_key(keys: &[KnownKey], name: &str) -> bool
    ensures { result ≡ list_any (is_key_named name.now) keys.now }
{
    keys.iter().any(|known| known.0.word() == name)
}

/// Returns the first table that knows a key of this name; `None` if no table does.
pub fn home_of(name: &str) -> Option<Section>
    ensures { result ≡ home_of name.now }
{
    find_home(name).copied()
}

fn find_home(name: &str) -> Option<&'static Section>
    ensures { option_copied result ≡ find (λ section. knows section name.now) sections }
{
    SECTIONS.iter().find(|section| section.knows(name))
}
