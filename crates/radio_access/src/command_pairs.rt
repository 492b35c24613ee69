//! The pairs that open commands.

ghost use Rattle.std.specs.Prelude.{◌≡◌, None};
ghost use Rattle.std.specs.Option.{option_copied};
ghost use Rattle.radio_access.specs.CommandPairs.{is_admin_pair, is_named_source_pair, is_relay_pair, is_relays};

use crate::source_pair::{is_login, is_source_pair, is_user_with};
use radio_creds::Pair;
use radio_settings_values::{RelayAccess, Settings};
use radio_values::MountName;

/// Whether a pair, or none, is the one of the station's admin: `admin-user` and `admin-password`.
///
/// All bytes of the password are compared, wherever two of one length differ.
// rule: Admin password; Who may command
pub fn is_admin_pair(settings: &Settings, pair: Option<&Pair>) -> bool
    ensures { result ≡ is_admin_pair settings.now (option_copied pair.entry) }
{
    match pair {
        Some(pair) => is_login(&settings.access.admin, pair),
        None => false,
    }
}

/// Whether a pair, or none, is the one that relays send: `relay-user` and `relay-password`. Where no
/// such password is set, none is.
///
/// All bytes of the password are compared, wherever two of one length differ.
// rule: Relay password; List of streams
pub fn is_relay_pair(settings: &Settings, pair: Option<&Pair>) -> bool
    ensures { result ≡ is_relay_pair settings.now (option_copied pair.entry) }
{
    match pair {
        Some(pair) => is_relays(&settings.access.relays, pair),
        None => false,
    }
}

/// Whether a pair, or none, is the one that the source of the mount sends that was named; where none
/// was, the one of a mount without settings: `source` and the station's source password.
// rule: Who may command
pub fn is_named_source_pair(
    settings: &Settings,
    mount: Option<&MountName>,
    pair: Option<&Pair>,
) -> bool
    ensures { result ≡ is_named_source_pair settings.now (option_copied mount.entry) (option_copied pair.entry) }
{
    match mount {
        Some(mount) => is_source_pair(settings, mount, pair),
        None => is_other_source_pair(settings, pair),
    }
}

fn is_relays(relays: &RelayAccess, pair: &Pair) -> bool
    ensures { result ≡ is_relays relays.now pair.now }
{
    match &relays.password {
        Some(password) => is_user_with(&relays.username, password, pair),
        None => false,
    }
}

fn is_other_source_pair(settings: &Settings, pair: Option<&Pair>) -> bool
    ensures { result ≡ is_named_source_pair settings.now None (option_copied pair.entry) }
{
    match pair {
        Some(pair) => is_login(&settings.other_mounts.source, pair),
        None => false,
    }
}
