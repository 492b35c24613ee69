//! The pair that a mount's source sends.
ghost use Rattle.std.specs.Prelude.{◌≡◌};
ghost use Rattle.std.specs.Option.{option_copied};
ghost use Rattle.std.specs.Str.{bytes_eq};
ghost use Rattle.radio_access.specs.SourcePair.{is_source_pair, is_login, is_user_with};

use radio_creds::{Pair, is_same_secret};
use radio_settings_values::{Login, Settings};
use radio_values::{MountName, Text};

/// Whether a pair, or none, is the one that the mount's source sends: the user and the password that the mount sets,
/// else `source` and the station's source password (Icecast 2.4 documentation, mount settings).
///
/// All bytes of the password are compared, wherever two of one length differ.
// rule: Source password
pub fn is_source_pair(settings: &Settings, mount: &MountName, pair: Option<&Pair>) -> bool
    ensures { result ≡ is_source_pair settings.now mount.now (option_copied pair.entry) }
{
    match pair {
        Some(pair) => is_login(&settings.options(mount).source, pair),
        None => false,
    }
}

/// Whether a pair is the login.
pub(crate) fn is_login(login: &Login, pair: &Pair) -> bool
    ensures { result ≡ is_login login.now pair.now }
{
    is_user_with(&login.username, &login.password, pair)
}

/// Whether a pair is this user with this password.
pub(crate) fn is_user_with(username: &Text, password: &Text, pair: &Pair) -> bool
    ensures { result ≡ is_user_with username.now password.now pair.now }
{
    let is_user = is_same(username.as_bytes(), pair.user());
    let is_password = is_same(password.as_bytes(), pair.password());
    is_user & is_password
}

/// Whether two texts are the same, in the same number of steps wherever two of one length differ.
fn is_same(a: &[u8], b: &[u8]) -> bool
    ensures { result ≡ bytes_eq a.now b.now }
{
    is_same_secret(a, b)
}
