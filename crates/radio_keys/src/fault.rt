//! What can be wrong with the text of some settings.
ghost use Rattle.std.specs.Prelude.{◌≡◌, ◌++◌, Some};
ghost use Rattle.std.specs.Fmt.{WritesOnOk};
ghost use Rattle.radio_keys.specs.Words.{settings_fault_text};
ghost use Rattle.radio_keys.specs.declared.fault.SettingsFault.TheVariants.{OutOfMemory as NoMemory};

use crate::{Key, OutOfMemory};
use radio_values::MountName;
use std::alloc::AllocFailed;
use std::error::Error;
use std::fmt;

/// Why a text has no settings. The first fault counts, in the order of the table in `docs/FORMATS.md`.
///
/// `Display` writes it in words: `not toml`, `missing KEY`, `wrong kind KEY`, `out of range KEY`, `mount twice NAME`,
/// `bad name KEY`, `out of memory`.
#[derive(Clone, Copy, PartialEq, Eq)]
pub enum SettingsFault {
    /// The text is not TOML.
    NotToml,
    /// A key that must be there is absent.
    Missing { key: Key },
    /// A key has a value of another kind, or the name of a table is none.
    WrongKind { key: Key },
    /// A number lies outside its range, or a text is not one that `Access-Control-Allow-Origin` may have.
    OutOfRange { key: Key },
    /// Two mounts have this name, or two relays feed it.
    MountTwice { name: MountName },
    /// A text is not the name of a mount, or it is a path of the web site.
    BadName { key: Key },
    /// There was no memory. It says nothing of the text.
    OutOfMemory,
}

impl fmt::Display for SettingsFault {
    ghost output = { λ fault. Some (settings_fault_text fault) };

    fn fmt<W: fmt::Write>(&self, f: &mut fmt::Formatter<W>) -> fmt::Result {
        match self {
            SettingsFault::NotToml => f.write_str("not toml"),
            SettingsFault::Missing { key } => write_both(f, "missing ", key.word()),
            SettingsFault::WrongKind { key } => write_both(f, "wrong kind ", key.word()),
            SettingsFault::OutOfRange { key } => write_both(f, "out of range ", key.word()),
            SettingsFault::MountTwice { name } => write_both(f, "mount twice ", name.as_str()),
            SettingsFault::BadName { key } => write_both(f, "bad name ", key.word()),
            SettingsFault::OutOfMemory => f.write_str("out of memory"),
        }
    }
}

/// Writes what is wrong, and the word for where.
fn write_both<W: fmt::Write>(f: &mut fmt::Formatter<W>, what: &str, word: &str) -> fmt::Result
    ensures { WritesOnOk W.write_str_gives f.old result (what.now ++ word.now) f.new }
{
    f.write_str(what)?;
    f.write_str(word)
}

impl fmt::Debug for SettingsFault {
    fn fmt<W: fmt::Write>(&self, f: &mut fmt::Formatter<W>) -> fmt::Result {
        fmt::Display::fmt(self, f)
    }
}

impl Error for SettingsFault {}

impl From<OutOfMemory> for SettingsFault {
    ghost from_gives = { λ _ fault. fault ≡ NoMemory };

    fn from(_refused: OutOfMemory) -> SettingsFault {
        SettingsFault::OutOfMemory
    }
}

impl<T: Drop> From<AllocFailed<T>> for SettingsFault {
    ghost from_gives = { λ _ fault. fault ≡ NoMemory };

    fn from(_refused: AllocFailed<T>) -> SettingsFault {
        SettingsFault::OutOfMemory
    }
}
