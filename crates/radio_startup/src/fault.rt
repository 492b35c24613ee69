//! Why a file that the program reads first is not taken.

ghost use Rattle.std.specs.Prelude.{◌≡◌, ◌++◌, IfSome, codes};
ghost use Rattle.std.specs.String.{string_bytes};
ghost use Rattle.std.specs.Fmt.{IsPlainFormatter, WritesOnOk, decimal};
ghost use Rattle.radio_startup.specs.FaultLines.{file_status, file_in, key_in, place_in_file, settings_status};
ghost use Rattle.radio_startup.specs.Sayings.{IsReasonOfFile};

use crate::misreading::Misreading;
use crate::notices::words_of;
use radio_log::{FaultyKey, QuotedText};
use radio_review::FaultPlace;
use radio_settings::SettingsFault;
use std::alloc::Global;
use std::{fmt, io};

/// Why the settings file, or one that it names, is not taken. Its text is the line on standard error, after `radiod: `.
#[derive(Drop)]
pub enum FileFault {
    /// The file of this path cannot be read, for this reason.
    CannotRead {
        path: String,
        error: io::Error,
    },
    /// This line of a list of addresses, counted from 1, is no address.
    Line {
        path: String,
        line: usize,
    },
    /// The settings file is not TOML, or not UTF-8, which TOML is.
    NotToml(Misreading),
    /// The settings have this fault, and it is there, if it is of a key.
    Settings {
        fault: SettingsFault,
        at: Option<FaultPlace>,
    },
    /// Memory was refused.
    OutOfMemory,
}

impl FileFault {
    /// The status with which the program ends: 3, and 1 if memory was refused.
    // rule: Fault of a call
    pub fn status(&self) -> u8
        ensures { result ≡ file_status self.now }
    {
        match self {
            FileFault::CannotRead { .. } | FileFault::Line { .. } | FileFault::NotToml(_) => 3,
            FileFault::Settings { fault, .. } => settings_status(fault),
            FileFault::OutOfMemory => 1,
        }
    }

    /// The path of the file that is at fault; `settings` is that of the settings. It is empty if memory was refused.
    pub fn file<'a>(&'a self, settings: &'a str) -> &'a str
        ensures { result.now ≡ file_in self.now settings.now }
    {
        match self {
            FileFault::CannotRead { path, .. } | FileFault::Line { path, .. } => path.as_str(),
            FileFault::NotToml(_) | FileFault::Settings { .. } => settings,
            FileFault::OutOfMemory => "",
        }
    }

    /// Returns the line and the column of the fault, both counted from 1. Each is 0 if it is not known.
    pub fn place(&self) -> (u64, u64)
        ensures { result ≡ place_in_file self.now }
    {
        match self {
            FileFault::Line { line, .. } => (*line as u64, 0),
            FileFault::NotToml(misreading) => (misreading.line as u64, misreading.column as u64),
            FileFault::Settings { at: Some(at), .. } => (at.line, 0),
            FileFault::Settings { at: None, .. }
            | FileFault::CannotRead { .. }
            | FileFault::OutOfMemory => (0, 0),
        }
    }

    /// Returns the place of the fault in the settings, if it is a fault of a key. Else all is empty.
    pub fn key(&self) -> FaultyKey<'_>
        ensures { result ≡ key_in self.now }
    {
        match self {
            FileFault::Settings { at: Some(at), .. } => FaultyKey {
                table: QuotedText::of(at.section.word().as_bytes()),
                mount: QuotedText::of(at.mount.as_bytes()),
                value: QuotedText::of(at.value.as_bytes()),
                allowed: QuotedText::of(at.allowed.as_bytes()),
            },
            FileFault::Settings { at: None, .. }
            | FileFault::CannotRead { .. }
            | FileFault::Line { .. }
            | FileFault::NotToml(_)
            | FileFault::OutOfMemory => FaultyKey {
                table: QuotedText::of(b""),
                mount: QuotedText::of(b""),
                value: QuotedText::of(b""),
                allowed: QuotedText::of(b""),
            },
        }
    }

    /// Returns the reason that the system, or the reader of TOML, gives. Empty if none is known. `None` if memory is refused.
    pub fn reason(&self, alloc: Global) -> Option<String>
        ensures { IfSome result (λ reason. IsReasonOfFile self.now (string_bytes reason)) }
    {
        match self {
            FileFault::CannotRead { error, .. } => words_of(alloc, error),
            FileFault::NotToml(misreading) => words_of(alloc, &misreading.reason.as_str()),
            FileFault::Line { .. } | FileFault::Settings { .. } | FileFault::OutOfMemory => {
                words_of(alloc, &"")
            }
        }
    }
}

/// Want of memory is no fault of the settings.
fn settings_status(fault: &SettingsFault) -> u8
    ensures { result ≡ settings_status fault.now }
{
    match fault {
        SettingsFault::OutOfMemory => 1,
        SettingsFault::NotToml
        | SettingsFault::Missing { .. }
        | SettingsFault::WrongKind { .. }
        | SettingsFault::OutOfRange { .. }
        | SettingsFault::MountTwice { .. }
        | SettingsFault::BadName { .. } => 3,
    }
}

/// Writes which file cannot be read.
fn write_unread<W: fmt::Write>(f: &mut fmt::Formatter<W>, path: &str) -> fmt::Result
    ensures { IsPlainFormatter f.old → WritesOnOk W.write_str_gives f.old result (codes "cannot read " ++ path.now) f.new }
{
    write!(f, "cannot read {path}")
}

/// Writes which line of which file is at fault.
fn write_line<W: fmt::Write>(f: &mut fmt::Formatter<W>, path: &str, line: usize) -> fmt::Result
    ensures { IsPlainFormatter f.old → WritesOnOk W.write_str_gives f.old result (path.now ++ (codes " line " ++ decimal line)) f.new }
{
    f.write_str(path)?;
    write!(f, " line {line}")
}

impl fmt::Display for FileFault {
    ghost use Rattle.std.specs.Prelude.{Some};
    ghost use Rattle.radio_startup.specs.FaultLines.{file_fault_text};

    ghost output = { λ fault. Some (file_fault_text fault) };

    fn fmt<W: fmt::Write>(&self, f: &mut fmt::Formatter<W>) -> fmt::Result {
        match self {
            FileFault::CannotRead { path, .. } => write_unread(f, path.as_str()),
            FileFault::Line { path, line } => write_line(f, path.as_str(), *line),
            FileFault::NotToml(_) => f.write_str("not toml"),
            FileFault::Settings { fault, .. } => write!(f, "{fault}"),
            FileFault::OutOfMemory => f.write_str("out of memory"),
        }
    }
}
