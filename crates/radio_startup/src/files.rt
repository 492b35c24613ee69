//! The settings file.

ghost use Rattle.std.specs.Prelude.{◌≡◌, ℕ, List, Ok, Some, IfOk, IfErr, codes};
ghost use Rattle.std.specs.Str.{valid_up_to};
ghost use Rattle.radio_settings.specs.Document.{reading_of};
ghost use Rattle.radio_settings.specs.Listen.{IsPathOfProxies};
ghost use Rattle.radio_settings.specs.Web.{answers_of_text};
ghost use Rattle.radio_startup.specs.declared.fault.FileFault.TheVariants.{OutOfMemory as NoMemory};
ghost use Rattle.radio_startup.specs.Files.{AreListsOf, AreProxiesOf, IsStationOf};
ghost use Rattle.radio_startup.specs.Misreadings.{IsMisreadAt};
ghost use Rattle.radio_startup.specs.SettingsFaults.{IsFaultOf, IsNotToml};
ghost use Rattle.radio_startup.specs.Unread.{IsUnread};

use crate::fault::FileFault;
use crate::lists::{read_addresses, read_lists};
use crate::misreading::misread;
use crate::reading::ReadsFiles;
use radio_access::Lists;
use radio_addr::AddressList;
use radio_review::{UnknownKey, locate, unknown_keys};
use radio_settings::{AnswerSettings, SettingsFault};
use radio_settings_values::Settings;
use radio_values::Text;
use std::alloc::Global;
use std::marker::Model;
use std::str::Utf8Error;

/// The settings of a file, and what the files hold that they name.
#[derive(Drop)]
pub struct Station {
    pub settings: Settings,
    /// What the settings say of requests and answers.
    pub answers: AnswerSettings,
    pub lists: Lists,
    /// The proxies whose connections begin with a header that names their client, if such a list is named.
    pub proxies: Option<AddressList>,
}

/// A settings file as it was read. In contracts it is its bytes.
#[derive(Drop)]
pub struct SettingsText {
    bytes: Vec<u8>,
}

impl Model for SettingsText {
    ghost use Rattle.std.specs.Prelude.{ℕ, List};

    ghost Value = { List ℕ };

    ghost view = { λ text. text.bytes.items };
}

/// Returns the settings of the file of this path, and what the files hold that they name.
///
/// A fault is the first of these:
///
/// - the file cannot be read, is not TOML, or has a fault of settings;
/// - a file that it names has a fault: `deny-ip`, then `allow-ip`, then each mount's `htpasswd` in the order of the
///   tables, and last `proxy-from`.
pub fn read_station<F: ReadsFiles>(files: &F, path: &str) -> Result<Station, FileFault>
    ensures { IfOk result (λ station. (bytes : List ℕ) × F.holds files.now path.now bytes × IsStationOf (F.holds files.now) bytes station) }
{
    let bytes = files.read(path)?;
    station_of(files, bytes.as_slice())
}

/// The settings file of this path. The fault is that it cannot be read.
pub fn read_text<F: ReadsFiles>(files: &F, path: &str) -> Result<SettingsText, FileFault>
    ensures text { IfOk result (λ text. F.holds files.now path.now text) }
    ensures fault { IfErr result (λ fault. IsUnread path.now fault) }
{
    Ok(SettingsText {
        bytes: files.read(path)?,
    })
}

impl SettingsText {
    /// Returns the settings, with what the files hold that they name, and a second copy of the settings: the server
    /// takes one, and the threads of relays read the other. Faults are those of [`read_station`], without the first.
    // rule: Settings check
    pub fn station_twice<F: ReadsFiles>(&self, files: &F) -> Result<(Station, Settings), FileFault>
        ensures copies { IfOk result (λ read. read.1 ≡ read.0.settings) }
        ensures station { IfOk result (λ read. IsStationOf (F.holds files.now) self.now read.0) }
    {
        let again = settings_of(files.alloc(), self.bytes.as_slice())?;
        let station = station_of(files, self.bytes.as_slice());
        with_copy(station, again)
    }

    /// The settings, with what the files hold that they name. Faults are those of [`read_station`], without the first.
    // rule: Settings check; Files of the settings
    pub fn station<F: ReadsFiles>(&self, files: &F) -> Result<Station, FileFault>
        ensures { IfOk result (λ station. IsStationOf (F.holds files.now) self.now station) }
    {
        station_of(files, self.bytes.as_slice())
    }

    /// The keys that are passed over, each with its line. `OutOfMemory`: memory was refused.
    pub fn unknown_keys(&self, alloc: Global) -> Result<Vec<UnknownKey>, FileFault>
        ensures { IfErr result (λ fault. fault ≡ NoMemory) }
    {
        let found = match str::from_utf8(self.bytes.as_slice()) {
            Ok(text) => unknown_keys(alloc, text),
            Err(_) => Ok(Vec::new(alloc)),
        };
        match found {
            Ok(keys) => Ok(keys),
            Err(_) => Err(FileFault::OutOfMemory),
        }
    }
}

/// The station, if it was read, and these settings.
fn with_copy(
    station: Result<Station, FileFault>,
    again: Settings,
) -> Result<(Station, Settings), FileFault>
    ensures { IfOk result (λ read. (Ok read.0 ≡ station) × (read.1 ≡ again)) }
{
    match station {
        Ok(station) => Ok((station, again)),
        Err(fault) => {
            drop(again);
            Err(fault)
        }
    }
}

/// The station whose settings these bytes say.
fn station_of<F: ReadsFiles>(files: &F, bytes: &[u8]) -> Result<Station, FileFault>
    ensures { IfOk result (λ station. IsStationOf (F.holds files.now) bytes.now station) }
{
    let settings = settings_of(files.alloc(), bytes)?;
    match answers_of(files.alloc(), bytes) {
        Ok(answers) => with_files(files, bytes, settings, answers),
        Err(fault) => {
            drop(settings);
            Err(fault)
        }
    }
}

/// The station of these settings, with what the files hold that these bytes name.
fn with_files<F: ReadsFiles>(
    files: &F,
    bytes: &[u8],
    settings: Settings,
    answers: AnswerSettings,
) -> Result<Station, FileFault>
    ensures settings { IfOk result (λ station. station.settings ≡ settings) }
    ensures answers { IfOk result (λ station. station.answers ≡ answers) }
    ensures lists { IfOk result (λ station. AreListsOf (F.holds files.now) station.settings station.lists) }
    ensures proxies { IfOk result (λ station. AreProxiesOf (F.holds files.now) bytes.now station.proxies) }
{
    match read_both(files, bytes, &settings) {
        Ok((lists, proxies)) => Ok(Station {
            settings,
            answers,
            lists,
            proxies,
        }),
        Err(fault) => {
            drop(settings);
            Err(fault)
        }
    }
}

/// What the files hold that these settings, or these bytes, name.
fn read_both<F: ReadsFiles>(
    files: &F,
    bytes: &[u8],
    settings: &Settings,
) -> Result<(Lists, Option<AddressList>), FileFault>
    ensures lists { IfOk result (λ read. AreListsOf (F.holds files.now) settings.now read.0) }
    ensures proxies { IfOk result (λ read. AreProxiesOf (F.holds files.now) bytes.now read.1) }
{
    let lists = read_lists(files, settings)?;
    match proxies_of(files, bytes) {
        Ok(proxies) => Ok((lists, proxies)),
        Err(fault) => {
            drop(lists);
            Err(fault)
        }
    }
}

/// Returns the list of proxies that these bytes name, if they are settings.
fn proxies_of<F: ReadsFiles>(files: &F, bytes: &[u8]) -> Result<Option<AddressList>, FileFault>
    ensures { IfOk result (λ proxies. AreProxiesOf (F.holds files.now) bytes.now proxies) }
{
    match proxies_path(files.alloc(), bytes)? {
        Some(path) => Ok(Some(read_addresses(files, &path)?)),
        None => Ok(None),
    }
}

/// Returns the path of the list of proxies that these bytes name, if they are settings.
fn proxies_path(alloc: Global, bytes: &[u8]) -> Result<Option<Text>, FileFault>
    ensures { IfOk result (IsPathOfProxies bytes.now) }
{
    let Ok(text) = str::from_utf8(bytes) else {
        return Err(misread(alloc, bytes, 0, "not UTF-8"));
    };
    match radio_settings::read_proxies(alloc, text) {
        Ok(path) => Ok(path),
        Err(fault) => Err(FileFault::Settings { fault, at: None }),
    }
}

/// The settings that these bytes say.
fn settings_of(alloc: Global, bytes: &[u8]) -> Result<Settings, FileFault>
    ensures { IfOk result (λ settings. reading_of bytes.now ≡ Ok settings) }
{
    match str::from_utf8(bytes) {
        Ok(text) => settings_in(alloc, text),
        Err(error) => Err(not_utf8(alloc, bytes, error)),
    }
}

/// Returns the fault at the first byte that is not UTF-8, by this error of the library.
fn not_utf8(alloc: Global, bytes: &[u8], error: Utf8Error) -> FileFault
    ensures { IsMisreadAt bytes.now (valid_up_to error) (codes "not UTF-8") result }
{
    misread(alloc, bytes, error.valid_up_to(), "not UTF-8")
}

/// Returns what these bytes say of requests and answers, if they are settings.
fn answers_of(alloc: Global, bytes: &[u8]) -> Result<AnswerSettings, FileFault>
    ensures { IfOk result (λ answers. answers_of_text bytes.now ≡ Some answers) }
{
    let Ok(text) = str::from_utf8(bytes) else {
        return Err(misread(alloc, bytes, 0, "not UTF-8"));
    };
    match radio_settings::read_answers(alloc, text) {
        Ok(answers) => Ok(answers),
        Err(fault) => Err(FileFault::Settings { fault, at: None }),
    }
}

/// The settings of a text.
fn settings_in(alloc: Global, text: &str) -> Result<Settings, FileFault>
    ensures settings { IfOk result (λ settings. reading_of text.now ≡ Ok settings) }
    ensures fault { IfErr result (IsFaultOf (reading_of text.now)) }
{
    match radio_settings::read_settings(alloc, text) {
        Ok(settings) => Ok(settings),
        Err(SettingsFault::NotToml) => Err(not_toml(alloc, text)),
        Err(fault) => {
            let at = locate(alloc, text, &fault);
            Err(FileFault::Settings { fault, at })
        }
    }
}

/// Returns the fault of a text that is not TOML: where it is not, and why.
fn not_toml(alloc: Global, text: &str) -> FileFault
    ensures { IsNotToml result }
{
    let Err(error) = toml::table_from_str(alloc, text) else {
        return FileFault::Settings {
            fault: SettingsFault::NotToml,
            at: None,
        };
    };
    match error.span() {
        Some(span) => misread(alloc, text.as_bytes(), span.start, error.message()),
        None => FileFault::OutOfMemory,
    }
}
