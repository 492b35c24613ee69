//! A whole document.
ghost use Rattle.std.specs.Prelude.{◌≡◌, ◌≢◌, Ok, Err, IfOk, IfErr, None, Some, option_map};
ghost use Rattle.toml.specs.Parse.{parse_document};
ghost use Rattle.toml.specs.View.{table_view};
ghost use Rattle.radio_keys.specs.Lookup.{table_at};
ghost use Rattle.radio_keys.specs.declared.key.Key.TheVariants.{Slave};
ghost use Rattle.radio_keys.specs.Reading.{Reads, ReadsAs};
ghost use Rattle.radio_keys.specs.declared.fault.SettingsFault.TheVariants.{NotToml, OutOfMemory};
ghost use Rattle.radio_settings.specs.Document.{reading_of, settings_of};
ghost use Rattle.radio_settings.specs.Listen.{IsPathOfProxies};
ghost use Rattle.radio_settings.specs.Parts.{apart_fault, basics_fault, basics_of, fault_by_parts, listed_in, listed_streams, lists_fault, named_fault};
ghost use Rattle.radio_settings.specs.Parts.{optional_slave_fault, settings_with, station_fault, station_of, streams_fault, streams_of};
ghost use Rattle.radio_settings.specs.Slave.{slave_of};
ghost use Rattle.radio_settings.specs.Web.{answers_of_text};

use crate::access::access;
use crate::limits::limits;
use crate::listen::{listen, proxies};
use crate::mounts::{default_options, mounts};
use crate::named::named;
use crate::relays::relays;
use crate::slave::slave;
use crate::web::{AnswerSettings, answers, names_fault, web};
use crate::{Key, SettingsFault};
use radio_keys::table_at;
use radio_settings_values::{
    AccessSettings, LimitSettings, ListenSettings, MountOptions, MountSetting, MountSettings,
    RelaySetting, RelaySettings, Settings, SlaveSetting, WebSettings,
};
use radio_values::Text;
use std::alloc::Global;
use toml::Table;

/// The settings of a text in TOML, or its first fault.
///
/// Faults are looked for in this order:
///
/// - the text is not TOML;
/// - the keys above all tables, `[listen]`, `[limits]`, `[web]`, each `[[mount]]`, each `[[relay]]` and `[slave]`,
///   each by the rows of its table in `docs/FORMATS.md`, its name before its keys;
/// - a name that two mounts have, one that two relays feed, and one that is a path of the web site.
///
/// Keys and tables that are not in the table are ignored.
///
/// `Err(SettingsFault::OutOfMemory)` means that memory ran out, and says nothing of the text.
// rule: Reading settings; Pair of a relay; Keys take effect
#[tactic(auto, using(crate::proofs::DocumentLemmas::reads_settings, crate::proofs::DocumentLemmas::reads_fault, crate::proofs::DocumentLemmas::reads_no_toml))]
pub fn read_settings(alloc: Global, text: &str) -> Result<Settings, SettingsFault>
    // What is read is what the text sets, and there is no fault.
    ensures settings { IfOk result (λ settings. reading_of text.now ≡ Ok settings) }
    // A fault is the first one of the text.
    ensures fault { IfErr result (λ fault. fault ≢ OutOfMemory → reading_of text.now ≡ Err fault) }
{
    let document = document(alloc, text)?;
    settings(alloc, &document)
}

/// Returns what a text in TOML says of requests and answers, in its table `[web]`. A text that sets something has no
/// fault here but `OutOfMemory`: [`read_settings`] returns its faults.
pub fn read_answers(alloc: Global, text: &str) -> Result<AnswerSettings, SettingsFault>
    ensures { IfOk result (λ answers. answers_of_text text.now ≡ Some answers) }
{
    let document = document(alloc, text)?;
    answers(&document)
}

/// Returns the path of the list of proxies that a text in TOML names, `proxy-from` in its table `[listen]`. A text that
/// sets something has no fault here but `OutOfMemory`: [`read_settings`] returns its faults.
pub fn read_proxies(alloc: Global, text: &str) -> Result<Option<Text>, SettingsFault>
    ensures { IfOk result (IsPathOfProxies text.now) }
{
    let document = document(alloc, text)?;
    proxies(alloc, &document)
}

/// The document that a text is.
fn document(alloc: Global, text: &str) -> Result<Table, SettingsFault>
    ensures toml { IfOk result (λ document. parse_document text.now ≡ Some (table_view document)) }
    ensures not_toml { IfErr result (λ fault. fault ≢ OutOfMemory → (fault ≡ NotToml) × (parse_document text.now ≡ None)) }
{
    match toml::table_from_str(alloc, text) {
        Ok(document) => Ok(document),
        Err(fault) => {
            if fault.is_memory() {
                return Err(SettingsFault::OutOfMemory);
            }
            Err(SettingsFault::NotToml)
        }
    }
}

/// Returns what a document sets. Its tables are read in their order; repeated names are looked for last.
fn settings(alloc: Global, document: &Table) -> Result<Settings, SettingsFault>
    ensures { let d = table_view document.now in
        Reads (fault_by_parts d) (settings_of d) result }
{
    let basics = read_basics(alloc, document)?;
    basics.with_streams(alloc, document)
}

/// What is set for the whole station.
#[derive(Drop)]
struct Basics {
    access: AccessSettings,
    station: StationTables,
}

/// What the tables `[listen]`, `[limits]` and `[web]` set.
#[derive(Drop)]
struct StationTables {
    listen: ListenSettings,
    limits: LimitSettings,
    web: WebSettings,
}

impl Basics {
    /// All settings, with those that the document has for streams.
    fn with_streams(self, alloc: Global, document: &Table) -> Result<Settings, SettingsFault>
        ensures { let d = table_view document.now in
            Reads (streams_fault self d) (settings_with self (streams_of self d)) result }
    {
        match read_streams(alloc, document, &self) {
            Ok(streams) => Ok(self.with(streams)),
            Err(fault) => Err(fault),
        }
    }

    /// All settings, with those of streams.
    fn with(self, streams: Streams) -> Settings
        ensures { result ≡ settings_with self streams }
    {
        let station = self.station;
        let named = streams.named;
        Settings {
            access: self.access,
            listen: station.listen,
            limits: station.limits,
            web: station.web,
            mounts: named.mounts,
            other_mounts: streams.other_mounts,
            relays: named.relays,
            slave: named.slave,
        }
    }
}

/// The keys above all tables, `[listen]`, `[limits]` and `[web]`.
#[tactic(auto, unfolding(crate::specs::Parts::basics_fault))]
fn read_basics(alloc: Global, document: &Table) -> Result<Basics, SettingsFault>
    ensures { let d = table_view document.now in
        Reads (basics_fault d) (basics_of d) result }
{
    Ok(Basics {
        access: access(alloc, document)?,
        station: read_station(alloc, document)?,
    })
}

#[tactic(auto, unfolding(crate::specs::Parts::station_fault))]
fn read_station(alloc: Global, document: &Table) -> Result<StationTables, SettingsFault>
    ensures { let d = table_view document.now in
        Reads (station_fault d) (station_of d) result }
{
    Ok(StationTables {
        listen: listen(alloc, document)?,
        limits: limits(alloc, document)?,
        web: web(alloc, document)?,
    })
}

/// What is set for streams.
#[derive(Drop)]
struct Streams {
    named: NamedStreams,
    other_mounts: MountOptions,
}

fn read_streams(alloc: Global, document: &Table, basics: &Basics) -> Result<Streams, SettingsFault>
    ensures { let d = table_view document.now in
        Reads (streams_fault basics.now d) (streams_of basics.now d) result }
{
    let named = read_named(alloc, document, basics)?;
    let other_mounts = default_options(alloc, &basics.access, &basics.station.limits)?;
    Ok(Streams {
        named,
        other_mounts,
    })
}

/// What is set for streams by their names.
#[derive(Drop)]
struct NamedStreams {
    mounts: MountSettings,
    relays: RelaySettings,
    slave: Option<SlaveSetting>,
}

/// Reads the mounts, the relays and `[slave]`; then looks for repeated names, and for names that are paths of the
/// web site.
#[tactic(auto, unfolding(crate::specs::Parts::streams_fault))]
fn read_named(
    alloc: Global,
    document: &Table,
    basics: &Basics,
) -> Result<NamedStreams, SettingsFault>
    ensures { let d = table_view document.now in
        Reads (streams_fault basics.now d) (listed_in basics.now.access basics.now.station.limits d) result }
{
    let named = read_apart(alloc, document, &basics.access, &basics.station.limits)?;
    match names_fault(
        &basics.station.web,
        named.mounts.as_slice(),
        named.relays.as_slice(),
    ) {
        Some(fault) => Err(fault),
        None => Ok(named),
    }
}

/// Reads the mounts, the relays and `[slave]`; then looks for repeated names.
#[tactic(auto, unfolding(crate::specs::Parts::named_fault, crate::specs::Parts::apart_fault))]
fn read_apart(
    alloc: Global,
    document: &Table,
    access: &AccessSettings,
    limits: &LimitSettings,
) -> Result<NamedStreams, SettingsFault>
    ensures { let d = table_view document.now in
        Reads (named_fault access.now limits.now d) (listed_in access.now limits.now d) result }
{
    let lists = read_lists(alloc, document, access, limits)?;
    let (mounts, relays) = apart(alloc, lists.mounts, lists.relays)?;
    Ok(NamedStreams {
        mounts,
        relays,
        slave: lists.slave,
    })
}

/// The tables of streams, in the order of the text.
#[derive(Drop)]
struct StreamTables {
    mounts: Vec<MountSetting>,
    relays: Vec<RelaySetting>,
    slave: Option<SlaveSetting>,
}

#[tactic(auto, unfolding(crate::specs::Parts::lists_fault))]
fn read_lists(
    alloc: Global,
    document: &Table,
    access: &AccessSettings,
    limits: &LimitSettings,
) -> Result<StreamTables, SettingsFault>
    ensures { let d = table_view document.now in
        ReadsAs (λ l. listed_streams l.mounts.items l.relays.items l.slave) (lists_fault d) (listed_in access.now limits.now d) result }
{
    Ok(StreamTables {
        mounts: mounts(alloc, document, access, limits)?,
        relays: relays(alloc, document)?,
        slave: optional_slave(alloc, document)?,
    })
}

/// The same mounts and relays, if no two mounts have one name and no two relays feed one mount.
#[tactic(auto, unfolding(crate::specs::Parts::apart_fault))]
fn apart(
    alloc: Global,
    mounts: Vec<MountSetting>,
    relays: Vec<RelaySetting>,
) -> Result<(MountSettings, RelaySettings), SettingsFault>
    ensures { ReadsAs (λ p. listed_streams p.0 p.1 None) (apart_fault mounts.items relays.items) (listed_streams mounts.items relays.items None) result }
{
    let mounts = named(alloc, mounts)?;
    let relays = named(alloc, relays)?;
    Ok((mounts, relays))
}

/// The table `[slave]`, if there is one.
#[tactic(auto, unfolding(crate::specs::Parts::optional_slave_fault, crate::specs::Slave::slave_fault, radio_keys::specs::Lookup::table_at))]
fn optional_slave(alloc: Global, document: &Table) -> Result<Option<SlaveSetting>, SettingsFault>
    ensures { let d = table_view document.now in
        Reads (optional_slave_fault d) (option_map slave_of (table_at Slave d)) result }
{
    match table_at(document, Key::Slave)? {
        Some(table) => Ok(Some(slave(alloc, table)?)),
        None => Ok(None),
    }
}
