//! Which table a fault of a document is in.

ghost use Rattle.std.specs.Prelude.{◌≡◌, ◌+◌, ◌-◌, ◌^◌, Some, min};
ghost use Rattle.radio_settings.specs.Faulty.{key_of};

use crate::access::access;
use crate::limits::limits;
use crate::listen::listen;
use crate::mounts::mount;
use crate::relays::relay;
use crate::section::Section;
use crate::slave::slave;
use crate::web::web;
use crate::{Key, SettingsFault};
use radio_keys::{table_at, tables_at};
use radio_settings_values::{AccessSettings, LimitSettings};
use std::alloc::Global;
use toml::Table;

/// A table of a document.
#[derive(Clone, Copy)]
pub struct TablePlace {
    pub section: Section,
    /// Which of a list of tables it is, counted from 1; 0 for a table that is in no list.
    pub number: usize,
}

/// Returns the table in which a document has its first fault of a key. It asks the readers of the tables, in the order
/// in which the settings are read. `None`: no key is at fault (a repeated name is no fault of one key), or memory was
/// refused.
pub fn faulty_table(alloc: Global, document: &Table) -> Option<TablePlace> {
    let Ok(access) = access(alloc, document) else {
        return alone(Section::Top);
    };
    if listen(alloc, document).is_err() {
        return alone(Section::Listen);
    }
    faulty_below(alloc, document, &access)
}

/// The first table at fault of those behind `[listen]`.
fn faulty_below(alloc: Global, document: &Table, access: &AccessSettings) -> Option<TablePlace> {
    let Ok(limits) = limits(alloc, document) else {
        return alone(Section::Limits);
    };
    if web(alloc, document).is_err() {
        return alone(Section::Web);
    }
    faulty_stream(alloc, document, access, &limits)
}

/// The table of this section, which is in no list.
fn alone(section: Section) -> Option<TablePlace>
    ensures { result ≡ Some (record { section = section; number = 0 }) }
{
    Some(TablePlace { section, number: 0 })
}

/// The table of this section whose list has so many tables before it.
fn in_list(section: Section, before: usize) -> TablePlace
    ensures { result ≡ record { section = section; number = min (2 ^ 64 - 1) (before + 1) } }
{
    TablePlace {
        section,
        number: before.saturating_add(1),
    }
}

/// The first table at fault of those of streams: mounts, relays and the slave.
fn faulty_stream(
    alloc: Global,
    document: &Table,
    access: &AccessSettings,
    limits: &LimitSettings,
) -> Option<TablePlace> {
    let Ok(mounts) = tables_at(alloc, document, Key::Mount) else {
        return alone(Section::Mount);
    };
    if let Some(place) = faulty_mount(alloc, mounts.as_slice(), access, limits) {
        return Some(place);
    }
    faulty_pull(alloc, document)
}

/// The first table at fault of those by which streams are pulled in: relays and the slave.
fn faulty_pull(alloc: Global, document: &Table) -> Option<TablePlace> {
    let Ok(relays) = tables_at(alloc, document, Key::Relay) else {
        return alone(Section::Relay);
    };
    if let Some(place) = faulty_relay(alloc, relays.as_slice()) {
        return Some(place);
    }
    faulty_slave(alloc, document)
}

fn faulty_slave(alloc: Global, document: &Table) -> Option<TablePlace> {
    match table_at(document, Key::Slave) {
        Ok(Some(table)) if slave(alloc, table).is_ok() => None,
        Ok(None) => None,
        Ok(Some(_)) | Err(_) => alone(Section::Slave),
    }
}

fn faulty_mount(
    alloc: Global,
    tables: &[&Table],
    access: &AccessSettings,
    limits: &LimitSettings,
) -> Option<TablePlace> {
    for (before, table) in tables.iter().enumerate() {
        if mount(alloc, table, access, limits).is_err() {
            return Some(in_list(Section::Mount, before));
        }
    }
    None
}

fn faulty_relay(alloc: Global, tables: &[&Table]) -> Option<TablePlace> {
    for (before, table) in tables.iter().enumerate() {
        if relay(alloc, table).is_err() {
            return Some(in_list(Section::Relay, before));
        }
    }
    None
}

/// The key that a fault is of, unless it is of none.
pub fn key_of(fault: &SettingsFault) -> Option<Key>
    ensures { result ≡ key_of fault.now }
{
    match fault {
        SettingsFault::Missing { key }
        | SettingsFault::WrongKind { key }
        | SettingsFault::OutOfRange { key }
        | SettingsFault::BadName { key } => Some(*key),
        SettingsFault::NotToml | SettingsFault::MountTwice { .. } | SettingsFault::OutOfMemory => {
            None
        }
    }
}
