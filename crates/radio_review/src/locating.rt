//! Where a text has a fault of a key.

use crate::OutOfMemory;
use crate::entries::entries_of;
use crate::unknown::{mount_of, place_word, text_at};
use radio_keys::{Key, SettingsFault};
use radio_settings::{Section, TablePlace, ValueKind, faulty_table, key_of};
use std::alloc::Global;
use toml::{Table, Value};

/// Where a text has a fault of a key.
#[derive(Drop)]
pub struct FaultPlace {
    /// The table.
    pub section: Section,
    /// The mount of the table, or the one that its relay feeds; empty if there is none.
    pub mount: String,
    /// The line of the key, or where it is missing that of its table, counted from 1; 0 where none is known.
    pub line: u64,
    /// What is there; empty where nothing is, and of passwords.
    pub value: String,
    /// What may be there.
    pub allowed: String,
}

/// Returns where a text has this fault, which is its first one. `None`: it is of no key, the text is not TOML, or
/// memory was refused. The place of a repeated name is not known.
pub fn locate(alloc: Global, text: &str, fault: &SettingsFault) -> Option<FaultPlace> {
    let key = key_of(fault)?;
    let Ok(document) = toml::table_from_str(alloc, text) else {
        return None;
    };
    let place = match faulty_table(alloc, &document) {
        Some(place) => named_at(place, key),
        None => site_named_at(&document, key)?,
    };
    match describe(alloc, text, &document, place, key) {
        Ok(found) => Some(found),
        Err(_) => None,
    }
}

/// The name of a table is a key above all tables.
fn named_at(place: TablePlace, key: Key) -> TablePlace {
    if place.number == 0 && place.section.word() == key.word() {
        return TablePlace {
            section: Section::Top,
            number: 0,
        };
    }
    place
}

/// The first table whose key names a path of the web site.
fn site_named_at(document: &Table, key: Key) -> Option<TablePlace> {
    let section = section_of_name(key)?;
    let mut number: usize = 0;
    for table in document.get(section.word())?.as_array()?.as_slice() {
        number = number.saturating_add(1);
        if names_site(document, table, key) {
            return Some(TablePlace { section, number });
        }
    }
    None
}

/// The tables whose key can name such a path.
fn section_of_name(key: Key) -> Option<Section> {
    if key == Key::MountName || key == Key::FallbackMount {
        Some(Section::Mount)
    } else if key == Key::LocalMount {
        Some(Section::Relay)
    } else {
        None
    }
}

/// Whether the key of a table names a path of the web site; a relay without `local-mount` feeds its `mount`.
fn names_site(document: &Table, table: &Value, key: Key) -> bool {
    let Some(table) = table.as_table() else {
        return false;
    };
    let name = match text_at(table, key.word()) {
        "" if key == Key::LocalMount => text_at(table, "mount"),
        name => name,
    };
    match name {
        "/" => is_on(document, "page"),
        "/status-json.xsl" => is_on(document, "icecast-status"),
        _ => false,
    }
}

/// Whether a flag of the table `[web]` is true.
fn is_on(document: &Table, flag: &str) -> bool {
    match web_flag(document, flag) {
        Some(is_on) => is_on,
        None => false,
    }
}

fn web_flag(document: &Table, flag: &str) -> Option<bool> {
    document.get("web")?.as_table()?.get(flag)?.as_bool()
}

fn describe(
    alloc: Global,
    text: &str,
    document: &Table,
    place: TablePlace,
    key: Key,
) -> Result<FaultPlace, OutOfMemory> {
    let entries = entries_of(alloc, text)?;
    let TablePlace { section, number } = place;
    let word = place_word(section);
    let table = table_of(document, place);
    let value = value_at(table, key);
    let line = match value {
        Some(_) => entries.line_of(word, number, key.word()),
        None => entries.line_of_table(word, number),
    };
    Ok(FaultPlace {
        section,
        mount: mount_in(alloc, section, table)?,
        line,
        value: shown(alloc, value, key)?,
        allowed: allowed(alloc, section, key)?,
    })
}

fn value_at(table: Option<&Table>, key: Key) -> Option<&Value> {
    table?.get(key.word())
}

fn mount_in(alloc: Global, section: Section, table: Option<&Table>) -> Result<String, OutOfMemory> {
    match table {
        Some(table) => mount_of(alloc, section, table),
        None => Ok(String::new(alloc)),
    }
}

/// The table of a place; `None` if the document has none there.
fn table_of(document: &Table, place: TablePlace) -> Option<&Table> {
    if place.section == Section::Top {
        return Some(document);
    }
    let value = document.get(place.section.word())?;
    if place.number == 0 {
        return value.as_table();
    }
    value
        .as_array()?
        .as_slice()
        .get(place.number.saturating_sub(1))?
        .as_table()
}

/// A value in words; nothing of a password.
fn shown(alloc: Global, value: Option<&Value>, key: Key) -> Result<String, OutOfMemory> {
    match value {
        Some(value) if !is_password(key) => in_words(alloc, value),
        _ => Ok(String::new(alloc)),
    }
}

/// Whether the value of a key is a password.
fn is_password(key: Key) -> bool {
    key.word() == "password" || key.word().ends_with("-password")
}

/// A value in words: a text and a flag as they are, a number in digits, and of all others their kind.
fn in_words(alloc: Global, value: &Value) -> Result<String, OutOfMemory> {
    if let Some(text) = value.as_str() {
        return String::from_str(alloc, text);
    }
    if let Some(number) = value.as_integer() {
        return number.to_string(alloc);
    }
    match value.as_bool() {
        Some(flag) => flag.to_string(alloc),
        None => String::from_str(alloc, value.type_str()),
    }
}

/// What a key of a table may have; empty where the table has no such key.
fn allowed(alloc: Global, section: Section, key: Key) -> Result<String, OutOfMemory> {
    match kind_at(section, key) {
        Some(ValueKind::Number(low, high)) => format!(in alloc; "{low}..{high}"),
        Some(ValueKind::Text) => String::from_str(alloc, "text"),
        Some(ValueKind::Flag) => String::from_str(alloc, "true or false"),
        Some(ValueKind::MountName) => String::from_str(alloc, "name of a mount"),
        Some(ValueKind::Origin) => String::from_str(alloc, "1 to 255 visible characters"),
        Some(ValueKind::Table) => String::from_str(alloc, "table"),
        Some(ValueKind::Tables) => String::from_str(alloc, "list of tables"),
        None => Ok(String::new(alloc)),
    }
}

/// The kind of a key of a table.
fn kind_at(section: Section, key: Key) -> Option<ValueKind> {
    for known in section.keys() {
        if known.0 == key {
            return Some(known.1);
        }
    }
    None
}
