//! What a table holds at one key. The contract of each reader names the row that it asks for; the fault is that row's.
#![tactic(auto, unfolding(crate::specs::Lookup::text_at, crate::specs::Lookup::text_or, crate::specs::Lookup::field_at, crate::specs::Lookup::field_or_empty, crate::specs::Lookup::number_at, crate::specs::Lookup::number_or, crate::specs::Lookup::flag_or, crate::specs::Rows::row_fault))]

ghost use Rattle.std.specs.Prelude.{◌≡◌, ◌≤◌, IfOk, codes, [], false, Some, None, if◌then◌else◌};
ghost use Rattle.std.specs.Option.{option_copied, option_map};
ghost use Rattle.toml.specs.View.{view, table_view};
ghost use Rattle.radio_keys.specs.Lookup.{value_at, text_at, text_or, field_at, field_or_empty, number_at, number_or, flag_or, natural};
ghost use Rattle.radio_keys.specs.Rows.{text, number, flag, mount_name, origin, required, optional, required_with, key_row, row_fault, is_between};
ghost use Rattle.radio_keys.specs.Reading.{Reads, ReadsAs};

use crate::{Key, SettingsFault};
use radio_values::{AllowedOrigin, Field, MountName, Text, Within};
use std::alloc::Global;
use toml::{Table, Value};

/// The value at a key, of whatever kind; `None` if the key is absent.
pub fn value_at(table: &Table, key: Key) -> Option<&Value>
    ensures { option_map (λ v. view v.now) result ≡ value_at key (table_view table.now) }
{
    table.get(key.word())
}

/// The text at a key, as `text` reads it.
fn read_text(table: &Table, key: Key) -> Result<Option<&str>, SettingsFault>
    ensures { let t = table_view table.now in
        ReadsAs option_copied (row_fault (key_row key text optional) t) (text_at key t) result }
{
    let Some(value) = value_at(table, key) else {
        return Ok(None);
    };
    match value.as_str() {
        Some(text) => Ok(Some(text)),
        None => Err(SettingsFault::WrongKind { key }),
    }
}

/// The text at a key that must be there, as `required_text` reads it.
fn read_required_text(table: &Table, key: Key) -> Result<&str, SettingsFault>
    ensures { let t = table_view table.now in
        ReadsAs (λ s. s.now) (row_fault (key_row key text required) t) (text_or key t []) result }
{
    let Some(value) = value_at(table, key) else {
        return Err(SettingsFault::Missing { key });
    };
    match value.as_str() {
        Some(text) => Ok(text),
        None => Err(SettingsFault::WrongKind { key }),
    }
}

/// A copy of the text at a key; `None` if the key is absent.
///
/// `WrongKind`: the value is no text. `OutOfMemory`: there was no memory for the copy.
pub fn text(alloc: Global, table: &Table, key: Key) -> Result<Option<Text>, SettingsFault>
    ensures { let t = table_view table.now in
        Reads (row_fault (key_row key text optional) t) (text_at key t) result }
{
    match read_text(table, key)? {
        Some(text) => Ok(Some(Text::new(alloc, text)?)),
        None => Ok(None),
    }
}

/// A copy of the text at a key, or of the default where the key is absent.
///
/// `WrongKind`: the value is no text. `OutOfMemory`: there was no memory for the copy.
pub fn text_or(alloc: Global, table: &Table, key: Key, default: &str) -> Result<Text, SettingsFault>
    ensures { let t = table_view table.now in
        Reads (row_fault (key_row key text optional) t) (text_or key t default.now) result }
{
    match read_text(table, key)? {
        Some(text) => Ok(Text::new(alloc, text)?),
        None => Ok(Text::new(alloc, default)?),
    }
}

/// A copy of the text at a key that must be there.
///
/// `Missing`: the key is absent. `WrongKind`: the value is no text. `OutOfMemory`: there was no memory for the copy.
pub fn required_text(alloc: Global, table: &Table, key: Key) -> Result<Text, SettingsFault>
    ensures { let t = table_view table.now in
        Reads (row_fault (key_row key text required) t) (text_or key t []) result }
{
    let text = read_required_text(table, key)?;
    Ok(Text::new(alloc, text)?)
}

/// A copy of the text at a key that must be there where the other key is; `None` if both are absent.
///
/// `Missing`: the key is absent, and the other is there. `WrongKind`: the value is no text. `OutOfMemory`: there was no
/// memory for the copy.
pub fn text_with(
    alloc: Global,
    table: &Table,
    key: Key,
    other: Key,
) -> Result<Option<Text>, SettingsFault>
    ensures { let t = table_view table.now in
        Reads (row_fault (key_row key text (required_with other)) t) (text_at key t) result }
{
    if value_at(table, other).is_some() {
        return Ok(Some(required_text(alloc, table, key)?));
    }
    text(alloc, table, key)
}

/// The text at a key, cleaned as heads show it; `None` if the key is absent.
///
/// `WrongKind`: the value is no text. `OutOfMemory`: there was no memory for the copy.
pub fn field(alloc: Global, table: &Table, key: Key) -> Result<Option<Field>, SettingsFault>
    ensures { let t = table_view table.now in
        Reads (row_fault (key_row key text optional) t) (field_at key t) result }
{
    match read_text(table, key)? {
        Some(text) => Ok(Some(Field::clean(alloc, text.as_bytes())?)),
        None => Ok(None),
    }
}

/// The text at a key that must be there, cleaned as heads show it.
///
/// `Missing`: the key is absent. `WrongKind`: the value is no text. `OutOfMemory`: there was no memory for the copy.
pub fn required_field(alloc: Global, table: &Table, key: Key) -> Result<Field, SettingsFault>
    ensures { let t = table_view table.now in
        Reads (row_fault (key_row key text required) t) (field_or_empty key t) result }
{
    let text = read_required_text(table, key)?;
    Ok(Field::clean(alloc, text.as_bytes())?)
}

/// Returns the value for `Access-Control-Allow-Origin`, at a key; `None` if the key is absent.
///
/// `WrongKind`: the value is no text. `OutOfRange`: the text is not 1 to 255 visible characters of ASCII. `OutOfMemory`:
/// there was no memory for the copy.
pub fn origin(
    alloc: Global,
    table: &Table,
    key: Key,
) -> Result<Option<AllowedOrigin>, SettingsFault>
    ensures { let t = table_view table.now in
        Reads (row_fault (key_row key origin optional) t) (text_at key t) result }
{
    let Some(text) = read_text(table, key)? else {
        return Ok(None);
    };
    match AllowedOrigin::read(alloc, text)? {
        Some(origin) => Ok(Some(origin)),
        None => Err(SettingsFault::OutOfRange { key }),
    }
}

/// The number at a key; `None` if the key is absent.
///
/// `WrongKind`: the value is no integer. `OutOfRange`: the integer does not lie from `LOW` to `HIGH`.
pub fn number<const LOW: u32, const HIGH: u32>(
    table: &Table,
    key: Key,
) -> Result<Option<Within<LOW, HIGH>>, SettingsFault>
    ensures { let t = table_view table.now in
        Reads (row_fault (key_row key (number LOW HIGH) optional) t) (number_at key t) result }
{
    let Some(value) = value_at(table, key) else {
        return Ok(None);
    };
    let Some(integer) = value.as_integer() else {
        return Err(SettingsFault::WrongKind { key });
    };
    match within(integer) {
        Some(number) => Ok(Some(number)),
        None => Err(SettingsFault::OutOfRange { key }),
    }
}

/// The number at a key, or the default where the key is absent.
///
/// `WrongKind`: the value is no integer. `OutOfRange`: the integer does not lie from `LOW` to `HIGH`.
pub fn number_or<const LOW: u32, const HIGH: u32>(
    table: &Table,
    key: Key,
    default: u32,
) -> Result<Within<LOW, HIGH>, SettingsFault>
    requires low { LOW ≤ default }
    requires high { default ≤ HIGH }
    ensures { let t = table_view table.now in
        Reads (row_fault (key_row key (number LOW HIGH) optional) t) (number_or key t default) result }
{
    match number(table, key)? {
        Some(number) => Ok(number),
        None => Ok(Within::new(default)),
    }
}

/// The integer as a number of the range; `None` if it lies outside.
fn within<const LOW: u32, const HIGH: u32>(integer: i64) -> Option<Within<LOW, HIGH>>
    ensures { result ≡ (if is_between LOW HIGH (natural integer) then natural integer else None) }
{
    let Ok(number) = u32::try_from(integer) else {
        return None;
    };
    if number < LOW {
        return None;
    }
    if HIGH < number {
        return None;
    }
    Some(Within::new(number))
}

/// The flag at a key, or the default where the key is absent.
///
/// `WrongKind`: the value is no boolean.
pub fn flag_or(table: &Table, key: Key, default: bool) -> Result<bool, SettingsFault>
    ensures { let t = table_view table.now in
        Reads (row_fault (key_row key flag optional) t) (flag_or key t default) result }
{
    let Some(value) = value_at(table, key) else {
        return Ok(default);
    };
    match value.as_bool() {
        Some(flag) => Ok(flag),
        None => Err(SettingsFault::WrongKind { key }),
    }
}

/// The name of a mount at a key; `None` if the key is absent.
///
/// `WrongKind`: the value is no text. `BadName`: the text is not the name of a mount.
pub fn name(table: &Table, key: Key) -> Result<Option<MountName>, SettingsFault>
    ensures { let t = table_view table.now in
        Reads (row_fault (key_row key mount_name optional) t) (text_at key t) result }
{
    let Some(text) = read_text(table, key)? else {
        return Ok(None);
    };
    match MountName::read(text.as_bytes()) {
        Some(name) => Ok(Some(name)),
        None => Err(SettingsFault::BadName { key }),
    }
}

/// The name of a mount at a key, or the default where the key is absent.
///
/// `WrongKind`: the value is no text. `BadName`: the text is not the name of a mount.
pub fn name_or(table: &Table, key: Key, default: MountName) -> Result<MountName, SettingsFault>
    ensures { let t = table_view table.now in
        Reads (row_fault (key_row key mount_name optional) t) (text_or key t default) result }
{
    Ok(name(table, key)?.unwrap_or(default))
}

/// The name of a mount at a key that must be there.
///
/// `Missing`: the key is absent. `WrongKind`: the value is no text. `BadName`: the text is not the name of a mount.
pub fn required_name(table: &Table, key: Key) -> Result<MountName, SettingsFault>
    ensures { let t = table_view table.now in
        Reads (row_fault (key_row key mount_name required) t) (text_or key t []) result }
{
    let text = read_required_text(table, key)?;
    match MountName::read(text.as_bytes()) {
        Some(name) => Ok(name),
        None => Err(SettingsFault::BadName { key }),
    }
}
