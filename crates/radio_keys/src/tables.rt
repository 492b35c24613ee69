//! The tables of a document, and its lists of tables.
#![tactic(auto, unfolding(crate::specs::Lookup::table_at, crate::specs::Lookup::table_or_empty, crate::specs::Lookup::list_at, crate::specs::Lookup::tables_at, crate::specs::Rows::table_fault, crate::specs::Rows::list_fault))]

ghost use Rattle.std.specs.Prelude.{◌≡◌, None, map};
ghost use Rattle.std.specs.Option.{option_map};
ghost use Rattle.toml.specs.Data.{no_members};
ghost use Rattle.toml.specs.View.{items_view, table_view};
ghost use Rattle.radio_keys.specs.Lookup.{list_at, table_at, table_or_empty, tables_at, tables_of};
ghost use Rattle.radio_keys.specs.Rows.{list_fault, table_fault};
ghost use Rattle.radio_keys.specs.Reading.{ReadsAs};

use crate::{Key, SettingsFault, value_at};
use std::alloc::Global;
use toml::{Table, Value};

/// The table of a name; `None` if the document has nothing of that name.
///
/// `WrongKind`: what it has there is no table.
pub fn table_at(document: &Table, key: Key) -> Result<Option<&Table>, SettingsFault>
    ensures { let d = table_view document.now in
        ReadsAs (option_map (λ t. table_view t.now)) (table_fault key d) (table_at key d) result }
{
    let Some(value) = value_at(document, key) else {
        return Ok(None);
    };
    match value.as_table() {
        Some(table) => Ok(Some(table)),
        None => Err(SettingsFault::WrongKind { key }),
    }
}

/// The table of a name, or the empty one where the document has nothing of that name.
///
/// `WrongKind`: what it has there is no table.
pub fn table_or<'a>(
    document: &'a Table,
    key: Key,
    empty: &'a Table,
) -> Result<&'a Table, SettingsFault>
    requires { table_view empty.now ≡ no_members }
    ensures { let d = table_view document.now in
        ReadsAs (λ t. table_view t.now) (table_fault key d) (table_or_empty key d) result }
{
    match table_at(document, key)? {
        Some(table) => Ok(table),
        None => Ok(empty),
    }
}

/// The tables of a list, in their order; none where the document has nothing of that name.
///
/// `WrongKind`: what it has there is no list, or not each value of the list is a table. `OutOfMemory`: there was no memory
/// for the list.
pub fn tables_at<'a>(
    alloc: Global,
    document: &'a Table,
    key: Key,
) -> Result<Vec<&'a Table>, SettingsFault>
    ensures { let d = table_view document.now in
        ReadsAs (λ v. map (λ t. table_view t.now) v.items) (list_fault key d) (tables_at key d) result }
{
    let Some(value) = value_at(document, key) else {
        return Ok(Vec::new(alloc));
    };
    let Some(values) = value.as_array() else {
        return Err(SettingsFault::WrongKind { key });
    };
    match tables_of(alloc, values.as_slice())? {
        Some(tables) => Ok(tables),
        None => Err(SettingsFault::WrongKind { key }),
    }
}

/// The tables that some values are; `None` if one of them is no table.
fn tables_of<'a>(
    alloc: Global,
    values: &'a [Value],
) -> Result<Option<Vec<&'a Table>>, SettingsFault>
    ensures { ReadsAs (option_map (λ v. map (λ t. table_view t.now) v.items)) None (tables_of (items_view values.now)) result }
{
    let mut tables = Vec::new(alloc);
    for value in values {
        match value.as_table() {
            Some(table) => tables.push(table)?,
            None => return Ok(None),
        }
    }
    Ok(Some(tables))
}
