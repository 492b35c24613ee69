//! Keys that no table has.

use crate::OutOfMemory;
use crate::entries::{Entries, entries_of};
use crate::meant::{Meant, meant_by};
use radio_settings::{SECTIONS, Section};
use std::alloc::{AllocError, Global};
use toml::{Table, Value};

/// A key that is passed over, since its table has none of that name.
#[derive(Drop)]
pub struct UnknownKey {
    pub key: String,
    /// Its table.
    pub section: Section,
    /// The mount of its table, or the one that its relay feeds; empty if there is none.
    pub mount: String,
    /// Its line, counted from 1; 0 where it is not known.
    pub line: u64,
    pub meant: Meant,
}

/// Returns the keys of a text that no table has: table after table, those of one table in the order of their bytes. A text
/// that is not TOML has none.
///
/// `OutOfMemory`: memory was refused.
pub fn unknown_keys(alloc: Global, text: &str) -> Result<Vec<UnknownKey>, OutOfMemory> {
    let document = match toml::table_from_str(alloc, text) {
        Ok(document) => document,
        Err(fault) if fault.is_memory() => return Err(AllocError),
        Err(_) => return Ok(Vec::new(alloc)),
    };
    let mut review = Review {
        alloc,
        entries: entries_of(alloc, text)?,
        found: Vec::new(alloc),
    };
    for section in SECTIONS {
        review.look_into(*section, &document)?;
    }
    Ok(review.into_found())
}

/// The keys that were found so far, and where keys are.
struct Review {
    alloc: Global,
    entries: Entries,
    found: Vec<UnknownKey>,
}

impl Drop for Review {
    fn drop(self) {
        let Review {
            alloc: _,
            entries,
            found,
        } = self;
        drop(entries);
        drop(found);
    }
}

impl Review {
    fn into_found(self) -> Vec<UnknownKey> {
        let Review {
            alloc: _,
            entries,
            found,
        } = self;
        drop(entries);
        found
    }

    /// Looks at the keys of this table, or of each such table.
    fn look_into(&mut self, section: Section, document: &Table) -> Result<(), OutOfMemory> {
        if section == Section::Top {
            return self.look_at(section, 0, document);
        }
        let Some(value) = document.get(section.word()) else {
            return Ok(());
        };
        if let Some(table) = value.as_table() {
            return self.look_at(section, 0, table);
        }
        match value.as_array() {
            Some(tables) => self.look_at_each(section, tables.as_slice()),
            None => Ok(()),
        }
    }

    fn look_at_each(&mut self, section: Section, tables: &[Value]) -> Result<(), OutOfMemory> {
        let mut number: usize = 0;
        for value in tables {
            number = number.saturating_add(1);
            if let Some(table) = value.as_table() {
                self.look_at(section, number, table)?;
            }
        }
        Ok(())
    }

    fn look_at(
        &mut self,
        section: Section,
        number: usize,
        table: &Table,
    ) -> Result<(), OutOfMemory> {
        for name in table.keys() {
            if !section.knows(name.as_str()) {
                let unknown = self.unknown(section, number, table, name.as_str())?;
                self.found.push(unknown)?;
            }
        }
        Ok(())
    }

    fn unknown(
        &self,
        section: Section,
        number: usize,
        table: &Table,
        name: &str,
    ) -> Result<UnknownKey, OutOfMemory> {
        Ok(UnknownKey {
            key: String::from_str(self.alloc, name)?,
            section,
            mount: mount_of(self.alloc, section, table)?,
            line: self.entries.line_of(place_word(section), number, name),
            meant: meant_by(self.alloc, section, name)?,
        })
    }
}

/// How entries name a table.
pub(crate) fn place_word(section: Section) -> &'static str {
    if section == Section::Top {
        ""
    } else {
        section.word()
    }
}

/// The mount of a table `[[mount]]`, or the one that a relay feeds; empty if there is none.
pub(crate) fn mount_of(
    alloc: Global,
    section: Section,
    table: &Table,
) -> Result<String, OutOfMemory> {
    let name = match section {
        Section::Mount => text_at(table, "mount-name"),
        Section::Relay => match text_at(table, "local-mount") {
            "" => text_at(table, "mount"),
            name => name,
        },
        Section::Top | Section::Listen | Section::Limits | Section::Web | Section::Slave => "",
    };
    String::from_str(alloc, name)
}

/// The text at a key; empty if there is none.
pub(crate) fn text_at<'a>(table: &'a Table, key: &str) -> &'a str {
    let Some(value) = table.get(key) else {
        return "";
    };
    match value.as_str() {
        Some(text) => text,
        None => "",
    }
}
