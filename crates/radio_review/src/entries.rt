//! The keys of a text, each with its line.

use crate::OutOfMemory;
use crate::lines::Scan;
use std::alloc::{AllocError, Global};
use toml_parser::text::skip_ws;
use toml_parser::{Key, ParseError, dotted_key};

/// A key of a table, and its line.
#[derive(Drop)]
pub struct KeyEntry {
    /// The name of the table; empty for the keys above all tables.
    pub table: String,
    /// Which of a list of tables it is, counted from 1; 0 for a table that is in no list.
    pub number: usize,
    pub key: String,
    /// The line, counted from 1.
    pub line: u64,
}

/// The keys of a text, in its order.
#[derive(Drop)]
pub struct Entries {
    alloc: Global,
    list: Vec<KeyEntry>,
    /// The table whose keys come next: its name, which of a list it is, and whether it is a part of that table.
    table: String,
    number: usize,
    is_part: bool,
    mounts: usize,
    relays: usize,
}

/// Returns the keys of a text that is TOML. Of a text that is not, some may be missing.
///
/// `OutOfMemory`: memory was refused.
pub fn entries_of(alloc: Global, text: &str) -> Result<Entries, OutOfMemory> {
    let mut entries = Entries::new(alloc);
    let mut scan = Scan::new();
    let mut number: u64 = 0;
    for line in text.lines() {
        number = number.saturating_add(1);
        if scan.is_between() {
            entries.read(skip_ws(line), number)?;
        }
        scan.pass(line);
    }
    Ok(entries)
}

impl Entries {
    fn new(alloc: Global) -> Entries {
        Entries {
            alloc,
            list: Vec::new(alloc),
            table: String::new(alloc),
            number: 0,
            is_part: false,
            mounts: 0,
            relays: 0,
        }
    }

    /// Returns the line of a key. If it has none of its own, as in a table that is written in one line, it is the line
    /// of the table; 0 if that has none either.
    pub fn line_of(&self, table: &str, number: usize, key: &str) -> u64 {
        match self.find(table, number, key) {
            0 => self.find("", 0, table),
            line => line,
        }
    }

    /// Returns the line where a table begins: the head of that one of its list.
    pub fn line_of_table(&self, table: &str, number: usize) -> u64 {
        let mut seen: usize = 0;
        for entry in &self.list {
            if entry.table.is_empty() && entry.key.as_str() == table {
                seen = seen.saturating_add(1);
                if seen >= number {
                    return entry.line;
                }
            }
        }
        0
    }

    fn find(&self, table: &str, number: usize, key: &str) -> u64 {
        for entry in &self.list {
            if entry.is_at(table, number, key) {
                return entry.line;
            }
        }
        0
    }

    /// Reads a line on which a statement begins; blank lines and comments have none.
    fn read(&mut self, line: &str, number: u64) -> Result<(), OutOfMemory> {
        if let Some(name) = line.strip_prefix("[[") {
            return self.read_head(name, true, number);
        }
        if let Some(name) = line.strip_prefix("[") {
            return self.read_head(name, false, number);
        }
        match read_key(self.alloc, line)? {
            Some(key) => self.add_key(key, number),
            None => Ok(()),
        }
    }

    /// Reads the head of a table.
    fn read_head(&mut self, name: &str, is_list: bool, line: u64) -> Result<(), OutOfMemory> {
        let Some(key) = read_key(self.alloc, skip_ws(name))? else {
            return Ok(());
        };
        let (first, second) = first_two(key);
        self.is_part = second.is_some();
        self.number = match (first.as_str(), is_list && !self.is_part) {
            ("mount", true) => next(&mut self.mounts),
            ("relay", true) => next(&mut self.relays),
            ("mount", false) => self.mounts,
            ("relay", false) => self.relays,
            _ => 0,
        };
        self.table = first.clone()?;
        self.add_parts(first, second, line)
    }

    /// Adds the first part of a name at the top, and the second one in the table of the first.
    fn add_parts(
        &mut self,
        first: String,
        second: Option<String>,
        line: u64,
    ) -> Result<(), OutOfMemory> {
        let table = first.clone()?;
        let top = String::new(self.alloc);
        self.add(top, 0, first, line)?;
        match second {
            Some(key) => self.add(table, self.number, key, line),
            None => Ok(()),
        }
    }

    /// Adds a key of the table whose keys come next.
    fn add_key(&mut self, key: Key, line: u64) -> Result<(), OutOfMemory> {
        if self.is_part {
            return Ok(());
        }
        let (first, second) = first_two(key);
        if self.table.is_empty() {
            return self.add_parts(first, second, line);
        }
        let table = self.table.clone()?;
        self.add(table, self.number, first, line)
    }

    fn add(
        &mut self,
        table: String,
        number: usize,
        key: String,
        line: u64,
    ) -> Result<(), OutOfMemory> {
        self.list.push(KeyEntry {
            table,
            number,
            key,
            line,
        })?;
        Ok(())
    }
}

impl KeyEntry {
    fn is_at(&self, table: &str, number: usize, key: &str) -> bool {
        self.table.as_str() == table && self.number == number && self.key.as_str() == key
    }
}

fn next(count: &mut usize) -> usize {
    *count = count.saturating_add(1);
    *count
}

/// The key at the front of a line; `None` if it begins with none.
fn read_key(alloc: Global, line: &str) -> Result<Option<Key>, OutOfMemory> {
    match dotted_key(alloc, line) {
        Ok((key, _rest)) => Ok(Some(key)),
        Err(ParseError::OutOfMemory) => Err(AllocError),
        Err(_) => Ok(None),
    }
}

/// The first two parts of a key.
fn first_two(key: Key) -> (String, Option<String>) {
    let Key { path, last } = key;
    let mut parts = path.into_iter();
    match (parts.next(), parts.next()) {
        (None, _) => (last, None),
        (Some(first), None) => (first, Some(last)),
        (Some(first), Some(second)) => (first, Some(second)),
    }
}
