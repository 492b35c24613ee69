//! Tests of books, of lists and of their merge by one caller, as it sees them: what no clause says. The replies are those of a core.
//!
//! - `lent_parts`: a part that is kept apart, and is lent to the control.
//! - `mount_books`: two mounts' parts that are kept apart, each with its book, and settled.
//! - `locked`: the same under a lock for each mount.
//! - `unkept`: calls of a hall that stores nothing.
//! - `merged`: lists of two mounts and of the control, made by hand, and merged.
#![tactic(auto)]

#[cfg(test)]
mod lent_parts;
#[cfg(test)]
mod locked;
#[cfg(test)]
mod merged;
#[cfg(test)]
mod mount_books;
#[cfg(test)]
mod unkept;
