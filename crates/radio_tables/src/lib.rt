//! Tables: rows in rising order of a key, as clients by number and sessions by mount. A row is
//! found, changed in place and removed in a time that grows as the logarithm of their number.
//!
//! - [`Row`]: what has a key; [`RowChange`], [`TryChange`], [`Swap`], [`RowVisit`]: what is done to a
//!   row in its place.
//! - [`Table`]: the rows. Contracts see the list of its rows, and nothing of its inside.
//! - Laws, which run no code: `laws`; lemmas on lists, for proofs: `proofs/FindLaws.antt`, `proofs/EachLaws.antt` and
//!   `proofs/KeyLaws.antt`.
#![tactic(auto)]

mod change;
mod laws;
mod row;
mod table;

pub use change::{RowChange, RowVisit, Swap, TryChange};
pub use laws::a_placed_row_is_found;
pub use row::Row;
pub use table::Table;

/// What a call answers if memory was refused. Nothing has changed then.
pub type OutOfMemory = std::alloc::AllocError;
