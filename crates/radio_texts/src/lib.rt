//! Texts as bytes: where they are cut, their lines, and the numbers that they write.
//!
//! - [`cut`] and [`cut_at_two`] cut a text at a byte, and at two such bytes side by side.
//! - [`without_blanks`] is a text without the spaces and tabs at its ends.
//! - [`without_return`] is a line without the carriage return at its end.
//! - [`read_number`] reads a number in digits alone.
//! - [`laws`] says what cuts and the fields between them are, for proofs.
#![tactic(auto)]

mod blanks;
mod cuts;
pub mod laws;
mod lines;
mod numbers;

pub use blanks::without_blanks;
pub use cuts::{cut, cut_at_two};
pub use lines::without_return;
pub use numbers::read_number;
