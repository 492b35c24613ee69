//! How large a script may be.

/// How many lines a script may have.
pub const MAX_LINES: u32 = 1_000_000;

/// How many bytes a line of a script may have, its line feed not counted.
pub const MAX_LINE: usize = 65_536;
