//! Whether the entries of a history are stored.

/// Whether the entries of a history are stored: [`Kept`] or [`Unkept`].
pub trait Chronicle: Drop {
    ghost use Rattle.std.specs.Prelude.{Bool};

    ghost KEEPS: { Bool };

    /// Whether each entry is stored. If not, none is.
    const KEEPS: bool;
}

/// Each entry is stored.
#[derive(Drop)]
pub struct Kept;

impl Chronicle for Kept {
    ghost use Rattle.std.specs.Prelude.{true};

    ghost KEEPS = { true };

    const KEEPS: bool = true;
}

/// No entry is stored.
#[derive(Drop)]
pub struct Unkept;

impl Chronicle for Unkept {
    ghost use Rattle.std.specs.Prelude.{false};

    ghost KEEPS = { false };

    const KEEPS: bool = false;
}
