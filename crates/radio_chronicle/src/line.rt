//! The lines of the control's list.

ghost use Rattle.std.specs.Prelude.{◌≡◌};
ghost use Rattle.std.specs.Option.{option_copied};

use radio_events::Entry;

/// A line of the control's list. Before each entry there is a cut for each mount that the entry was lent.
#[derive(Drop)]
pub enum ControlLine {
    /// The next control entry comes after the first `from` items of this list, and made those from `from` to `to`.
    Cut {
        /// The list of the mount, counted from 1.
        list: u64,
        /// How many items the list had before the entry.
        from: u64,
        /// How many items the list had after the entry.
        to: u64,
    },
    /// The event of the entry and its reply.
    Made(Entry),
}

impl ControlLine {
    ghost use Rattle.radio_chronicle.specs.Lines.{line_entry};

    /// Returns the entry, if it is no cut.
    pub fn entry(&self) -> Option<&Entry>
        ensures { option_copied result ≡ line_entry self.now }
    {
        match self {
            ControlLine::Made(entry) => Some(entry),
            ControlLine::Cut { .. } => None,
        }
    }
}
