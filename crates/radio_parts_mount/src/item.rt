//! The items of a mount's list.

ghost use Rattle.std.specs.Prelude.{◌≡◌};
ghost use Rattle.std.specs.Option.{option_copied};
ghost use Rattle.radio_parts_mount.specs.Items.{is_left_out, own_entry};

use radio_events::Entry;
use radio_policy::Rule;
use radio_values::{Shown, Title};

/// How a client or a relay is attached to a mount.
#[derive(Drop)]
pub enum Attaching {
    /// As a listener.
    Listener {
        /// The place up to which it has heard the mount's stream, in bytes.
        place: u64,
    },
    /// As the source or the relay that feeds the mount.
    Feeder {
        /// The fields that it shows to listeners.
        shown: Shown,
        /// When it began, in milliseconds.
        moment: u64,
    },
}

/// An item of a mount's list. A grant is the place of an `Attach` in the list, counted from 1.
#[derive(Drop)]
pub enum MountItem {
    /// A client or a relay is attached to the mount.
    Attach {
        /// The number of the client.
        id: u64,
        /// How it is attached.
        attached: Attaching,
    },
    /// A grant is over.
    Detach {
        /// The number of the client that had it.
        id: u64,
        /// The grant.
        grant: u64,
        /// The rule, if a push found that its listener lagged; `None` if the control detached it.
        rule: Option<Rule>,
    },
    /// An own entry: whoever has the grant pushed a block, set a title or drew.
    Own {
        /// The grant.
        grant: u64,
        /// When, in milliseconds.
        moment: u64,
        /// The event and its reply.
        entry: Entry,
    },
    /// A command set the title of the mount.
    Titled(Title),
}

impl MountItem {
    /// Returns whether it is an end that a push made, since its listener lagged.
    pub fn is_left_out(&self) -> bool
        ensures { result ≡ is_left_out self.now }
    {
        match self {
            MountItem::Detach { rule, .. } => matches!(rule, Some(Rule::Lagged)),
            MountItem::Attach { .. } | MountItem::Own { .. } | MountItem::Titled(_) => false,
        }
    }

    /// Returns the entry, if it is an own one.
    pub fn own_entry(&self) -> Option<&Entry>
        ensures { option_copied result ≡ own_entry self.now }
    {
        match self {
            MountItem::Own { entry, .. } => Some(entry),
            MountItem::Attach { .. } | MountItem::Detach { .. } | MountItem::Titled(_) => None,
        }
    }
}
