//! All lists of a server that keeps one for each mount and one for the control.
//!
//! Read [`Family`] first.

ghost use Rattle.std.specs.Prelude.{◌≡◌, length, slice_get};
ghost use Rattle.std.specs.Option.{option_copied};

use radio_chronicle::ControlLine;
use radio_parts_mount::MountItem;
use std::marker::Model;

/// A mount's list. Contracts see the list of its items.
#[derive(Drop)]
pub struct MountList {
    pub(crate) items: Vec<MountItem>,
}

impl Model for MountList {
    ghost use Rattle.std.specs.Prelude.{List};
    ghost use Rattle.radio_parts_mount.specs.declared.item.MountItem.{MountItem as ItemOf};

    ghost Value = { List ItemOf };

    ghost view = { λ l. l.items.items };
}

impl MountList {
    /// Returns the list of these items.
    pub fn new(items: Vec<MountItem>) -> MountList
        ensures { result ≡ items.items }
    {
        MountList { items }
    }

    /// Returns its items.
    pub fn as_slice(&self) -> &[MountItem]
        ensures { result.now ≡ self.now }
    {
        self.items.as_slice()
    }

    /// How many items it has.
    pub(crate) fn len(&self) -> usize
        ensures { result ≡ length self.now }
    {
        self.items.len()
    }

    /// The item at this place, counted from 0.
    pub(crate) fn item(&self, at: usize) -> Option<&MountItem>
        ensures { option_copied result ≡ slice_get self.now at }
    {
        self.items.get(at)
    }
}

/// All lists of a server, once no caller calls it any more.
#[derive(Drop)]
pub struct Family {
    /// The list of the control.
    pub control: Vec<ControlLine>,
    /// The lists of the mounts; a [`crate::Stamp`] counts them from 1.
    pub mounts: Vec<MountList>,
}
