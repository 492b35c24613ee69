//! Repeated names.
ghost use Rattle.std.specs.Prelude.{map};
ghost use Rattle.radio_keys.specs.Reading.{Reads};
ghost use Rattle.radio_settings.specs.Document.{repeat_fault};

use crate::SettingsFault;
use radio_settings_values::{Named, NamedSettings};
use std::alloc::Global;

/// Tables of different names, or the first repeated name.
pub fn named<T: Named>(alloc: Global, list: Vec<T>) -> Result<NamedSettings<T>, SettingsFault>
    ensures { Reads (repeat_fault (map T.name_of list.items)) list.items result }
{
    match NamedSettings::new(alloc, list)? {
        Ok(named) => Ok(named),
        Err(name) => Err(SettingsFault::MountTwice { name }),
    }
}
