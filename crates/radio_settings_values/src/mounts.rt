//! The mounts that the settings name, and the relays.
ghost use Rattle.std.specs.Prelude.{◌≡◌, ℕ, IfOk, List, MatchResult, None, Some, find, map};
ghost use Rattle.std.specs.Option.{option_copied};
ghost use Rattle.std.specs.Str.{bytes_eq};
ghost use Rattle.radio_settings_values.specs.Repeats.{first_repeat};

use crate::places::{item_at, places_of};
use crate::{MountSetting, OutOfMemory, RelaySetting};
use radio_values::MountName;
use std::alloc::Global;
use std::collections::BTreeMap;
use std::marker::Model;

/// The tables `[[mount]]`, in their order. No two have one name.
pub type MountSettings = NamedSettings<MountSetting>;

/// The tables `[[relay]]`, in their order. No two feed one mount.
pub type RelaySettings = NamedSettings<RelaySetting>;

/// A table of a list that is found by the name of a mount.
pub trait Named: Drop {
    // That name.
    ghost name_of: { Self → List ℕ };

    /// That name.
    fn name(&self) -> MountName
        ensures { result ≡ name_of self.now };
}

/// A mount is found by its own name.
impl Named for MountSetting {
    ghost name_of = { λ mount. mount.name };

    fn name(&self) -> MountName {
        self.name
    }
}

/// A relay is found by the mount that it feeds.
impl Named for RelaySetting {
    ghost name_of = { λ relay. relay.local_mount };

    fn name(&self) -> MountName {
        self.local_mount
    }
}

/// Tables of a list, in their order. No two have one name.
pub struct NamedSettings<T: Named> {
    list: Vec<T>,
    /// The place in the list of the table of each name.
    places: BTreeMap<MountName, usize>,
}

impl<T: Named> Drop for NamedSettings<T> {
    fn drop(self) {
        let NamedSettings { list, places } = self;
        drop(list);
        drop(places);
    }
}

impl<T: Named> Model for NamedSettings<T> {
    ghost use Rattle.std.specs.Prelude.{◌≡◌, List, None, map};
    ghost use Rattle.radio_settings_values.specs.Places.{HasPlaces};
    ghost use Rattle.radio_settings_values.specs.Repeats.{first_repeat};

    ghost Value = { List T };

    ghost view = { λ a. a.list.items };

    ghost invariant = { λ a. (first_repeat (map T.name_of a.list.items) ≡ None) × HasPlaces a.places (map T.name_of a.list.items) };
}

impl<T: Named> NamedSettings<T> {
    /// Tables of different names, or the first repeated name. An `Err` outside means that memory ran out.
    pub fn new(
        alloc: Global,
        list: Vec<T>,
    ) -> Result<Result<NamedSettings<T>, MountName>, OutOfMemory>
        ensures { let names = map T.name_of list.items in
            IfOk result (λ made. MatchResult made (λ named. (first_repeat names ≡ None) × (named ≡ list.items)) (λ name. first_repeat names ≡ Some name)) }
    {
        let names = names_of(alloc, list.as_slice())?;
        match places_of(alloc, names.as_slice())? {
            Ok(places) => Ok(Ok(NamedSettings { list, places })),
            Err(name) => Ok(Err(name)),
        }
    }

    /// All of them, in the order of the text.
    pub fn as_slice(&self) -> &[T]
        ensures all { result.now ≡ self.now }
        ensures apart { first_repeat (map T.name_of self.now) ≡ None }
    {
        self.list.as_slice()
    }

    /// The one of a name.
    pub fn get(&self, name: &MountName) -> Option<&T>
        ensures { option_copied result ≡ find (λ table. bytes_eq (T.name_of table) name.now) self.now }
    {
        match self.places.get(name) {
            Some(place) => item_at(self.list.as_slice(), *place),
            None => None,
        }
    }
}

impl<T: Named + Clone> NamedSettings<T> {
    /// Returns equal tables, if clones of tables are equal to them. `OutOfMemory` if memory was refused.
    pub fn again(&self) -> Result<NamedSettings<T>, OutOfMemory>
        requires { (table other : T) → T.is_clone table other → other ≡ table }
        ensures { IfOk result (λ named. named ≡ self.now) }
    {
        Ok(NamedSettings {
            list: self.list.clone()?,
            places: self.places.clone()?,
        })
    }
}

fn names_of<T: Named>(alloc: Global, tables: &[T]) -> Result<Vec<MountName>, OutOfMemory>
    ensures { IfOk result (λ names. names.items ≡ map T.name_of tables.now) }
{
    let mut names = Vec::new(alloc);
    for table in tables {
        names.push(table.name())?;
    }
    Ok(names)
}
