//! The places of names in a list, and repeated names.
ghost use Rattle.std.specs.Prelude.{◌≡◌, IfOk, MatchResult, Some, None};
ghost use Rattle.std.specs.List.{slice_get};
ghost use Rattle.std.specs.Option.{option_copied};
ghost use Rattle.radio_settings_values.specs.Places.{HasPlaces};
ghost use Rattle.radio_settings_values.specs.Repeats.{first_repeat};

use crate::OutOfMemory;
use radio_values::MountName;
use std::alloc::Global;
use std::collections::BTreeMap;

/// Returns the place of each name, found by the name; or the first name that is also among those before it. An
/// `Err` outside means that memory ran out.
pub fn places_of(
    alloc: Global,
    names: &[MountName],
) -> Result<Result<BTreeMap<MountName, usize>, MountName>, OutOfMemory>
    ensures apart { IfOk result (λ found. MatchResult found (λ _. first_repeat names.now ≡ None) (λ name. first_repeat names.now ≡ Some name)) }
    ensures places { IfOk result (λ found. IfOk found (λ places. HasPlaces places names.now)) }
{
    let mut places = BTreeMap::new(alloc);
    for (place, name) in names.iter().enumerate() {
        if places.insert(*name, place)?.is_some() {
            return Ok(Err(*name));
        }
    }
    Ok(Ok(places))
}

/// Returns what is at a place in a list.
pub fn item_at<T>(list: &[T], place: usize) -> Option<&T>
    ensures { option_copied result ≡ slice_get list.now place }
{
    list.get(place)
}
