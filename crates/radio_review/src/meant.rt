//! What a key that no table has may have been meant for.
ghost use Rattle.std.specs.Prelude.{◌≡◌, IfOk, map};
ghost use Rattle.radio_settings.specs.Sections.{as_named};
ghost use Rattle.radio_review.specs.Meant.{is_near, meant_by, near, nearest};

use crate::OutOfMemory;
use radio_settings::{KnownKey, Section, home_of};
use std::alloc::Global;
use strsim::levenshtein;

/// What may have been meant.
#[derive(Clone, Copy)]
pub enum Meant {
    /// A key of this name, in another table.
    At(Section),
    /// This key of the same table, whose name is one or two edits away.
    Key(radio_keys::Key),
    /// Nothing that is known.
    Nothing,
}

/// Returns what a name may have been meant for that its table does not know. First comes the key of that name in the
/// first other table that has one. Next comes the first key of its own table whose name one edit makes of it, or else
/// two. An edit is the insertion, deletion or replacement of a character, as Levenshtein counts them.
///
/// `OutOfMemory`: memory was refused.
// rule: Unknown keys
pub fn meant_by(alloc: Global, section: Section, name: &str) -> Result<Meant, OutOfMemory>
    ensures { IfOk result (λ meant. meant ≡ meant_by section name.now) }
{
    if let Some(home) = home_of(name) {
        return Ok(Meant::At(home));
    }
    match nearest(alloc, section.keys(), name)? {
        Some(key) => Ok(Meant::Key(key)),
        None => Ok(Meant::Nothing),
    }
}

fn nearest(
    alloc: Global,
    keys: &[KnownKey],
    name: &str,
) -> Result<Option<radio_keys::Key>, OutOfMemory>
    ensures { IfOk result (λ key. key ≡ nearest (map as_named keys.now) name.now) }
{
    match near(alloc, keys, name, 1)? {
        Some(key) => Ok(Some(key)),
        None => near(alloc, keys, name, 2),
    }
}

/// The first key that so many edits at most make of the name.
#[tactic(auto, using(crate::proofs::NearLemmas::none_yet, crate::proofs::NearLemmas::none_more, crate::proofs::NearLemmas::found_here, crate::proofs::NearLemmas::none_at_all))]
fn near(
    alloc: Global,
    keys: &[KnownKey],
    name: &str,
    most: usize,
) -> Result<Option<radio_keys::Key>, OutOfMemory>
    ensures { IfOk result (λ key. key ≡ near most name.now (map as_named keys.now)) }
{
    for known in keys {
        if is_near(alloc, known, name, most)? {
            return Ok(Some(known.0));
        }
    }
    Ok(None)
}

fn is_near(alloc: Global, known: &KnownKey, name: &str, most: usize) -> Result<bool, OutOfMemory>
    ensures { IfOk result (λ is_near_it. is_near_it ≡ is_near most name.now (as_named known.now)) }
{
    let edits = levenshtein(alloc, name, known.0.word())?;
    Ok(edits <= most)
}
