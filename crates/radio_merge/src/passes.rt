//! Whether an order keeps that of each pass.

ghost use Rattle.std.specs.Prelude.{◌≡◌, ◌∷◌, List, All, IsTrue};
ghost use Rattle.radio_chronicle.specs.declared.stamp.Stamp.{Stamp as StampOf};
ghost use Rattle.radio_merge.specs.Merged.{IsSubsequence};

use crate::Stamp;

/// Whether each pass is a subsequence of the order.
pub(crate) fn are_in_order(passes: &[Vec<Stamp>], order: &[Stamp]) -> bool
    ensures { IsTrue result → All (λ pass. IsSubsequence pass.items order.now) passes.now }
{
    for pass in passes {
        if !is_in_order(pass.as_slice(), order) {
            return false;
        }
    }
    true
}

/// Whether the pass is a subsequence of the order.
fn is_in_order(pass: &[Stamp], order: &[Stamp]) -> bool
    ensures { IsTrue result → IsSubsequence pass.now order.now }
{
    let mut left = pass;
    'order: for taken in order {
        left = behind(left, *taken);
    }
    left.is_empty()
}

/// The pass without its first place, if that is this one; else the pass.
fn behind(pass: &[Stamp], taken: Stamp) -> &[Stamp]
    ensures { (order : List StampOf) → IsSubsequence result.now order → IsSubsequence pass.now (taken ∷ order) }
{
    match pass.split_first() {
        Some((first, others)) if first.is(taken) => others,
        _ => pass,
    }
}
