//! A law about merged lists. It runs no code.

ghost use Rattle.radio_merge.specs.Covered.{TheControlMakesTheRest};

/// In merged lists a cut covers each item of a mount's list that is neither an own entry nor an end by a push.
pub fn the_control_makes_the_rest()
    // the control entry of that cut made the item
    ensures { TheControlMakesTheRest }
{}
