//! A law about settled histories. It runs no code.

ghost use Rattle.radio_hall.specs.Woven.{SettledHistoriesAreWoven};

/// A settled history has the entry of each receipt of all passes once, in the order of its pass, and no other entry.
// rule: Settled history
pub fn settled_histories_are_woven()
    ensures { SettledHistoriesAreWoven }
{}
