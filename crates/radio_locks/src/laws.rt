//! A law on callers, which runs no code.

ghost use Rattle.radio_locks.specs.Callers.{PassesGainWhatWasApplied};

/// If entries are stored, a caller's pass gains the receipts of the events that were applied, with their replies, in
/// their order, and nothing else.
pub fn passes_gain_what_was_applied()
    ensures { PassesGainWhatWasApplied }
{}
