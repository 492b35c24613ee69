//! A law of connections that are accepted. It is a function that does nothing, and its contract is the law.

ghost use Rattle.radio_workers.specs.IntakeLaws.{ClosingsFree, FailuresRest, HundredFailuresEndIt};

/// After a failure none is accepted for a tenth of a second, and a hundred failures in a row end a server. Want of descriptors does
/// not, and ends with the next closing.
// rule: Failed accepts
pub fn accepting_rests()
    ensures end { HundredFailuresEndIt }
    ensures rest { FailuresRest }
    ensures freed { ClosingsFree }
{}
