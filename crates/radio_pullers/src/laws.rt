//! A law of relays that are kept running. It is a function that does nothing, and its contract is the law.

ghost use Rattle.radio_pullers.specs.Laws.{FullStationsBeginNone, RelaysFitTheSources};

/// No more relays begin than there may be sources, with those that run and the places that are kept.
// rule: Relay places
pub fn relays_fit_the_sources()
    ensures fit { RelaysFitTheSources }
    // and none if those are as many already
    ensures full { FullStationsBeginNone }
{}
