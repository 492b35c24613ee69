//! Laws on pulls, which run no code.

ghost use Rattle.radio_relay.specs.PullLaws.{ItemsAreOfTheirRelay};

/// What a pull brings is its own relay's: no other relay is fed, and no other mount's title is set.
// rule: Pulled stream
pub fn items_are_of_their_relay()
    ensures { ItemsAreOfTheirRelay }
{}
