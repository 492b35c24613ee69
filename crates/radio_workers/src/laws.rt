//! A law of connections that linger. It is a function that does nothing, and its contract is the law.

ghost use Rattle.radio_workers.specs.Laws.{OneLingersLess, OthersAreKept, SourcesLingerLonger};

/// A worker that closes the oldest connection that lingers closes one that lingers, and no other.
// rule: Most that linger
pub fn the_oldest_are_closed()
    ensures one { OneLingersLess }
    // that of a source only if no other lingers
    ensures sources { SourcesLingerLonger }
    ensures kept { OthersAreKept }
{}
