//! Laws of relays that are tried again and again. Each is a function that does nothing, and its contract is the law.

ghost use Rattle.radio_tries.specs.Laws.{MastersAreGivenUp, MastersHaveTime, PausesAreShort, PausesAreWhole, PlacesAreFreed, PlacesAreKept, RelaysRest, ThreadsStop, UnwishedDoNot};

/// A relay that has ended rests for five seconds, for which some ends keep its place.
pub fn relays_rest()
    ensures rest { RelaysRest }
    // but for one that was not wished
    ensures unwished { UnwishedDoNot }
    // a place that is kept is free once the relay may be tried again
    ensures kept { PlacesAreKept }
    ensures freed { PlacesAreFreed }
{}

/// A master that does not answer is given up after ten seconds, and not before.
pub fn masters_have_ten_seconds()
    ensures late { MastersAreGivenUp }
    ensures early { MastersHaveTime }
{}

/// A thread that waits looks twice a second whether it is to stop, and goes on at its moment.
pub fn threads_look_twice_a_second()
    ensures short { PausesAreShort }
    ensures whole { PausesAreWhole }
    ensures stop { ThreadsStop }
{}
