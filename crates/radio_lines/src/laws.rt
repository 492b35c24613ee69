//! Laws of sources' ends, and of sockets that are asked. Each is a function that does nothing, and its contract is the law.

ghost use Rattle.radio_lines.specs.Laws.{EndsAreHeld, EndsAreAnsweredInTime, RoomIsTaken, StalledAreAskedAgain, UnwantedWait, UnwantedWakeNobody};

/// The end of a source waits for listeners, for half a second at most.
// rule: Closing of a source
pub fn ends_are_answered()
    ensures in_time { EndsAreAnsweredInTime }
    // but not before, unless listeners have drawn
    ensures held { EndsAreHeld }
{}

/// A socket of which nothing is wanted is read ten times a second at most, and one that took nothing is asked again after a second.
// rule: Unwanted bytes; Full sockets
pub fn sockets_are_left_alone()
    ensures unwanted { UnwantedWait }
    // it wakes nobody
    ensures quiet { UnwantedWakeNobody }
    ensures stalled { StalledAreAskedAgain }
    // unless the system reports room
    ensures room { RoomIsTaken }
{}
