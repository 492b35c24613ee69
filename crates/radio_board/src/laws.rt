//! Laws of news and of a worker's states. Each is a function that does nothing, and its contract is the law.

ghost use Rattle.radio_board.specs.NewsLaws.{WaitsEnd, RoundsAreFew, RoundsAreSpaced};
ghost use Rattle.radio_board.specs.ReportLaws.{BegunAreWaitedFor, DrawnHoldUpNobody, NewcomersAreServed, StillHoldUpNobody, UndrawnHoldUp};
ghost use Rattle.radio_board.specs.StateLaws.{NewsIsThere, NewsStays, NewsIsTaken, RoundsDraw, NewsKeepsAwake, NewsWakes};

/// No news is lost, whatever a worker does when it comes.
// rule: News wakes once
pub fn no_news_is_lost()
    // the news that it got is there
    ensures there { NewsIsThere }
    // and stays until a round begins
    ensures stays { NewsStays }
    ensures taken { NewsIsTaken }
    // at whose end, and not before, listeners have drawn it
    ensures drawn { RoundsDraw }
    // a worker does not lie down with news, unless it pauses
    ensures awake { NewsKeepsAwake }
    // and news that comes later wakes it
    ensures wakes { NewsWakes }
{}

/// Rounds are as far apart as they cost, and news waits for no longer than a quarter of a second.
// rule: News waits
pub fn rounds_are_spaced()
    // news that came so long ago waits no more
    ensures ends { WaitsEnd }
    // what does not wait came so long ago, or follows the last round after so many times the shortest
    ensures spaced { RoundsAreSpaced }
    // that is 20 times, and 10 times for each worker
    ensures few { RoundsAreFew }
{}

/// The end of a source waits for the listeners of workers that make turns, and for no others.
// rule: Closing of a source
pub fn ends_wait_for_listeners()
    // not for those who have drawn all news
    ensures drawn { DrawnHoldUpNobody }
    // nor for those of a worker that makes no turns
    ensures still { StillHoldUpNobody }
    // but for those who have not drawn it
    ensures undrawn { UndrawnHoldUp }
{}

/// Only workers that have begun are waited for, and only those that make turns take newcomers.
// rule: Newcomers
pub fn newcomers_are_served()
    ensures begun { BegunAreWaitedFor }
    ensures served { NewcomersAreServed }
{}
