//! Laws on turns and on what is found in them. Each is a function that does nothing, and its contract is the law.

ghost use Rattle.radio_serving.specs.Laws.{LeaversFeedNoMore, NewsIsFound, TimeIsGiven, TimeIsGivenByEach};
ghost use Rattle.radio_serving.specs.Turns.{OpenSessionsHaveNotFailed};

use crate::Server;
use radio_session::only_refused_calls_fail;

/// The session of an open connection in a sound state has not failed. So if it has failed after a
/// turn, a call of that turn was refused memory.
// rule: Lingering
pub fn open_sessions_have_not_failed()
    ensures { OpenSessionsHaveNotFailed }
{
    only_refused_calls_fail();
}

/// A worker finds that listeners may have news exactly if an event brought some. Who feeds a mount is forgotten when it leaves.
pub fn news_is_found()
    ensures found { NewsIsFound }
    ensures gone { LeaversFeedNoMore }
{}

/// A server gets the time each twentieth of a second, as often as workers make turns, and from each of them once a
/// second.
// rule: Server time
pub fn time_is_given<S: Server>()
    // from a worker that knows of no other that gave it in the last twentieth
    ensures alone { TimeIsGiven S.steps S.refuses }
    // and by one that itself did not for a second, whatever it knows of others
    ensures each { TimeIsGivenByEach S.steps S.refuses }
{}
