//! Laws on connections over all their turns, on pulls of relays, and on passes. Each is a function that does nothing, and its contract is the law.

ghost use Rattle.radio_stations.specs.Rounds.{AdmissionsAreWork, TurnsAreWork};
ghost use Rattle.radio_stations.specs.Relays.{PullsMeanTheirBytes};
ghost use Rattle.radio_stations.specs.Running.{RunningStationsHearSlices};
ghost use Rattle.radio_stations.specs.Settled.{SettledStationsHearSlices};
ghost use Rattle.radio_stations.specs.Stations.{StationsAddUp, StationsHearSlices};
ghost use Rattle.radio_answers.specs.declared.web_answers.WebAnswers.{WebAnswers};
ghost use Rattle.radio_stations.specs.Turns.{ConnectionsMeanTheirBytes, StrangersAreOnlyAnswered};
ghost use Rattle.radio_stations.specs.Work.{PassesAreOfTheirWork, WorkIsOfItsConnections};

use radio_events::Server;
use radio_hall::settled_histories_are_woven;
use radio_headline::listeners_hear_slices;
use radio_heads::settled;
use radio_locks::passes_gain_what_was_applied;
use radio_session::cuts_do_not_matter;

/// After each turn, the events applied for a connection are what the bytes of its line mean, and its line takes the replies'
/// bytes.
pub fn connections_mean_their_bytes<S: Server>()
    // for a client that was let in, the events are in the order of the bytes, as if these had come in one piece. Its draws lie among
    // them, and its leaving comes last. The bytes that the line took, followed by those that still wait to be written, are the bytes
    // of the replies
    ensures clients { ConnectionsMeanTheirBytes S.steps }
    // for a client that was not let in nothing is applied: its line takes the bytes of the reply to its arrival
    ensures strangers { StrangersAreOnlyAnswered S.steps }
{
    cuts_do_not_matter();
    settled();
}

/// All that a worker or a relay's thread applies is clock events and the events of its connections and pulls.
pub fn work_is_of_its_connections<S: Server>()
    // a worker applies the arrival of each connection that it takes in
    ensures admissions { (web : WebAnswers) → AdmissionsAreWork S.steps web S.refuses }
    // in each turn it applies the clock's event, if that is due, and then the events of one of its connections after another
    ensures turns { (web : WebAnswers) → TurnsAreWork S.steps web S.refuses }
    // the events under a connection's label are those that the bytes of this connection mean. Those under the label of a relay's
    // pull are those of its course
    ensures labels { (web : WebAnswers) → WorkIsOfItsConnections S.steps web }
{
    connections_mean_their_bytes::<S>();
}

/// In one pull a relay's thread applies the events that the bytes of its master's answer mean, turn after turn, and no others.
pub fn pulls_mean_their_bytes<S: Server>()
    // the bytes are all that the line gave. In a turn without bytes the thread applies a draw without room, if the relay is up. The
    // going down comes last, if at all. If memory is refused in a turn, the thread applies the first of its events, and then only
    // the going down
    ensures { PullsMeanTheirBytes S.steps S.refuses }
{}

/// If a hall stores its entries, a pass gains the receipts of all events that its worker or relay's thread applied, in order.
pub fn passes_are_of_their_work()
    ensures { PassesAreOfTheirWork }
{
    passes_gain_what_was_applied();
}

/// In a history of connections and pulls, each listener is given slices of what its sources brought.
pub fn stations_hear_slices()
    // the history is a run from the opening state, and its entries under each label are those of the connection or the pull there.
    // What the sources brought are the bytes of their connections, or of the answers of relays' masters. Each line of a client takes
    // what the replies say, or a front of it
    ensures slices { StationsHearSlices }
    // what two workers made is such a list however it is woven, if each has labels of its own
    ensures woven { StationsAddUp }
    // if `settle` ends well with the passes of workers and relays' threads, its history is such a history, of all of them
    ensures settled { SettledStationsHearSlices }
{
    listeners_hear_slices();
    passes_are_of_their_work();
    settled_histories_are_woven();
    cuts_do_not_matter();
    settled();
}

/// If `settle` ends well with the passes of a hall's workers and relays' threads, its listeners are given slices of what their
/// sources brought.
pub fn running_stations_hear_slices<W>()
    // workers worked at the slots of one hall that stores its entries, as `run_workers` of `radio_workers` ensures; `W` is a slot.
    // Threads pulled relays in over the same hall, each with a pass of its own, as `pull_with` of `radio_pullers` ensures. No pass had
    // a receipt before. Then all of them have labels of their own, and the history is of the connections of all workers and of all
    // pulls. What the sources brought are the bytes of their connections, or of the answers of relays' masters
    ensures { RunningStationsHearSlices W }
{
    stations_hear_slices();
}
