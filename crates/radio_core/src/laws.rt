//! What an event can do to one client, one seat and one session, and to the state that a core
//! represents. It holds in every run of events from the opening state, over the definitions that
//! `Core::step` follows.

ghost use Rattle.std.specs.Prelude.{List};
ghost use Rattle.radio_settings_values.specs.declared.settings.Settings.{Settings};
ghost use Rattle.radio_access.specs.Lists.{Lists};
ghost use Rattle.radio_events.specs.declared.event.Event.{Event};
ghost use Rattle.radio_core.specs.Run.{run_after};
ghost use Rattle.radio_core.specs.Lagging.{NobodyLags};
ghost use Rattle.radio_core.specs.SessionSteps.{SessionsStep, KeepsSettings};
ghost use Rattle.radio_core.specs.ListsSteps.{ListsAreStepped};
ghost use Rattle.radio_core.specs.SeatSteps.{SeatsStep};
ghost use Rattle.radio_core.specs.ClientSteps.{ClientsStep, ArrivalsStay};
ghost use Rattle.radio_core.specs.Others.{OthersStandOn, RepliesFit, LosesNoSeatElse};
ghost use Rattle.radio_core.specs.SourceReplies.{SourcesAreToldByTheirData, EndsAreTold};
ghost use Rattle.radio_core.specs.CoreReplies.{CoresGoByTheirStates};

/// After any events, the session of a mount changes only if its source or relay, its silence, or an allowed command
/// does something to it; no event changes the settings.
// rule: Mount in use; Source silent; Session; Shown fields; Blocks of a source; Change of users; Relay feeds
pub fn sessions_are_their_sources()
    // after any events, a mount's session changes only if its source delivers a block, sets a title or ends it, or a command
    // sets its title or ends it. It begins for a source that asked for the mount, shows what the settings and that source
    // say, and ends only with its source, by its silence, or by a command
    ensures steps { (settings : Settings) (lists : Lists) (events : List Event) (event : Event) → SessionsStep (run_after settings lists events) event }
    // no event changes the settings
    ensures settings { (settings : Settings) (lists : Lists) (events : List Event) (event : Event) → KeepsSettings (run_after settings lists events) event }
{}

/// After any events, the lists of who is let in change only by an allowed command, which sets or deletes one user of a
/// mount.
pub fn lists_are_their_commands()
    // after any events, the lists of who is let in change only if a command that the policy allows sets or deletes a user of
    // a mount
    ensures steps { (settings : Settings) (lists : Lists) (events : List Event) (event : Event) → ListsAreStepped (run_after settings lists events) event }
{}

/// After any events, a listener's seat changes only if it draws, asks, leaves, is moved or is finished, or if a session
/// begins for which it waits.
// rule: Changes of seats; Seat of a newcomer; Called home
pub fn seats_are_their_listeners()
    // after any events, a seat changes only if its listener draws, or a client that the policy allows asks for a live
    // mount. Or a move takes it, or it is lost by leaving or by a rule that holds then
    ensures steps { (settings : Settings) (lists : Lists) (events : List Event) (event : Event) → SeatsStep (run_after settings lists events) event }
{}

/// After any events, a client's standing changes only if it asks, is answered, leaves, or is finished by a rule whose
/// cause holds then.
// rule: Client states; Relay ended before
pub fn clients_stand_by_their_events()
    // after any events, a client's standing changes only for one of these causes. It arrives, is denied what it asks
    // for, leaves, or its data end. It begins to feed or to listen, or gives a command, as the policy allows. Or it
    // is finished by a rule that holds then
    ensures steps { (settings : Settings) (lists : Lists) (events : List Event) (event : Event) → ClientsStep (run_after settings lists events) event }
    // it keeps the address from which it came, and the moment
    ensures arrivals { (settings : Settings) (lists : Lists) (events : List Event) (event : Event) → ArrivalsStay (run_after settings lists events) event }
{}

/// After any events, each listener with a seat is at most `queue-size` bytes behind the end of its mount's stream.
// rule: Lagged
pub fn nobody_lags()
    // after any events, no listener with a seat is further behind the end of its mount's stream than a queue is long
    ensures near { (settings : Settings) (lists : Lists) (events : List Event) → NobodyLags (run_after settings lists events) }
{}

/// Each reply fits the client that asked; every other client stays as before, unless the event finishes it.
// rule: Other clients; Changes of seats
pub fn events_are_of_their_clients()
    // after any events, a client whose reply says that it arrived, feeds or is seated asked for it, and has that standing
    // then; a client whose reply says that it was finished was finished
    ensures own { (settings : Settings) (lists : Lists) (events : List Event) (event : Event) → RepliesFit (run_after settings lists events) event }
    // every other client stays as before, unless the event finishes it
    ensures others { (settings : Settings) (lists : Lists) (events : List Event) (event : Event) → OthersStandOn (run_after settings lists events) event }
    // a client that lost its seat left by the event, or the event finishes it by a rule whose condition holds then
    ensures seats { (settings : Settings) (lists : Lists) (events : List Event) (event : Event) → LosesNoSeatElse (run_after settings lists events) event }
{}

/// The replies to a source depend on its data, not on how they are cut into blocks.
// rule: Cuts do not matter
pub fn sources_are_told_by_their_data()
    // in each state a block gets the reply that its data get. While the source goes on, more data get the reply that all of
    // them would get at once; what a rule has ended stays ended by it
    ensures blocks { SourcesAreToldByTheirData }
    // so does the end of the data
    ensures ends { EndsAreTold }
{}

/// Two cores that represent one state are the same, and a core replies to a source's data as the state does.
// rule: Kept stream
pub fn cores_go_by_their_states()
    // two cores that represent one state are the same, and a core replies to a source's data, and to their end, as each state
    // that it represents
    ensures { CoresGoByTheirStates }
{}
