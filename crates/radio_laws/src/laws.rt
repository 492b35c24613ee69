//! The laws of every run: each holds after every list of events from the opening state, over the
//! definitions that `Core::step` follows.

ghost use Rattle.std.specs.Prelude.{◌≡◌, ◌≤◌, Bool, ℕ, List, [], ◌∷◌, ◌++◌, Some};
ghost use Rattle.radio_settings_values.specs.declared.settings.Settings.{Settings};
ghost use Rattle.radio_laws.specs.Shown.{OnlyWhoMayIsShown, WhoMayIsShown, WhoVisitsIsShown, NobodyFeedsAPath, HiddenAreLeftOut, HiddenAreNotToldOnTheWeb, SightIsKept};
ghost use Rattle.radio_access.specs.Lists.{Lists};
ghost use Rattle.radio_events.specs.declared.event.Event.{Event};
ghost use Rattle.radio_events.specs.declared.event.ListenRequest.{ListenRequest};
ghost use Rattle.radio_core.specs.Run.{run_after};
ghost use Rattle.radio_events.specs.Events.{client_in};
ghost use Rattle.radio_laws.specs.Denials.{DenialsAreThePolicys, ThePolicyDenies, AddressesAreDenied, OnlySourcesFeed, KnownMountsAreKnown};
ghost use Rattle.radio_laws.specs.FinishesTold.{FinishedAreTold};
ghost use Rattle.radio_laws.specs.WalkDenials.{WalksAreStoppedInOrder};
ghost use Rattle.radio_laws.specs.Access.{AccessIsKept};
ghost use Rattle.radio_laws.specs.LastMounts.{IsLastWhereHeSits, FinishedWhereHeSat, EndedByClockWhereTheySat, FinishedRowsStay};
ghost use Rattle.radio_laws.specs.Limits.{IsWithinLimits, AdmitsByLimits};
ghost use Rattle.radio_laws.specs.LimitDenials.{DeniesByLimits};
ghost use Rattle.radio_laws.specs.Admission.{BeginsAtABlock};
ghost use Rattle.radio_laws.specs.Service.{Serves, ChangesNothing};
ghost use Rattle.radio_laws.specs.OnDemand.{WaitsOnDemand, WantedAreSatAt};
ghost use Rattle.radio_laws.specs.Stretches.{StretchesAreWhole, StretchesAreCut, SeatsKeepTheirMounts};
ghost use Rattle.radio_laws.specs.WalkingOn.{ListenersWalkOn, MovesAreWhole};
ghost use Rattle.radio_laws.specs.Commanded.{OnlyWhoMayCommands, WhoMayIsServed, CommandsAreKept, FallbacksStay, KilledHearNothing};
ghost use Rattle.radio_laws.specs.Users.{UsersStep, SittersAreLetIn};
ghost use Rattle.radio_laws.specs.TitlesTold.{TitlesAreTold};
ghost use Rattle.radio_parts_station.specs.Timeouts.{TestsAreInNumbers};
ghost use Rattle.radio_laws.specs.Outstaying.{NobodyOutstays};
ghost use Rattle.radio_laws.specs.LentParts.{all_but};
ghost use Rattle.radio_laws.specs.Locality.{AgreeWithin, AnswersAlike, IsLeftAlone, IsWithinReach, LeavesAlone};
ghost use Rattle.radio_parts_changes.specs.Lent.{IsLentTo};
ghost use Rattle.radio_parts.specs.CanStep.{CanStep};
ghost use Rattle.radio_parts.specs.ControlSteps.{control_after, control_reply};
ghost use Rattle.radio_parts_mount.specs.declared.part.MountPart.{MountPart};
ghost use Rattle.radio_laws.specs.Parts.{PartsDraw, PartsReceive, PartsAreTitled};
ghost use Rattle.radio_laws.specs.OwnSteps.{OwnStepsAreTheServers, OwnStepsAreAnswered};
ghost use Rattle.radio_core.specs.Represents.{Represents};
ghost use Rattle.radio_parts.specs.Step.{reply_to, world_after};
ghost use Rattle.radio_parts_station.specs.World.{World};
ghost use Rattle.radio_laws.specs.Gone.{Leaving, HasLeft, IsOutOfPlace, StaysGone};

use radio_policy::denials_name_the_first_rule;

/// What is denied is what the policy denies then, by its first rule that holds, and nothing else changes; what the
/// policy denies is denied.
// rule: First rule; Order for a listener; Address denied; Address not allowed; Source password; No mount
// rule: End of a walk; Waiting is not live
pub fn denials_are_the_policys()
    // after any events, what is denied is what the policy denies then, by its first rule. Nothing else changes, except that
    // an undecided client is answered
    ensures denied { (settings : Settings) (lists : Lists) (events : List Event) (event : Event)
        → DenialsAreThePolicys (run_after settings lists events) event }
    // what the policy denies is denied: if it is asked, the reply denies by its first rule
    ensures denies { (settings : Settings) (lists : Lists) (events : List Event) (event : Event) → ThePolicyDenies (run_after settings lists events) event }
    // an address that the lists deny is denied for that, whatever else holds
    ensures addresses { (settings : Settings) (lists : Lists) (events : List Event) → AddressesAreDenied (run_after settings lists events) }
    // a source feeds only with the user and the password of the mount's source, byte for byte, and a type that is carried
    ensures sources { (settings : Settings) (lists : Lists) (events : List Event) (event : Event) → OnlySourcesFeed (run_after settings lists events) event }
    // a mount of the settings, one that a relay feeds and one that is live are never denied as unknown
    ensures known { (settings : Settings) (lists : Lists) (events : List Event) (asked : ListenRequest)
        → KnownMountsAreKnown (run_after settings lists events) asked }
    // a listener is denied by the mount that it asked for, if that does not let it in or has its user. Else it is denied by
    // `not-live`, `mount-full`, `listener-password` or `user-twice`, the first that holds at a mount of its walk. Or ten
    // mounts have passed the walk on
    ensures stops { (settings : Settings) (lists : Lists) (events : List Event) (asked : ListenRequest)
        → WalksAreStoppedInOrder (run_after settings lists events) asked }
{
    denials_name_the_first_rule();
}

/// A client that learns which rule finished it was finished by that rule at an earlier event, when the rule's condition
/// held.
// rule: Killed; Source killed; Finishes are silent; End of a session
pub fn finished_are_told()
    // a client that learns which rule finished it was finished by that rule at an earlier event, at which the rule's
    // condition held. The event was the end of its mount's session, a block that left it too far behind, or the end of its
    // time
    ensures finished { (settings : Settings) (lists : Lists) (events : List Event) (event : Event) → FinishedAreTold settings lists events event }
{}

/// A finished listener keeps the mount of its last seat, and the rule that finished it, until it leaves.
// rule: Last mount
pub fn last_mounts_stay()
    // after any events, a listener with a seat sits last at that seat's mount
    ensures seated { (settings : Settings) (lists : Lists) (events : List Event) → IsLastWhereHeSits (run_after settings lists events) }
    // a listener that had a seat and was finished by an event other than a clock sat last at that seat's mount
    ensures finished { (settings : Settings) (lists : Lists) (events : List Event) (event : Event)
        → FinishedWhereHeSat (run_after settings lists events) event }
    // so did a listener that a clock finished since it has sat as long as it may. One that loses its seat by the end of a
    // session, at the same clock, sat last where it had it before that end
    ensures timed_out { (settings : Settings) (lists : Lists) (events : List Event) (ms : ℕ)
        → EndedByClockWhereTheySat (run_after settings lists events) ms }
    // a finished listener keeps the rule, and the mount of its last seat, whatever happens, until it leaves
    ensures stays { (settings : Settings) (lists : Lists) (events : List Event) (event : Event) → FinishedRowsStay (run_after settings lists events) event }
{}

/// Only a draw gets data: those at the listener's place in the stream of its mount, which is open to it.
// rule: Listener password; Closed to moves; Open to the listener
pub fn access_is_kept()
    // after any events, only a draw gets data. They are those at the listener's place in the stream of its seat's mount,
    // which is open to it
    ensures access { (settings : Settings) (lists : Lists) (events : List Event) (event : Event) → AccessIsKept (run_after settings lists events) event }
{}

/// No mount has more seats, nor a user twice, than its settings let, and a limit denies only if it is reached.
// rule: Too many clients; Too many sources; User twice; Mount full; Fallback depth; Relay is no client; Waiting mount
pub fn limits_are_kept()
    // after any events, no more sit at a mount than its settings let, and nobody sits twice if its settings let each user sit
    // once
    ensures within { (settings : Settings) (lists : Lists) (events : List Event) → IsWithinLimits (run_after settings lists events) }
    // a limit denies only if it is reached then. A client is denied as a user that sits at the mount only if that very user
    // sits there
    ensures denied { (settings : Settings) (lists : Lists) (events : List Event) (event : Event) → DeniesByLimits (run_after settings lists events) event }
    // a client arrives, and a source feeds, only if fewer are there than may be
    ensures admitted { (settings : Settings) (lists : Lists) (events : List Event) (event : Event) → AdmitsByLimits (run_after settings lists events) event }
{}

/// A new listener begins at the earliest start of a block that its burst allows, at a mount of its walk that lets it
/// in.
// rule: Fallback of a mount; Seat of a newcomer; Start of the burst; Waiting mount
pub fn listeners_begin_at_a_block()
    // after any events, only a client that asks to listen to a mount is seated, in the session that the mount has then, or waits
    // for. It begins at the earliest start of one of its blocks, or at its end, that its burst allows
    ensures seated { (settings : Settings) (lists : Lists) (events : List Event) (event : Event) → BeginsAtABlock (run_after settings lists events) event }
{}

/// A mount waits for a session if a relay feeds it on demand, and no other mount does; it is wanted if somebody sits
/// there.
// rule: Waiting mount; Pulls on demand
pub fn mounts_wait_on_demand()
    // a mount without a session waits for one only if a relay of the settings feeds it on demand. It does wait if all that
    // feed it do
    ensures waits { (settings : Settings) (mount : List ℕ) → WaitsOnDemand settings mount }
    // after any events, the wanted mounts are those on demand at which somebody sits, and no others
    ensures wanted { (settings : Settings) (lists : Lists) (events : List Event) → WantedAreSatAt (run_after settings lists events) }
{}

/// What the policy allows happens, and what is out of place, or comes from a finished client, changes nothing.
// rule: Out of place; Allowed actions; End of a session; Blocks of a source; Draws; Relay comes up
pub fn whoever_may_is_served()
    // after any events, what the policy allows happens, and a title and the end of a source's data are noted. A
    // listener with a seat gets the data at its place, as much as is there and as it has room for
    ensures served { (settings : Settings) (lists : Lists) (events : List Event) → Serves (run_after settings lists events) }
    // what is out of place, or comes from a finished client, changes nothing
    ensures nothing { (settings : Settings) (lists : Lists) (events : List Event) (event : Event) → ChangesNothing (run_after settings lists events) event }
{
    denials_name_the_first_rule();
}

/// All that a listener gets is contiguous slices of what was delivered, one for each time that it sat down.
// rule: Moved to the end; Without gap or repeat; Session after a wait
pub fn stretches_are_whole()
    // over every run, all that a listener gets is stretches, one for each of its sittings. Each is a contiguous slice,
    // without gap or repeat, of what the source of that session delivered
    ensures stretches { (settings : Settings) (lists : Lists) (events : List Event) → StretchesAreWhole settings lists events }
    // they are cut at the sittings: what a listener gets from one sitting to the next is one of them, whole
    ensures cut { (settings : Settings) (lists : Lists) (events : List Event) → StretchesAreCut settings lists events }
    // through each event a listener that keeps a seat keeps all of it but its place, which does not go back. Or a session
    // begins for which it waited, and it hears that from its start. Or a move takes it to the end of another stream
    ensures mounts { (settings : Settings) (lists : Lists) (events : List Event) (event : Event)
        → SeatsKeepTheirMounts (run_after settings lists events) event }
{}

/// A move takes each listener where its walk lands, or the rule that stops the walk finishes it, and nothing else happens
/// to seats.
// rule: End of a session; Called home; Turns of a move; Changes of seats; Relay feeds; End at a waiting mount
pub fn listeners_walk_on()
    // after any events, a move takes each listener, in the order of their numbers and by the state at its turn. The
    // listener goes to the end of the stream where its walk lands, or stays as it is. Or the rule that stops the walk
    // finishes it. If its mount's session has ended it does not stay as it was. At a mount that a relay feeds on demand it
    // goes on to wait for the next one
    ensures turns { (settings : Settings) (lists : Lists) (events : List Event) (event : Event)
        → ListenersWalkOn (run_after settings lists events) event }
    // if a source comes up, ends or leaves, or a command moves listeners or ends a session, nothing else happens to the seats
    ensures whole { (settings : Settings) (lists : Lists) (events : List Event) (event : Event) → MovesAreWhole (run_after settings lists events) event }
{}

/// A command is done for each client that may give it, as its answer says, and changes nothing beyond its mount.
// rule: Admin password; Killed; Source killed; Who may command; Move clients; Metadata; Fallbacks; Change of users
// rule: Users shut out; Commands are done
pub fn commands_are_done()
    // after any events, a client reads that a command was done only if it sent the admin's user and password. Then
    // what the command needs was there too. For a title and a fallback, the user and password of the mount's source suffice
    ensures may { (settings : Settings) (lists : Lists) (events : List Event) (event : Event) → OnlyWhoMayCommands (run_after settings lists events) event }
    // each client that may give one reads that it was done, if what it needs is there
    ensures served { (settings : Settings) (lists : Lists) (events : List Event) → WhoMayIsServed (run_after settings lists events) }
    // a command that the policy allows is done: as many are moved, or finished, as its text says. Its client is answered, and
    // nothing changes beyond the mount that it names
    ensures kept { (settings : Settings) (lists : Lists) (events : List Event) (event : Event) → CommandsAreKept (run_after settings lists events) event }
    // a fallback that was set for a mount stays, whatever happens, until a command sets another for it
    ensures fallbacks { (settings : Settings) (lists : Lists) (events : List Event) (event : Event) → FallbacksStay (run_after settings lists events) event }
    // a listener that a command finished gets nothing from then on, whatever happens
    ensures silent { (settings : Settings) (lists : Lists) (events : List Event) (event : Event)
        → KilledHearNothing (run_after settings lists events) event }
{}

/// Commands alone change the users that are let in, one at a time. Nobody sits at a mount whose users do not let them in.
// rule: Change of users; Closed to moves
pub fn users_change_one_by_one()
    // after any events, the users that are let in at a mount change only for a user that a command sets or deletes. No mount
    // gains users that had none, and the addresses that are let in stay
    ensures steps { (settings : Settings) (lists : Lists) (events : List Event) (event : Event) → UsersStep (run_after settings lists events) event }
    // nobody sits at a mount whose users, as they are now, do not let them in
    ensures sitters { (settings : Settings) (lists : Lists) (events : List Event) → SittersAreLetIn (run_after settings lists events) }
{}

/// A listing shows what is there, to those who may see it. Hidden mounts stay hidden.
// rule: Relay password; Public status; Who may see; One moment; Hidden mounts; Icecast status; Web page
// rule: Paths of the web site; Waiting is not live
pub fn sight_is_kept()
    // after any events, what is shown of the station is its present state, and nothing of it changes. The status and the
    // paths of the web site are for everybody. The list of streams is for a client that sent the relays' user and
    // password, and all of it for one that sent the admin's
    ensures may { (settings : Settings) (lists : Lists) (events : List Event) (event : Event) → OnlyWhoMayIsShown (run_after settings lists events) event }
    // each client that may see it is shown it, if the mount whose listeners it asks for is live
    ensures served { (settings : Settings) (lists : Lists) (events : List Event) → WhoMayIsShown (run_after settings lists events) }
    // a client that asks for a path that `[web]` puts on is shown what is there. That is what is on air in Icecast's words, or
    // the page
    ensures visited { (settings : Settings) (lists : Lists) (events : List Event) → WhoVisitsIsShown (run_after settings lists events) }
    // no source feeds a mount of such a name
    ensures unfed { (settings : Settings) (lists : Lists) (events : List Event) → NobodyFeedsAPath (run_after settings lists events) }
    // no hidden mount is in the status, or in the list of streams
    ensures hidden { (settings : Settings) (lists : Lists) (events : List Event) → HiddenAreLeftOut (run_after settings lists events) }
    // nor in Icecast's words
    ensures untold { (settings : Settings) (lists : Lists) (events : List Event) → HiddenAreNotToldOnTheWeb (run_after settings lists events) }
    // two stations, after any events of each, may agree on what everybody may see of the live mounts that are not hidden. Then
    // they show everybody and every relay the same bytes, whatever else they hold
    ensures alike { (settings others : Settings) (lists files : Lists) (events more : List Event)
        → SightIsKept (run_after settings lists events) (run_after others files more) }
{
    radio_listing::laws::sight_is_kept();
    radio_listing::laws::hidden_mounts_are_left_out();
}

/// A listener that gets data gets with them the last title that was set for the source of its session, or none.
// rule: Metadata; Title of a session
pub fn listeners_are_told_titles()
    // over every run, a listener that gets data gets with them the last title that was set for the source in whose
    // session it sits. The source set it, or a command that names its mount; there is none if none was set
    ensures told { (settings : Settings) (lists : Lists) (events : List Event) (event : Event) → TitlesAreTold settings lists events event }
{}

/// After a clock event nobody is there whose time is over.
// rule: Lagged; Time over; Header timeout; Source silent; The clock; End at a waiting mount
pub fn nobody_outstays()
    // after any events, a moment that has passed changes nothing. After any other clock no listener is there that has sat as
    // long as its mount allows. No client is there that has asked for nothing in its time, and no source that has sent
    // nothing in its time. Each of them is ended by its own rule. For a listener that has sat out its time it is `time-over`,
    // also if its session ends as well. A listener at a mount that a relay feeds on demand waits there if its session ends
    ensures in_time { (settings : Settings) (lists : Lists) (events : List Event) (ms : ℕ) → NobodyOutstays (run_after settings lists events) ms }
    // what that time is, and how far behind is too far, in numbers
    ensures tests { TestsAreInNumbers }
{}

/// A client that left, and a relay that went down, is gone for good: its later events are out of place.
// rule: Leaving; Relay goes down
pub fn who_left_is_gone()
    // a client that was given a number and leaves is no client then, and a relay that has gone down is none
    ensures left { (settings : Settings) (lists : Lists) (events : List Event) (id : ℕ) → id ≤ (run_after settings lists events).station.last_id
        → (event : Event) → Leaving (run_after settings lists events) id event → HasLeft (run_after settings lists (events ++ event ∷ [])) id }
    // whatever happens in the name of a client that left is out of place, and changes nothing
    ensures strays { (settings : Settings) (lists : Lists) (events : List Event) (event : Event) (id : ℕ) → HasLeft (run_after settings lists events) id
        → client_in event ≡ Some id → IsOutOfPlace (run_after settings lists events) event }
    // whatever else happens, it does not come back: its number is given to nobody, it gets nothing more, and nothing more
    // comes from it
    ensures gone { (settings : Settings) (lists : Lists) (events more : List Event) (id : ℕ) → HasLeft (run_after settings lists events) id
        → StaysGone (run_after settings lists events) more id }
{}

/// An event depends on the mounts that it can reach, and changes no other.
// rule: Reach of a start; Reach of a block; Reach of an end; Reach of a listen; Reach of a listener
// rule: Reach of a command; Reach of the clock; Beyond its reach
pub fn events_go_by_their_mounts()
    // two stations, after any events of each, may agree on all that an event can reach. Then they answer it alike, and agree on
    // that still. If the event's client is a listener, the mount where that sits, or sat last, is within reach.
    // Which streams and listeners there are at other mounts, and which of these are finished, does not matter
    ensures alike { (settings others : Settings) (lists files : Lists) (events more : List Event) (within : List ℕ → Bool) (event : Event)
        → AnswersAlike within (run_after others files more) (run_after settings lists events) event }
    // what an event cannot reach stays: each other mount has the session that it had, and its sitters
    ensures alone { (settings : Settings) (lists : Lists) (events : List Event) (within : List ℕ → Bool) (event : Event)
        → LeavesAlone within (run_after settings lists events) event }
{}

/// A draw, a block and a title depend on the session and the sitters of one mount, and change that mount alone.
// rule: Reach of a block; Reach of a listener
pub fn parts_go_by_themselves()
    // after any events, a listener of the mount gets what the part alone says, and only its place in the part changes
    ensures draws { (settings : Settings) (lists : Lists) (events : List Event) → PartsDraw (run_after settings lists events) }
    // a block of its source that is not denied makes the stream longer, and listeners that lag lose their seats; nothing changes
    // at another mount
    ensures blocks { (settings : Settings) (lists : Lists) (events : List Event) → PartsReceive (run_after settings lists events) }
    // a title of its source is the part's, and nothing changes at another mount
    ensures titles { (settings : Settings) (lists : Lists) (events : List Event) → PartsAreTitled (run_after settings lists events) }
{}

/// A mount's part replies to a draw, block or title of its mount as the server does, and changes no other mount.
// rule: Reach of a block; Reach of a listener
pub fn own_steps_are_the_servers()
    // this holds in every state that a core represents. A part that has what the state has at its mount replies as the server
    // does in that state. Afterwards it has what the state has there, and nothing changes at any other mount
    ensures steps { (core w : World) → Represents core w → OwnStepsAreTheServers w }
    // it replies to each draw of a listener that sits there, and to each block and title of the source that feeds the mount
    ensures answered { (core w : World) → Represents core w → OwnStepsAreAnswered w }
{}

/// A control that was lent the parts of some mounts replies to an event that reaches no other, and changes, as the server
/// does.
pub fn lent_parts_are_enough()
    // while a part is lent, every other mount is seen as before
    ensures others { (part there : MountPart) (before after : World) → IsLentTo part there before after → AgreeWithin (all_but part.mount) before after }
    // a control replies as the server does in every state that agrees with it on the mounts that the event can reach. What is at
    // the other mounts does not matter
    ensures replies { (core w lent : World) (within : List ℕ → Bool) (event : Event) → Represents core w → AgreeWithin within lent core
        → IsWithinReach core within event → control_reply lent event ≡ reply_to w event }
    // after its step it agrees on these mounts with a core that represents the state after the event
    ensures changes { (core w lent : World) (within : List ℕ → Bool) (event : Event) → Represents core w → AgreeWithin within lent core
        → IsWithinReach core within event
        → (after : World) × Represents after (world_after w event) × AgreeWithin within (control_after lent event) after }
    // its step leaves each other mount the session that it had, and the same sitters
    ensures alone { (core w lent : World) (within : List ℕ → Bool) (event : Event) → Represents core w → AgreeWithin within lent core
        → IsWithinReach core within event → IsLeftAlone within lent (control_after lent event) }
    // `Control::step` can take the event, so its contract promises that reply and that change
    ensures can { (core w lent : World) (within : List ℕ → Bool) (event : Event) → Represents core w → AgreeWithin within lent core
        → IsWithinReach core within event → CanStep lent event }
{}
