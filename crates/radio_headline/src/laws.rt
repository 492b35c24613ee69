//! Laws from bytes to bytes, which run no code.

ghost use Rattle.std.specs.Prelude.{ℕ, List};
ghost use Rattle.radio_settings_values.specs.declared.settings.Settings.{Settings};
ghost use Rattle.radio_access.specs.Lists.{Lists};
ghost use Rattle.radio_events.specs.declared.event.Event.{Event};
ghost use Rattle.radio_headline.specs.Lawful.{IsLawful};
ghost use Rattle.radio_headline.specs.Listeners.{DrawsAreCut, DrawsAreStretches};
ghost use Rattle.radio_headline.specs.Scripts.{ListenersHearSlices, PlayedScriptsHearSlices};
ghost use Rattle.radio_headline.specs.Served.{ServedCoursesHearSlices};
ghost use Rattle.radio_headline.specs.Histories.{HistoriesAreLawful};
ghost use Rattle.radio_headline.specs.Sources.{NobodyDelivers};

use radio_blocks::laws::blocks_are_the_data;
use radio_core::{
    clients_and_seats_add_up, clients_stand_by_their_events, events_are_of_their_clients,
    nobody_lags, sessions_are_their_sources,
};
use radio_floor::last_words_are_told;
use radio_heads::{heads_lie_within, settled};
use radio_icy::laws::cut_streams;
use radio_laws::{
    access_is_kept, commands_are_done, denials_are_the_policys, finished_are_told, limits_are_kept,
    listeners_are_told_titles, listeners_begin_at_a_block, listeners_walk_on, nobody_outstays,
    sight_is_kept, stretches_are_whole, users_change_one_by_one, who_left_is_gone,
    whoever_may_is_served,
};
use radio_policy::denials_name_the_first_rule;
use radio_relay::items_are_of_their_relay;
use radio_script::transcripts_are_read_one_way;
use radio_session::{bodies_are_heard_as_their_data, listeners_are_told_what_they_draw};
use radio_source::laws::pieces_are_joined;

/// After any events, a listener's draws are slices of what the sources of its sessions delivered, one for each time that it sat
/// down.
pub fn draws_are_stretches()
    // over every run, the data in a listener's draws are slices, one for each of its sittings, of what the source of its session
    // delivered
    ensures slices { (settings : Settings) (lists : Lists) (events : List Event) (id : ℕ) → DrawsAreStretches settings lists events id }
    // they are cut at the sittings: from one sitting to the next, or to the end, they are one slice
    ensures cut { (settings : Settings) (lists : Lists) (events : List Event) (id : ℕ) → DrawsAreCut settings lists events id }
    // under the number 0, in whose session a listener that waits for one sits, nothing is delivered
    ensures nobody { (settings : Settings) (lists : Lists) (events : List Event) → NobodyDelivers settings lists events }
{
    stretches_are_whole();
    who_left_is_gone();
}

/// The laws of every run hold at one event after any others.
pub fn events_are_lawful()
    ensures { (settings : Settings) (lists : Lists) (events : List Event) (event : Event) → IsLawful settings lists events event }
{
    access_is_kept();
    commands_are_done();
    denials_are_the_policys();
    finished_are_told();
    limits_are_kept();
    listeners_are_told_titles();
    listeners_begin_at_a_block();
    listeners_walk_on();
    nobody_lags();
    nobody_outstays();
    sight_is_kept();
    stretches_are_whole();
    users_change_one_by_one();
    whoever_may_is_served();
}

/// In every run from an opening state each entry is lawful, and each listener's joined draws are slices of what its sources
/// delivered.
// rule: Without gap or repeat
pub fn histories_are_lawful()
    // `settle` of `radio_hall` gives such a run, as a history, if it ends well. At each entry of it the laws of every run hold
    ensures { HistoriesAreLawful }
{
    events_are_lawful();
    draws_are_stretches();
}

/// After its head each listener gets slices of what came on the connections of the sources and relays in whose sessions it
/// sat.
// rule: Without gap or repeat
pub fn listeners_hear_slices()
    // over every script, the slices come in the order of these sessions. If the listener asked for metadata, a metadata block
    // follows each interval. A client that is denied reads the first rule that denied it
    ensures scripts { ListenersHearSlices }
    // so they do over every course that is served event by event. Its events under each label are those of a client's connection or of
    // a relay's pull
    ensures served { ServedCoursesHearSlices }
{
    blocks_are_the_data();
    bodies_are_heard_as_their_data();
    items_are_of_their_relay();
    cut_streams();
    heads_lie_within();
    settled();
    pieces_are_joined();
    clients_and_seats_add_up();
    clients_stand_by_their_events();
    events_are_of_their_clients();
    sessions_are_their_sources();
    access_is_kept();
    denials_are_the_policys();
    denials_name_the_first_rule();
    listeners_begin_at_a_block();
    stretches_are_whole();
    whoever_may_is_served();
    listeners_are_told_what_they_draw();
    last_words_are_told();
    transcripts_are_read_one_way();
    draws_are_stretches();
    events_are_lawful();
}

/// If [`play`](radio_floor::play) ends well, its output gives each listener slices of what the script's sources delivered.
// rule: Line of a script
pub fn played_scripts_hear_slices()
    ensures { PlayedScriptsHearSlices }
{
    listeners_hear_slices();
}
