//! What holds of every history that is a run.

ghost use Rattle.std.specs.Prelude.{List};
ghost use Rattle.radio_settings_values.specs.declared.settings.Settings.{Settings};
ghost use Rattle.radio_access.specs.Lists.{Lists};
ghost use Rattle.radio_parts_station.specs.World.{opening};
ghost use Rattle.radio_events.specs.declared.entry.Entry.{Entry};
ghost use Rattle.radio_chronicle.specs.History.{IsRun};
ghost use Rattle.radio_chronicle.specs.Totals.{HistoryAddsUp};

use radio_core::{clients_and_seats_add_up, events_are_of_their_clients};

/// In every history that is a run from an opening state, as `settle` gives one, each client, relay and seat whose
/// number was given is there or has gone.
// rule: History adds up
pub fn histories_add_up()
    // in every run from an opening state, the numbers that were given are those of the clients and of the relays that have
    // come. Of both, those are there that have not gone. The seats that were made are those that are there and those that
    // have ended
    ensures add_up { (settings : Settings) (lists : Lists) (history : List Entry) → IsRun (opening settings lists) history
        → HistoryAddsUp (opening settings lists) history }
{
    clients_and_seats_add_up();
    events_are_of_their_clients();
}
