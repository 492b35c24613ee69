//! The law of totals: who came is there, or has left.

ghost use Rattle.std.specs.Prelude.{List};
ghost use Rattle.radio_settings_values.specs.declared.settings.Settings.{Settings};
ghost use Rattle.radio_access.specs.Lists.{Lists};
ghost use Rattle.radio_events.specs.declared.event.Event.{Event};
ghost use Rattle.radio_core.specs.Run.{run_after};
ghost use Rattle.radio_core.specs.Totals.{AddsUp};

/// An event leaves as many clients, relays and listeners as before, plus those that came by it, less those that left.
// rule: Client numbers; History adds up; Relay is no client
pub fn clients_and_seats_add_up()
    // after any events, an event leaves as many clients and listeners as before, plus those that came by it, less those that
    // left by it
    ensures add_up { (settings : Settings) (lists : Lists) (events : List Event) (event : Event) → AddsUp (run_after settings lists events) event }
{}
