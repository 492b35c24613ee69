ghost use Rattle.std.specs.Prelude.{◌≡◌};
ghost use Rattle.radio_parts_changes.specs.KeptChanges.{kept_changed};
ghost use Rattle.radio_parts.specs.Clock.{hears_clock};

use crate::control::Control;
use crate::outcome::Outcome;
use radio_events::Reply;
use radio_parts_changes::Change;

impl Control {
    /// Applies a clock event: sets the time, unless it has passed, and ends what has had its time. It looks at clients,
    /// listeners and sessions only if something may be due, and takes no memory.
    pub(crate) fn step_clock(&mut self, ms: u64)
        ensures { self.new ≡ kept_changed self.old (hears_clock self.old ms).change }
    {
        if ms < self.time() {
            return;
        }
        if ms < self.due_from {
            self.state.set_time(ms);
            return;
        }
        self.state.tick(ms);
        self.due_from = self.state.first_due();
    }

    /// It is this moment.
    pub(crate) fn clock(&self, ms: u64) -> Outcome
        ensures { result ≡ hears_clock self.now ms }
    {
        Outcome {
            reply: Reply::Noted,
            change: if ms < self.station().time() {
                Change::Nothing
            } else {
                Change::Tick { ms }
            },
        }
    }
}
