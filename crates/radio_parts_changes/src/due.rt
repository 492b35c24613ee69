//! When something in the state is due: from that moment on a clock ends it.

ghost use Rattle.std.specs.Prelude.{◌≡◌};
ghost use Rattle.radio_parts_changes.specs.Due.{at_moment, due_by};
ghost use Rattle.radio_parts_station.specs.Due.{first_due};

use crate::change::Change;
use crate::state::ServerState;
use radio_parts_mount::{LAST_MOMENT, due_at, seat_due};

impl ServerState {
    /// Sets the time, in milliseconds, and finishes nobody.
    pub fn set_time(&mut self, ms: u64)
        ensures { self.new ≡ at_moment self.old ms }
    {
        self.registry.set_time(ms);
    }

    /// Returns the moment from which on what the change brings is due, in milliseconds; the last moment if it brings
    /// nothing that a clock ends.
    pub fn due_by(&self, change: &Change) -> u64
        ensures { result ≡ due_by self.now change.now }
    {
        let limits = &self.registry.settings().limits;
        match change {
            Change::Admit { .. } => due_at(limits.header_timeout.get(), self.registry.time()),
            Change::Begin { .. } | Change::Raise { .. } | Change::Receive { .. } => {
                due_at(limits.source_timeout.get(), self.registry.time())
            }
            Change::TakeSeat { seat, .. } => seat_due(self.registry.settings(), seat),
            Change::Nothing
            | Change::Answer { .. }
            | Change::SetTitle { .. }
            | Change::Advance { .. }
            | Change::End { .. }
            | Change::EndAndLeave { .. }
            | Change::Forget { .. }
            | Change::Tick { .. }
            | Change::Obey { .. } => LAST_MOMENT,
        }
    }

    /// Returns the earliest moment at which a client, a listener or a session is due, in milliseconds. The time grows as
    /// their number.
    pub fn first_due(&self) -> u64
        ensures { result ≡ first_due self.now }
    {
        self.station().first_due(&self.listeners)
    }
}
