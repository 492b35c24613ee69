//! Parts that are lent.

ghost use Rattle.std.specs.Prelude.{◌≡◌, Err, IfOk, OnErr};
ghost use Rattle.radio_parts_changes.specs.Lent.{part_due, IsLentTo};
ghost use Rattle.radio_parts_table.specs.Exchange.{IsUnfit};

use crate::state::ServerState;
use radio_parts_mount::{LAST_MOMENT, ListedPart, due_at};

impl ServerState {
    /// Puts the part in the place of its mount's, and returns that one. A listener that lagged out there, and still has
    /// its seat, loses it. It takes no memory.
    ///
    /// `Err` has the part itself, and nothing has changed, if the two parts have not the same source, or one has a
    /// source and the other none.
    pub fn exchange(&mut self, part: ListedPart) -> Result<ListedPart, ListedPart>
        ensures ok { IfOk result (λ there. IsLentTo part there self.old self.new) }
        ensures back { OnErr result (result ≡ Err part) }
        ensures unfit { OnErr result (IsUnfit part self.old.station.live) }
        ensures err { OnErr result (self.new ≡ self.old) }
    {
        self.listeners.exchange(part)
    }

    /// Returns when the part's session is due; the last moment if it has none.
    pub fn part_due(&self, part: &ListedPart) -> u64
        ensures { result ≡ part_due self.now.station.settings.limits.source_timeout part.now }
    {
        let seconds = self.registry.settings().limits.source_timeout.get();
        match &part.part().session {
            Some(session) => due_at(seconds, session.last_block),
            None => LAST_MOMENT,
        }
    }
}
