ghost use Rattle.std.specs.Prelude.{◌≡◌};
ghost use Rattle.radio_parts.specs.Leave.{leaves, leaves_from};
ghost use Rattle.radio_parts_station.specs.World.{standing_of};

use crate::control::Control;
use crate::outcome::Outcome;
use radio_events::Reply;
use radio_parts_changes::Change;
use radio_parts_station::Standing;

impl Control {
    /// A client's connection is closed.
    pub(crate) fn leave(&self, id: u64) -> Outcome
        ensures { result ≡ leaves self.now id }
    {
        if self.has_relay(id) {
            Outcome::stray()
        } else {
            self.leave_as_standing(id)
        }
    }

    /// A client's connection is closed. If it feeds a mount, the session ends first.
    fn leave_as_standing(&self, id: u64) -> Outcome
        ensures { result ≡ leaves_from id (standing_of self.now id) }
    {
        match self.standing(id) {
            Standing::Unknown => Outcome::stray(),
            Standing::Feeds(mount) => Outcome {
                reply: Reply::Noted,
                change: Change::EndAndLeave { id, mount },
            },
            Standing::Undecided(_) | Standing::Sits | Standing::Answered | Standing::Finished(_) =>
                Outcome {
                    reply: Reply::Noted,
                    change: Change::Forget { id },
                },
        }
    }
}
