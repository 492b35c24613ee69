ghost use Rattle.std.specs.Prelude.{◌≡◌};
ghost use Rattle.radio_parts.specs.Outcomes.{says, unless_relayed};
ghost use Rattle.radio_parts.specs.SourceEnd.{stops_feeding};
ghost use Rattle.radio_parts_station.specs.World.{has_relay};

use crate::control::Control;
use crate::outcome::Outcome;
use radio_events::Reply;
use radio_parts_changes::Change;
use radio_parts_station::Standing;
use radio_values::MountName;

impl Control {
    /// A source's data have ended.
    pub(crate) fn source_end(&self, id: u64) -> Outcome
        ensures { result ≡ stops_feeding self.now id }
    {
        match self.standing(id) {
            Standing::Feeds(mount) => self.end_unless_relayed(id, mount),
            Standing::Finished(rule) => Outcome::finished(rule),
            Standing::Unknown | Standing::Undecided(_) | Standing::Sits | Standing::Answered => {
                Outcome::stray()
            }
        }
    }

    /// The session of the client that feeds the mount ends, unless it is a relay.
    fn end_unless_relayed(&self, id: u64, mount: MountName) -> Outcome
        ensures { result ≡ unless_relayed (has_relay self.now id) (says Reply.Noted (Change.End id mount)) }
    {
        if self.has_relay(id) {
            return Outcome::stray();
        }
        Outcome {
            reply: Reply::Noted,
            change: Change::End { id, mount },
        }
    }
}
