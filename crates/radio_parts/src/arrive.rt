ghost use Rattle.std.specs.Prelude.{◌≡◌, ◌==◌, false};
ghost use Rattle.radio_parts_station.specs.Facts.{largest_number};
ghost use Rattle.radio_parts.specs.Arrive.{arrives, admits_client};

use crate::control::Control;
use crate::outcome::Outcome;
use radio_addr::Peer;
use radio_events::Reply;
use radio_parts_changes::Change;
use radio_parts_facts::arrive_facts;
use radio_policy::{Action, Verdict, judge};

impl Control {
    /// A connection arrives.
    pub(crate) fn arrive(&self, peer: Peer) -> Outcome
        ensures { result ≡ arrives self.now peer }
    {
        let facts = arrive_facts(&self.station(), peer);
        match judge(&Action::Arrive(facts)) {
            Verdict::Deny(rule) => Outcome {
                reply: Reply::Deny(rule),
                change: Change::Nothing,
            },
            Verdict::Allow => self.admit_client(peer),
        }
    }

    fn admit_client(&self, peer: Peer) -> Outcome
        requires { (self.now.station.last_id == largest_number) ≡ false }
        ensures { result ≡ admits_client self.now peer }
    {
        let id = self.station().last_number() + 1;
        Outcome {
            reply: Reply::Arrived(id),
            change: Change::Admit { id, peer },
        }
    }
}
