ghost use Rattle.std.specs.Prelude.{◌≡◌};
ghost use Rattle.radio_parts.specs.Push.{delivers};

use crate::control::Control;
use crate::outcome::Outcome;
use radio_blocks::Block;
use radio_events::Reply;
use radio_parts_changes::Change;
use radio_parts_facts::push_facts;
use radio_parts_station::Standing;
use radio_policy::{Action, Verdict, judge};

impl Control {
    /// A source delivers a block.
    pub(crate) fn push(&self, id: u64, block: Block) -> Outcome
        ensures { result ≡ delivers self.now id block }
    {
        let mount = match self.standing(id) {
            Standing::Feeds(mount) => mount,
            Standing::Finished(rule) => return Outcome::finished(rule),
            Standing::Unknown | Standing::Undecided(_) | Standing::Sits | Standing::Answered => {
                return Outcome::stray();
            }
        };
        let facts = push_facts(&self.station(), &mount, &block);
        match judge(&Action::Push(facts)) {
            Verdict::Deny(rule) => Outcome::denied(rule),
            Verdict::Allow => Outcome {
                reply: Reply::Noted,
                change: Change::Receive { mount, block },
            },
        }
    }
}
