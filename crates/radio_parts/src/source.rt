ghost use Rattle.std.specs.Prelude.{◌≡◌, MatchResult, IfOk};
ghost use Rattle.radio_parts_changes.specs.declared.change.Change.TheVariants.{Begin};
ghost use Rattle.radio_events.specs.declared.reply.Reply.TheVariants.{Feeding};
ghost use Rattle.radio_parts.specs.Outcomes.{says};
ghost use Rattle.radio_parts.specs.Source.{source_outcome, begins};
ghost use Rattle.radio_parts_station.specs.Streams.{shown_for};

use crate::OutOfMemory;
use crate::control::Control;
use crate::outcome::Outcome;
use radio_events::{Reply, SourceRequest};
use radio_parts_changes::Change;
use radio_parts_facts::{mount_named, shown_for, source_facts};
use radio_parts_station::Standing;
use radio_policy::{Action, Rule, Verdict, judge};
use radio_values::{MountName, Shown};

impl Control {
    /// A client wants to feed a mount. `OutOfMemory` if memory was refused.
    pub(crate) fn source(&self, asked: SourceRequest) -> Result<Outcome, OutOfMemory>
        ensures { IfOk result (λ o. o ≡ source_outcome self.now asked) }
    {
        match self.may_feed(&asked) {
            Ok(mount) => self.begin_session(asked.id, mount, &asked.shown),
            Err(other) => Ok(other),
        }
    }

    /// A session begins on the mount.
    fn begin_session(
        &self,
        id: u64,
        mount: MountName,
        shown: &Shown,
    ) -> Result<Outcome, OutOfMemory>
        ensures { IfOk result (λ o. o ≡ says Feeding (Begin id mount (shown_for self.now.station mount shown.now))) }
    {
        let shown = shown_for(&self.station(), &mount, shown)?;
        Ok(Outcome {
            reply: Reply::Feeding,
            change: Change::Begin { id, mount, shown },
        })
    }

    /// Returns the mount that the client may feed. `Err` has the outcome of its request if it may
    /// not.
    fn may_feed(&self, asked: &SourceRequest) -> Result<MountName, Outcome>
        ensures { MatchResult result (λ mount. (mount ≡ asked.now.mount) × (source_outcome self.now asked.now ≡ begins self.now.station asked.now))
            (λ other. other ≡ source_outcome self.now asked.now) }
    {
        match self.standing(asked.id) {
            Standing::Undecided(_) => {}
            Standing::Finished(rule) => return Err(Outcome::finished(rule)),
            Standing::Unknown | Standing::Feeds(_) | Standing::Sits | Standing::Answered => {
                return Err(Outcome::stray());
            }
        }
        let station = self.station();
        let Some(mount) = mount_named(&station, asked.mount.as_slice()) else {
            return Err(Outcome::refused(Rule::BadMount, asked.id));
        };
        let facts = source_facts(&station, &mount, asked);
        match judge(&Action::Source(Some(facts))) {
            Verdict::Deny(rule) => Err(Outcome::refused(rule, asked.id)),
            Verdict::Allow => Ok(mount),
        }
    }
}
