//! Relays: the outcomes of their coming and going.

ghost use Rattle.std.specs.Prelude.{◌≡◌, ◌==◌, false, MatchResult, IfOk};
ghost use Rattle.radio_policy.specs.Verdicts.{verdict_in};
ghost use Rattle.radio_parts_station.specs.Facts.{largest_number, rows_to_raise};
ghost use Rattle.radio_parts.specs.RelayUp.{comes_up, raises};
ghost use Rattle.radio_parts.specs.RelayDown.{goes_down};

use crate::OutOfMemory;
use crate::control::Control;
use crate::outcome::Outcome;
use radio_events::Reply;
use radio_parts_changes::Change;
use radio_parts_facts::{mount_named, relay_facts, shown_for};
use radio_parts_station::Standing;
use radio_policy::{Action, Rule, Verdict, judge};
use radio_values::{MountName, Shown};

impl Control {
    /// A relay wants to feed the mount of this name. `OutOfMemory` if memory was refused.
    pub(crate) fn relay_up(&self, mount: &[u8], shown: &Shown) -> Result<Outcome, OutOfMemory>
        ensures { IfOk result (λ o. o ≡ comes_up self.now mount.now shown.now) }
    {
        match self.may_come_up(mount, shown) {
            Ok(mount) => self.raise_on(mount, shown),
            Err(rule) => Ok(Outcome::denied(rule)),
        }
    }

    /// The mount that the relay may feed, or the rule that denies it.
    fn may_come_up(&self, mount: &[u8], shown: &Shown) -> Result<MountName, Rule>
        ensures { MatchResult result
            (λ name. (name ≡ mount.now) × (verdict_in (rows_to_raise self.now.station mount.now shown.now) ≡ Verdict.Allow))
            (λ rule. verdict_in (rows_to_raise self.now.station mount.now shown.now) ≡ Verdict.Deny rule) }
    {
        let station = self.station();
        let Some(name) = mount_named(&station, mount) else {
            return Err(Rule::BadMount);
        };
        let facts = relay_facts(&station, &name, shown);
        match judge(&Action::RelayUp(Some(facts))) {
            Verdict::Deny(rule) => Err(rule),
            Verdict::Allow => Ok(name),
        }
    }

    /// The next number is given to the relay, and a session begins on the mount.
    fn raise_on(&self, mount: MountName, shown: &Shown) -> Result<Outcome, OutOfMemory>
        requires { (self.now.station.last_id == largest_number) ≡ false }
        ensures { IfOk result (λ o. o ≡ raises self.now.station mount shown.now) }
    {
        let station = self.station();
        let shown = shown_for(&station, &mount, shown)?;
        let id = station.last_number() + 1;
        Ok(Outcome {
            reply: Reply::Arrived(id),
            change: Change::Raise { id, mount, shown },
        })
    }

    /// A relay's connection to its master is closed.
    pub(crate) fn relay_down(&self, id: u64) -> Outcome
        ensures { result ≡ goes_down self.now id }
    {
        if !self.has_relay(id) {
            return Outcome::stray();
        }
        match self.standing(id) {
            Standing::Feeds(mount) => Outcome {
                reply: Reply::Noted,
                change: Change::EndAndLeave { id, mount },
            },
            Standing::Finished(_) => Outcome {
                reply: Reply::Noted,
                change: Change::Forget { id },
            },
            Standing::Unknown | Standing::Undecided(_) | Standing::Sits | Standing::Answered => {
                Outcome::stray()
            }
        }
    }
}
