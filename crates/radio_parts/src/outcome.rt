//! The outcome of an event: worked out first, and then committed.

use radio_events::Reply;
use radio_parts_changes::Change;
use radio_policy::Rule;

/// The reply to an event and the change that it makes, before the change is made.
#[derive(Drop)]
pub struct Outcome {
    pub reply: Reply,
    pub change: Change,
}

impl Outcome {
    ghost use Rattle.std.specs.Prelude.{◌≡◌};
    ghost use Rattle.radio_parts.specs.Outcomes.{says};

    /// The event does not fit its client, or there is none.
    pub(crate) fn stray() -> Outcome
        ensures { result ≡ says Reply.Stray Change.Nothing }
    {
        Outcome {
            reply: Reply::Stray,
            change: Change::Nothing,
        }
    }

    /// The policy denies it by the rule, and nothing changes.
    pub(crate) fn denied(rule: Rule) -> Outcome
        ensures { result ≡ says (Reply.Deny rule) Change.Nothing }
    {
        Outcome {
            reply: Reply::Deny(rule),
            change: Change::Nothing,
        }
    }

    /// Returns the outcome of a request that the policy denies by the rule: the client is answered.
    pub(crate) fn refused(rule: Rule, id: u64) -> Outcome
        ensures { result ≡ says (Reply.Deny rule) (Change.Answer id) }
    {
        Outcome {
            reply: Reply::Deny(rule),
            change: Change::Answer { id },
        }
    }

    /// The outcome for a client that the rule has finished: the reply names the rule.
    pub(crate) fn finished(rule: Rule) -> Outcome
        ensures { result ≡ says (Reply.Finished rule) Change.Nothing }
    {
        Outcome {
            reply: Reply::Finished(rule),
            change: Change::Nothing,
        }
    }
}
