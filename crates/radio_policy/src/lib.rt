//! The policy: which rule denies what a client or a source asks for. Each action has a list of
//! rules; the first rule whose condition holds denies it, and where none holds it is allowed.
#![tactic(auto)]

mod facts;
mod judgement;
mod laws;
mod rule;

pub use facts::{
    Action, ArriveFacts, CommandAccess, CommandFacts, CommandNeeds, DestinationFacts, ListenFacts,
    Opener, PushFacts, RelayFacts, SourceFacts,
};
pub use judgement::{Verdict, judge};
pub use laws::denials_name_the_first_rule;
pub use rule::{Rule, Status};
