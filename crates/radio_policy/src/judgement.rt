ghost use Rattle.std.specs.Prelude.{◌≡◌};
ghost use Rattle.radio_policy.specs.Table.{arrive_rows, source_rows, relay_rows, push_rows, listen_rows, table};
ghost use Rattle.radio_policy.specs.Table.{password_rule, needs_rows, command_rows};
ghost use Rattle.radio_policy.specs.Verdicts.{verdict_in};

use crate::{
    Action, ArriveFacts, CommandAccess, CommandFacts, CommandNeeds, DestinationFacts, ListenFacts,
    Opener, PushFacts, RelayFacts, Rule, SourceFacts,
};

/// What the policy says to something that is asked for.
#[derive(Clone, Copy, Debug, PartialEq, Eq)]
pub enum Verdict {
    Allow,
    /// Denied by this rule: the first whose condition holds.
    Deny(Rule),
}

/// The policy's verdict: that of the first row of the action's table whose condition holds. It
/// takes no memory.
// rule: First rule; Order for a connection; Order for a source; Order for a relay; Order for a listener
// rule: Order for a command; Numbers spent
pub fn judge(action: &Action) -> Verdict
    ensures { result ≡ verdict_in (table action.now) }
{
    match action {
        Action::Arrive(facts) => judge_arrive(facts),
        Action::Source(facts) => judge_source(facts),
        Action::Push(facts) => judge_push(facts),
        Action::Listen(facts) => judge_listen(facts),
        Action::Command(facts) => judge_command(facts),
        Action::RelayUp(facts) => judge_relay(facts),
    }
}

fn judge_arrive(facts: &ArriveFacts) -> Verdict
    ensures { result ≡ verdict_in (arrive_rows facts.now) }
{
    if facts.address_is_denied {
        Verdict::Deny(Rule::AddressDenied)
    } else if !facts.address_is_allowed {
        Verdict::Deny(Rule::AddressNotAllowed)
    } else if facts.clients_are_full {
        Verdict::Deny(Rule::TooManyClients)
    } else if facts.number_is_spent {
        Verdict::Deny(Rule::NumbersSpent)
    } else {
        Verdict::Allow
    }
}

fn judge_source(facts: &Option<SourceFacts>) -> Verdict
    ensures { result ≡ verdict_in (source_rows facts.now) }
{
    let Some(facts) = facts else {
        return Verdict::Deny(Rule::BadMount);
    };
    if !facts.is_source_pair {
        Verdict::Deny(Rule::SourcePassword)
    } else if facts.sources_are_full {
        Verdict::Deny(Rule::TooManySources)
    } else if facts.mount_is_live {
        Verdict::Deny(Rule::MountInUse)
    } else if facts.type_is_refused {
        Verdict::Deny(Rule::ContentType)
    } else {
        Verdict::Allow
    }
}

fn judge_relay(facts: &Option<RelayFacts>) -> Verdict
    ensures { result ≡ verdict_in (relay_rows facts.now) }
{
    let Some(facts) = facts else {
        return Verdict::Deny(Rule::BadMount);
    };
    if facts.sources_are_full {
        Verdict::Deny(Rule::TooManySources)
    } else if facts.mount_is_live {
        Verdict::Deny(Rule::MountInUse)
    } else if facts.type_is_refused {
        Verdict::Deny(Rule::ContentType)
    } else if facts.number_is_spent {
        Verdict::Deny(Rule::NumbersSpent)
    } else {
        Verdict::Allow
    }
}

fn judge_push(facts: &PushFacts) -> Verdict
    ensures { result ≡ verdict_in (push_rows facts.now) }
{
    if facts.number_is_spent {
        Verdict::Deny(Rule::NumbersSpent)
    } else {
        Verdict::Allow
    }
}

// rule: Allowed actions; First rule; Order for a listener
fn judge_listen(facts: &Option<ListenFacts>) -> Verdict
    ensures { result ≡ verdict_in (listen_rows facts.now) }
{
    let Some(facts) = facts else {
        return Verdict::Deny(Rule::BadMount);
    };
    if !facts.mount_is_known {
        return Verdict::Deny(Rule::NoMount);
    }
    if !facts.users_accept {
        return Verdict::Deny(Rule::ListenerPassword);
    }
    if facts.user_is_twice {
        return Verdict::Deny(Rule::UserTwice);
    }
    match facts.walk_stops {
        Some(rule) => Verdict::Deny(rule),
        None => Verdict::Allow,
    }
}

fn judge_command(facts: &Option<CommandFacts>) -> Verdict
    ensures { result ≡ verdict_in (command_rows facts.now) }
{
    let Some(facts) = facts else {
        return Verdict::Deny(Rule::NoCommand);
    };
    match facts.access {
        CommandAccess::Pair {
            opener,
            is_sent: false,
        } => Verdict::Deny(password_rule(opener)),
        CommandAccess::Everybody | CommandAccess::Pair { is_sent: true, .. } => {
            judge_needs(&facts.needs)
        }
    }
}

/// The rule that denies a command to whoever sends none of the pairs that open it.
fn password_rule(opener: Opener) -> Rule
    ensures { result ≡ password_rule opener }
{
    match opener {
        Opener::Admin => Rule::AdminPassword,
        Opener::Source => Rule::SourcePassword,
        Opener::Relay => Rule::RelayPassword,
    }
}

fn judge_needs(needs: &CommandNeeds) -> Verdict
    ensures { result ≡ verdict_in (needs_rows needs.now) }
{
    match needs {
        CommandNeeds::Argument => Verdict::Deny(Rule::MissingArgument),
        CommandNeeds::Nothing => Verdict::Allow,
        CommandNeeds::Mount { is_live } => judge_mount(*is_live),
        CommandNeeds::Destination(facts) => judge_destination(facts),
        CommandNeeds::Client {
            mount_is_live,
            sits_there,
        } => judge_client(*mount_is_live, *sits_there),
        CommandNeeds::Users { has_users } => judge_users(*has_users),
        CommandNeeds::User {
            has_users,
            is_listed,
        } => judge_user(*has_users, *is_listed),
    }
}

fn judge_mount(is_live: bool) -> Verdict
    ensures { result ≡ verdict_in (needs_rows (CommandNeeds.Mount is_live)) }
{
    if is_live {
        Verdict::Allow
    } else {
        Verdict::Deny(Rule::NoMount)
    }
}

fn judge_client(mount_is_live: bool, sits_there: bool) -> Verdict
    ensures { result ≡ verdict_in (needs_rows (CommandNeeds.Client mount_is_live sits_there)) }
{
    if !mount_is_live {
        Verdict::Deny(Rule::NoMount)
    } else if !sits_there {
        Verdict::Deny(Rule::NoClient)
    } else {
        Verdict::Allow
    }
}

fn judge_users(has_users: bool) -> Verdict
    ensures { result ≡ verdict_in (needs_rows (CommandNeeds.Users has_users)) }
{
    if has_users {
        Verdict::Allow
    } else {
        Verdict::Deny(Rule::NoUsers)
    }
}

fn judge_user(has_users: bool, is_listed: bool) -> Verdict
    ensures { result ≡ verdict_in (needs_rows (CommandNeeds.User has_users is_listed)) }
{
    if !has_users {
        Verdict::Deny(Rule::NoUsers)
    } else if !is_listed {
        Verdict::Deny(Rule::NoUser)
    } else {
        Verdict::Allow
    }
}

fn judge_destination(facts: &DestinationFacts) -> Verdict
    ensures { result ≡ verdict_in (needs_rows (CommandNeeds.Destination facts.now)) }
{
    if !facts.mount_is_live {
        Verdict::Deny(Rule::NoMount)
    } else if !facts.destination_is_live {
        Verdict::Deny(Rule::NoDestination)
    } else if facts.is_same_mount {
        Verdict::Deny(Rule::SameMount)
    } else {
        Verdict::Allow
    }
}
