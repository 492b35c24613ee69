//! What the policy says of an action.

use radio_policy::{Action, ArriveFacts, Rule, Verdict, judge};

/// A connection of an address that may be denied, at a server that may be full.
fn arrival(address_is_denied: bool, clients_are_full: bool) -> Action {
    Action::Arrive(ArriveFacts {
        address_is_denied,
        address_is_allowed: true,
        clients_are_full,
        number_is_spent: false,
    })
}

#[test]
fn the_first_rule_denies(rt: HostRuntime) {
    let denied = Verdict::Deny(Rule::AddressDenied);
    assert!(rt; judge(&arrival(true, true)) == denied);
    assert!(rt; judge(&arrival(false, true)) == Verdict::Deny(Rule::TooManyClients));
    assert!(rt; judge(&arrival(false, false)) == Verdict::Allow);
}
