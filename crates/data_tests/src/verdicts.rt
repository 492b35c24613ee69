//! What the policy says where no run of the server gets to: numbers are never spent in one.

use radio_policy::{Action, ArriveFacts, PushFacts, RelayFacts, Rule, Verdict, judge};

/// A connection that the lists let in, where there is room for it.
fn arrival(number_is_spent: bool) -> Action {
    Action::Arrive(ArriveFacts {
        address_is_denied: false,
        address_is_allowed: true,
        clients_are_full: false,
        number_is_spent,
    })
}

/// A relay whose mount is free.
fn relay(number_is_spent: bool) -> Action {
    Action::RelayUp(Some(RelayFacts {
        sources_are_full: false,
        mount_is_live: false,
        type_is_refused: false,
        number_is_spent,
    }))
}

// rule: Numbers spent
#[test]
fn numbers_that_are_spent(rt: HostRuntime) {
    let spent = Verdict::Deny(Rule::NumbersSpent);
    assert!(rt; judge(&arrival(true)) == spent);
    assert!(rt; judge(&arrival(false)) == Verdict::Allow);
    assert!(rt; judge(&relay(true)) == spent);
    assert!(rt; judge(&relay(false)) == Verdict::Allow);
    let block = PushFacts {
        number_is_spent: true,
    };
    assert!(rt; judge(&Action::Push(block)) == spent);
}
