//! Laws of what a worker's turn source and the acceptor decide. Each is a function that does nothing, and its contract is the law.

ghost use Rattle.radio_sockets.specs.Laws.{AcceptorsLook, NewcomersAreTakenIn, NewcomersAreToDo, PromptWorkersTakeAll, SourcesCountAsFive, TurnsAreDue, TwoFaultsWantOne};

/// A newcomer waits for one turn at most, and wakes the worker that is to take it. A source counts as five newcomers.
// rule: Newcomers
pub fn newcomers_are_taken_in()
    ensures taken { NewcomersAreTakenIn }
    // and for none if its worker made one just now
    ensures prompt { PromptWorkersTakeAll }
    ensures wakes { NewcomersAreToDo }
    ensures weight { SourcesCountAsFive }
{}

/// A worker makes a turn twice a second at least.
// rule: Server time
pub fn turns_are_due()
    ensures { TurnsAreDue }
{}

/// The acceptor looks once a second at least. It knows when a descriptor is wanted.
// rule: Failed accepts
pub fn acceptors_look()
    ensures look { AcceptorsLook }
    ensures wanted { TwoFaultsWantOne }
{}
