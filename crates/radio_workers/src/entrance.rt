//! The entrance from which connections are accepted.

ghost use Rattle.std.specs.Prelude.{◌≡◌, nat_le};
ghost use Rattle.radio_workers.specs.Entrances.{IsTried, answer_of, settled};

use crate::accepts::{AcceptTry, Accepts};

/// What came of a try to accept.
#[derive(Drop)]
pub enum AcceptResult<T: Drop> {
    /// A connection.
    One(T),
    /// None waits.
    Nothing,
    /// One could not be accepted.
    Failed,
    /// One waits, and no descriptor is left for it.
    NoDescriptor,
}

/// Accepts connections.
pub trait Entrance<T: Drop> {
    ghost use Rattle.radio_workers.specs.declared.entrance.AcceptResult.{AcceptResult};

    // a try may have this result
    ghost accepts: { Self → AcceptResult T → Self → Type 0 };

    /// Tries to accept the next one.
    fn accept(&mut self) -> AcceptResult<T>
        ensures { accepts self.old result self.new };
}

/// A hundred connections in a row could not be accepted.
#[derive(Clone, Copy)]
pub struct AcceptFault;

/// Returns the next connection at this moment, in milliseconds, if there is one and it may be tried: after a failure nothing
/// is tried for a tenth of a second. The hundredth failure in a row is the fault.
// rule: Failed accepts
pub fn accept_next<T: Drop, E: Entrance<T>>(
    entrance: &mut E,
    accepts: &mut Accepts,
    ms: u64,
) -> Result<Option<T>, AcceptFault>
    ensures { IsTried E.accepts (nat_le accepts.old.not_before ms) ms entrance.old accepts.old result entrance.new accepts.new }
{
    if !accepts.may_try(ms) {
        return Ok(None);
    }
    let accepted = entrance.accept();
    settle(accepted, accepts, ms)
}

/// Notes the result of a try at this moment, in milliseconds. Returns the connection, if there is one.
fn settle<T: Drop>(
    accepted: AcceptResult<T>,
    accepts: &mut Accepts,
    ms: u64,
) -> Result<Option<T>, AcceptFault>
    ensures accepts { accepts.new ≡ settled ms accepted accepts.old }
    ensures result { result ≡ answer_of accepted accepts.new }
{
    match accepted {
        AcceptResult::One(one) => {
            accepts.note(AcceptTry::Accepted, ms);
            Ok(Some(one))
        }
        AcceptResult::Nothing => Ok(None),
        AcceptResult::NoDescriptor => {
            accepts.note(AcceptTry::NoDescriptor, ms);
            Ok(None)
        }
        AcceptResult::Failed => {
            if accepts.note(AcceptTry::Failed, ms) {
                Ok(None)
            } else {
                Err(AcceptFault)
            }
        }
    }
}
