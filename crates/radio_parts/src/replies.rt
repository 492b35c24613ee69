//! Equal replies, for callers that record them.

ghost use Rattle.std.specs.Prelude.{◌≡◌, ◌∷◌, [], IsOk, IfOk};
ghost use Rattle.radio_events.specs.Replies.{HoldsNoText};

use crate::OutOfMemory;
use radio_events::Reply;

/// A reply three times. `OutOfMemory` if memory was refused.
pub(crate) fn thrice(reply: Reply) -> Result<[Reply; 3], OutOfMemory>
    ensures value { IfOk result (λ replies. replies ≡ reply ∷ reply ∷ reply ∷ []) }
    ensures frees { HoldsNoText reply → IsOk result }
{
    match again_twice(&reply) {
        Ok((second, third)) => Ok([reply, second, third]),
        Err(refused) => {
            drop(reply);
            Err(refused)
        }
    }
}

/// Two equal replies. `OutOfMemory` if memory was refused.
fn again_twice(reply: &Reply) -> Result<(Reply, Reply), OutOfMemory>
    ensures value { IfOk result (λ replies. (replies.0 ≡ reply.now) × (replies.1 ≡ reply.now)) }
    ensures frees { HoldsNoText reply.now → IsOk result }
{
    let second = reply.again()?;
    match reply.again() {
        Ok(third) => Ok((second, third)),
        Err(refused) => {
            drop(second);
            Err(refused)
        }
    }
}
