//! Applies a listener's draw to the core, and writes the reply.

ghost use Rattle.std.specs.Prelude.{◌≡◌, false, [], ◌∷◌, ◌++◌, IfOk};
ghost use Rattle.radio_events.specs.declared.event.Event.{Event as EventOf};
ghost use Rattle.radio_events.specs.declared.reply.Reply.{Reply as ReplyOf};
ghost use Rattle.radio_core.specs.Represents.{core_steps};
ghost use Rattle.radio_session.specs.Saying.{said};
ghost use Rattle.radio_session.specs.Exchanges.{Exchange, Exchanges, LeavesAfter};
ghost use Rattle.radio_session.specs.Conversation.{saying_now};

use crate::OutOfMemory;
use radio_core::Core;
use radio_events::{Event, Server};
use radio_session::{Session, State};

/// Applies a draw of the connection's client, which has room for so many bytes, and appends the bytes of the reply to
/// `out`. If the connection ends, the client leaves. Returns whether the connection goes on.
///
/// This is what [`exchange`](radio_session::exchange) does for a list of this event. `OutOfMemory` if memory was
/// refused.
pub(crate) fn exchange_draw(
    core: &mut Core,
    session: &mut Session,
    room: u32,
    out: &mut Vec<u8>,
) -> Result<State, OutOfMemory>
    ensures { IfOk result (λ state. (x : Exchange)
        × Exchanges core_steps session.old.id session.old.says (EventOf.Draw session.old.id room ∷ []) core.old x core.new
        × (out.new.items ≡ out.old.items ++ x.bytes) × (state ≡ x.state) × (session.new ≡ saying_now session.old x.says)) }
{
    match answer_draw(core, session, room, out)? {
        State::Running => Ok(State::Running),
        State::Shut(ending) => {
            leave(core, session.id())?;
            Ok(State::Shut(ending))
        }
    }
}

/// Applies the draw, and appends the bytes of the reply. Returns whether the connection goes on.
fn answer_draw(
    core: &mut Core,
    session: &mut Session,
    room: u32,
    out: &mut Vec<u8>,
) -> Result<State, OutOfMemory>
    ensures { IfOk result (λ state. (reply : ReplyOf) × core_steps core.old (EventOf.Draw session.old.id room) reply core.new
        × (let written = said session.old.says reply in
        (out.new.items ≡ out.old.items ++ written.bytes) × (state ≡ written.state) × (session.new ≡ saying_now session.old written.says))) }
{
    let reply = core.draw(session.id(), room)?;
    session.give(reply, out)
}

/// Applies `Leave` for the client, whose draw ended the connection.
#[cold]
fn leave(core: &mut Core, id: u64) -> Result<(), OutOfMemory>
    ensures { IfOk result (λ _. LeavesAfter core_steps id false core.old core.new) }
{
    drop(core.apply(Event::Leave { id })?);
    Ok(())
}
