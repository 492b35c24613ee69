//! Applies a connection's events to a server, and writes the replies.

ghost use Rattle.std.specs.Prelude.{◌≡◌, ◌++◌, IfOk};
ghost use Rattle.radio_events.specs.declared.reply.Reply.{Reply as ReplyOf};
ghost use Rattle.radio_session.specs.Saying.{said};
ghost use Rattle.radio_session.specs.Exchanges.{Exchange, Exchanges, LeavesAfter, is_leave};
ghost use Rattle.radio_session.specs.Conversation.{saying_now};

use crate::OutOfMemory;
use crate::session::Session;
use radio_events::{Event, Reply, Server, State};

/// Applies the events of the connection's client, one after another, and appends the bytes of each reply to `out`.
/// Once the connection ends, it applies `Leave` in place of the remaining events. Returns whether the connection goes
/// on. It applies no second `Leave` if the event that ended the connection was one.
///
/// `OutOfMemory` if memory was refused. The contract then says nothing of the server, and the caller shuts the
/// connection.
pub fn exchange<S: Server>(
    server: &mut S,
    session: &mut Session,
    events: Vec<Event>,
    out: &mut Vec<u8>,
) -> Result<State, OutOfMemory>
    ensures { IfOk result (λ state. (x : Exchange)
        × Exchanges S.steps session.old.id session.old.says events.items server.old x server.new
        × (out.new.items ≡ out.old.items ++ x.bytes) × (state ≡ x.state) × (session.new ≡ saying_now session.old x.says)) }
{
    for event in events {
        let leaves = is_leave(&event);
        if let State::Shut(ending) = answer(server, session, event, out)? {
            leave_after(server, session.id(), leaves)?;
            return Ok(State::Shut(ending));
        }
    }
    Ok(State::Running)
}

/// Applies one event of the connection's client, and appends the bytes of the reply. Returns whether
/// the connection goes on.
fn answer<S: Server>(
    server: &mut S,
    session: &mut Session,
    event: Event,
    out: &mut Vec<u8>,
) -> Result<State, OutOfMemory>
    ensures { IfOk result (λ state. (reply : ReplyOf) × S.steps server.old event reply server.new
        × (let written = said session.old.says reply in
        (out.new.items ≡ out.old.items ++ written.bytes) × (state ≡ written.state) × (session.new ≡ saying_now session.old written.says))) }
{
    let reply = server.apply(event)?;
    session.give(reply, out)
}

/// Applies `Leave` for the client, unless it has just left.
fn leave_after<S: Server>(server: &mut S, id: u64, has_left: bool) -> Result<(), OutOfMemory>
    ensures { IfOk result (λ _. LeavesAfter S.steps id has_left server.old server.new) }
{
    if !has_left {
        drop(server.apply(Event::Leave { id })?);
    }
    Ok(())
}

/// Returns whether the client leaves by this event.
fn is_leave(event: &Event) -> bool
    ensures { result ≡ is_leave event.now }
{
    matches!(event, Event::Leave { .. })
}
