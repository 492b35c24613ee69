//! What arrives on the pull of a relay, and the events that are applied for it.

ghost use Rattle.std.specs.Prelude.{◌≡◌, ◌≢◌, ◌⊎◌, IfOk, OnErr, OnOk};
ghost use Rattle.radio_relay.specs.declared.fault.PullFault.TheVariants.{OutOfMemory as NoMemory};
ghost use Rattle.radio_events.specs.declared.state.State.TheVariants.{Shut};
ghost use Rattle.radio_events.specs.declared.state.Ending.TheVariants.{BadPull};
ghost use Rattle.radio_events.specs.declared.event.Event.TheVariants.{RelayDown};
ghost use Rattle.radio_events.specs.declared.reply.Reply.{Reply as ReplyOf};
ghost use Rattle.radio_relay.specs.Pulling.{NumberedState};
ghost use Rattle.radio_relay.specs.Course.{Asks, AsksAtMost, AsksAtMostIf, AsksIf, BringsItems, BringsAtMost, GoesDown, RefusesDown, Takes, TakesAtMost};

use crate::relay_pull::RelayPull;
use crate::{OutOfMemory, PullFault, PullItem};
use radio_events::Event;
use radio_session::{Ending, Server, State};
use std::alloc::AllocError;

/// The next bytes of the master's answer come: what they bring is applied, one event after another.
/// It answers whether the pull goes on. A relay that is up, and whose pull is shut, goes down.
///
/// `OutOfMemory`: memory was refused, by the server or for what the bytes bring. The first of what they bring was applied, or nothing;
/// the pull is to be closed.
// rule: Head of a master
pub fn take<S: Server>(
    server: &mut S,
    relay: &mut RelayPull,
    bytes: &[u8],
) -> Result<State, OutOfMemory>
    ensures ok { IfOk result (λ state. Takes S.steps relay.old bytes.now server.old relay.new state server.new) }
    ensures err { OnErr result (TakesAtMost S.steps S.refuses relay.old bytes.now server.old relay.new.number server.new) }
{
    match relay.pull.feed(bytes) {
        Ok(items) => bring(server, relay, items),
        Err(fault) => give_up(server, relay, fault),
    }
}

/// The answer has this fault: the pull is shut. `OutOfMemory` if the fault is want of memory, or if memory was refused for the going
/// down of a relay that is up; nothing was applied then.
fn give_up<S: Server>(
    server: &mut S,
    relay: &RelayPull,
    fault: PullFault,
) -> Result<State, OutOfMemory>
    ensures err { OnErr result (server.new ≡ server.old) }
    ensures refused { OnErr result ((fault ≡ NoMemory) ⊎ RefusesDown S.refuses relay.now.number server.old) }
    ensures ok { IfOk result (λ state. (fault ≢ NoMemory) × GoesDown S.steps relay.now.number server.old server.new
        × (state ≡ Shut BadPull)) }
{
    match fault {
        PullFault::OutOfMemory => Err(AllocError),
        PullFault::Status(_) | PullFault::BadHead | PullFault::BadMetaint | PullFault::Failed => {
            close(server, relay)?;
            Ok(State::Shut(Ending::BadPull))
        }
    }
}

/// What the items ask for is applied, one after another, until the pull is shut. `OutOfMemory` if memory was refused for one of them:
/// what the items before it ask for was applied then.
fn bring<S: Server>(
    server: &mut S,
    relay: &mut RelayPull,
    items: Vec<PullItem>,
) -> Result<State, OutOfMemory>
    ensures err { OnErr result (BringsAtMost S.steps S.refuses relay.old.mount relay.old.number items.items server.old relay.new.number server.new) }
    ensures ok { IfOk result (λ state. (after : NumberedState)
        × BringsItems S.steps relay.old.mount relay.old.number items.items server.old after server.new
        × (state ≡ after.state) × (relay.new ≡ record relay.old { number = after.number })) }
{
    for item in items {
        let Some(event) = relay.event_for(item)? else {
            return Ok(State::Running);
        };
        if let State::Shut(ending) = ask_for(server, relay, event)? {
            return Ok(State::Shut(ending));
        }
    }
    Ok(State::Running)
}

/// An event of the relay is applied, if there is one. It answers whether the pull goes on. A relay
/// that is up, and whose pull is shut, goes down.
///
/// `OutOfMemory`: the server refused memory, for the event or for the relay's going down. For the event: nothing was applied. For the
/// going down: the event was applied, and its reply has shut the pull. The pull is to be closed.
// rule: Relay goes down
pub fn ask<S: Server>(
    server: &mut S,
    relay: &mut RelayPull,
    event: Option<Event>,
) -> Result<State, OutOfMemory>
    ensures err { OnErr result (AsksAtMostIf S.steps S.refuses relay.old.number event server.old relay.new.number server.new) }
    ensures ok { IfOk result (λ state. (after : NumberedState)
        × AsksIf S.steps relay.old.number event server.old after server.new
        × (state ≡ after.state) × (relay.new ≡ record relay.old { number = after.number })) }
{
    match event {
        Some(event) => ask_for(server, relay, event),
        None => Ok(State::Running),
    }
}

/// One event of the relay is applied. `OutOfMemory` if the server refused memory for that, or for the relay's going down after it.
fn ask_for<S: Server>(
    server: &mut S,
    relay: &mut RelayPull,
    event: Event,
) -> Result<State, OutOfMemory>
    ensures err { OnErr result (AsksAtMost S.steps S.refuses relay.old.number event server.old relay.new.number server.new) }
    ensures ok { IfOk result (λ state. (after : NumberedState)
        × Asks S.steps relay.old.number event server.old after server.new
        × (state ≡ after.state) × (relay.new ≡ record relay.old { number = after.number })) }
{
    let reply = server.apply(event)?;
    let state = relay.answer(&reply);
    drop(reply);
    if let State::Shut(_) = state {
        close(server, relay)?;
    }
    Ok(state)
}

/// The connection to the master is closed: the relay goes down, if it is up. `OutOfMemory` if memory was refused for that; nothing
/// was applied then.
// rule: Relay goes down
pub fn close<S: Server>(server: &mut S, relay: &RelayPull) -> Result<(), OutOfMemory>
    ensures down { OnOk result (GoesDown S.steps relay.now.number server.old server.new) }
    ensures err { OnErr result (server.new ≡ server.old) }
    ensures refused { OnErr result (RefusesDown S.refuses relay.now.number server.old) }
{
    match relay.number() {
        Some(id) => go_down(server, id),
        None => Ok(()),
    }
}

/// The relay of this number goes down. `OutOfMemory` if memory was refused for that; nothing was applied then.
fn go_down<S: Server>(server: &mut S, id: u64) -> Result<(), OutOfMemory>
    ensures down { OnOk result ((reply : ReplyOf) × S.steps server.old (RelayDown id) reply server.new) }
    ensures err { OnErr result (server.new ≡ server.old) }
    ensures refused { OnErr result (S.refuses server.old (RelayDown id)) }
{
    match server.apply(Event::RelayDown { id }) {
        Ok(reply) => {
            drop(reply);
            Ok(())
        }
        Err(refused) => Err(refused),
    }
}
