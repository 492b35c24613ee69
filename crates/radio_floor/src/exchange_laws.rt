//! Laws on exchanges with a core, which run no code.

ghost use Rattle.radio_floor.specs.ExchangeLaws.{CoresExchangeAsTheirStates, CoresGoByData, ExchangesTellReplies};

use radio_core::{cores_go_by_their_states, sources_are_told_by_their_data};

/// A connection's events have the same result over a core as from any state that the core
/// represents.
pub fn cores_exchange_as_their_states()
    ensures { CoresExchangeAsTheirStates }
{}

/// A core's replies depend on a source's data, and not on how they are cut into blocks.
// rule: Cuts do not matter
pub fn cores_go_by_data()
    ensures { CoresGoByData }
{
    cores_go_by_their_states();
    sources_are_told_by_their_data();
}

/// The bytes that are written for events of the server are those of their replies.
pub fn exchanges_tell_replies()
    ensures { ExchangesTellReplies }
{}
