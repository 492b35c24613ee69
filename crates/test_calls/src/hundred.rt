//! A caller that feeds a mount and listens to it: 100 calls. Read [`serve`] first.

use crate::callee::Callee;
use crate::events::{
    arrival, command_event, killing, listen_event, push_event, source_event, title_event,
};
use radio_events::{Asked, Event, Listing, OutOfMemory};
use std::alloc::Global;

/// How many calls a caller makes. Four clients arrive, and a source and a listener of them say what
/// they want. Then titles are set, and blocks are delivered and drawn. The third client finishes the
/// listener by a command, and the fourth is shown the status. Last the listener and the source leave.
pub const CALLS: usize = 100;

/// How many of them are draws, each of which gets data and a title.
pub const DRAWS: usize = 44;

/// What is delivered each time, and drawn.
pub const DATA: &[u8] = b"abcd";

/// What it does once its source and its listener have arrived.
#[derive(Clone, Copy)]
enum Call {
    Source,
    Listen,
    Title(&'static [u8]),
    Push,
    Draw,
    Kill,
    Status,
    ListenerLeaves,
    SourceLeaves,
}

/// Calls that are made one after the other, so many times.
struct Rounds {
    count: u32,
    calls: &'static [Call],
}

/// They say what they want, titles are set, blocks are delivered and drawn after each, and they leave.
const ALL_ROUNDS: &[Rounds] = &[
    Rounds {
        count: 1,
        calls: &[Call::Source, Call::Listen, Call::Title(b"Evening")],
    },
    Rounds {
        count: 23,
        calls: &[Call::Push, Call::Draw],
    },
    Rounds {
        count: 1,
        calls: &[Call::Title(b"Night")],
    },
    Rounds {
        count: 21,
        calls: &[Call::Push, Call::Draw],
    },
    Rounds {
        count: 1,
        calls: &[
            Call::Kill,
            Call::Status,
            Call::ListenerLeaves,
            Call::SourceLeaves,
        ],
    },
];

/// The caller's mount, and the numbers of the four.
#[derive(Clone, Copy)]
struct Four<'a> {
    path: &'a str,
    source: u64,
    listener: u64,
    admin: u64,
    viewer: u64,
}

/// Makes the 100 calls at the mount of this path. Returns whether each was replied to.
pub fn serve<C: Callee>(alloc: Global, callee: &mut C, path: &str) -> bool {
    match arriving(callee, path) {
        Some(four) => serve_four(alloc, callee, four),
        None => false,
    }
}

/// Four arrive; `None` if memory was refused.
fn arriving<'a, C: Callee>(callee: &mut C, path: &'a str) -> Option<Four<'a>> {
    let source = callee.call(arrival())?;
    let listener = callee.call(arrival())?;
    let admin = callee.call(arrival())?;
    let viewer = callee.call(arrival())?;
    Some(Four {
        path,
        source,
        listener,
        admin,
        viewer,
    })
}

fn serve_four<C: Callee>(alloc: Global, callee: &mut C, four: Four) -> bool {
    for rounds in ALL_ROUNDS {
        if !serve_rounds(alloc, callee, four, rounds) {
            return false;
        }
    }
    true
}

fn serve_rounds<C: Callee>(alloc: Global, callee: &mut C, four: Four, rounds: &Rounds) -> bool {
    for _ in 0..rounds.count {
        if !serve_round(alloc, callee, four, rounds.calls) {
            return false;
        }
    }
    true
}

fn serve_round<C: Callee>(alloc: Global, callee: &mut C, four: Four, calls: &[Call]) -> bool {
    for call in calls {
        if !serve_call(alloc, callee, four, *call) {
            return false;
        }
    }
    true
}

fn serve_call<C: Callee>(alloc: Global, callee: &mut C, four: Four, call: Call) -> bool {
    match event_of(alloc, four, call) {
        Ok(event) => callee.call(event).is_some(),
        Err(_) => false,
    }
}

fn event_of(alloc: Global, four: Four, call: Call) -> Result<Event, OutOfMemory> {
    match call {
        Call::Source => source_event(alloc, four.source, four.path),
        Call::Listen => listen_event(alloc, four.listener, four.path),
        Call::Title(title) => title_event(alloc, four.source, title),
        Call::Push => push_event(alloc, four.source, DATA),
        Call::Draw => Ok(Event::Draw {
            id: four.listener,
            room: 4,
        }),
        Call::Kill => command_event(alloc, four.admin, killing(four.path, four.listener)),
        Call::Status => command_event(alloc, four.viewer, Asked::Listing(Listing::Status)),
        Call::ListenerLeaves => Ok(Event::Leave { id: four.listener }),
        Call::SourceLeaves => Ok(Event::Leave { id: four.source }),
    }
}
