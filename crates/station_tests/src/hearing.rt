//! What the history says of each connection, next to what its line gave and took.

use crate::connections::{
    CONNECTIONS, Connections, Plan, SOURCES, Tape, behind, is_stranger, peer_of,
};
use radio_events::{Entry, Event, Reply};
use radio_locks::OutOfMemory;
use std::alloc::Global;
use std::sync::Wait;

/// How many listeners must get something, so that the test shows anything.
const LEAST_HEARING: usize = 3;

/// The answer to a client that asks for a mount that nobody feeds.
const ANSWER: &[u8] = b"denied: no-mount\n";

/// Returns whether what was done for each connection is as its line gave and took, and enough listeners have got something.
pub fn is_all_as_it_came<R: Wait>(
    rt: &R,
    alloc: Global,
    history: &[Entry],
    connections: &Connections,
) -> bool {
    let mut hearing = 0usize;
    'numbers: for number in 0..CONNECTIONS {
        match heard_by(rt, alloc, history, connections, number) {
            Ok(Some(heard)) => hearing = hearing.saturating_add((heard > 0) as usize),
            Ok(None) => return false,
            Err(_) => return false,
        }
    }
    hearing >= LEAST_HEARING
}

/// Returns how many bytes the connection of this number drew; `None` if what was done for it is not as its line gave and took.
/// `OutOfMemory` if memory was refused.
fn heard_by<R: Wait>(
    rt: &R,
    alloc: Global,
    history: &[Entry],
    connections: &Connections,
    number: usize,
) -> Result<Option<usize>, OutOfMemory> {
    let Some(id) = id_of(history, number) else {
        return Ok(None);
    };
    if !leaves_last(history, id) {
        return Ok(None);
    }
    let (Some(plan), Some(tape)) = (connections.plans.get(number), connections.tapes.get(number))
    else {
        return Ok(None);
    };
    let tape = tape.lock(rt);
    let tape = &*tape;
    if is_stranger(number) && body_of(tape.taken.as_slice()) != ANSWER {
        return Ok(None);
    }
    let delivered = delivered_by(alloc, history, id)?;
    let drawn = drawn_by(alloc, history, id)?;
    let source = delivered_to(alloc, history, number)?;
    let is_as_given = delivered.as_slice() == given_data(plan, tape);
    let is_slice = is_slice_of(drawn.as_slice(), source.as_slice());
    let is_as_taken = drawn.is_empty() || drawn.starts_with(body_of(tape.taken.as_slice()));
    Ok((is_as_given && is_slice && is_as_taken).then_some(drawn.len()))
}

/// Returns the number that the client of this connection was given.
fn id_of(history: &[Entry], number: usize) -> Option<u64> {
    let peer = peer_of(number);
    for entry in history {
        if let (Event::Arrive { peer: other }, Reply::Arrived(id)) = (&entry.event, &entry.reply) {
            if *other == peer {
                return Some(*id);
            }
        }
    }
    None
}

/// Returns whether the client leaves, and nothing is applied for it after that.
fn leaves_last(history: &[Entry], id: u64) -> bool {
    let mut has_left = false;
    for entry in history {
        if is_of(&entry.event, id) {
            if has_left {
                return false;
            }
            has_left = matches!(entry.event, Event::Leave { .. });
        }
    }
    has_left
}

/// Returns whether the event is one of this client, after its arrival.
fn is_of(event: &Event, id: u64) -> bool {
    match event {
        Event::Source(asked) => asked.id == id,
        Event::Listen(asked) => asked.id == id,
        Event::Command(asked) => asked.id == id,
        Event::Push { id: other, .. }
        | Event::SourceEnd { id: other }
        | Event::Title { id: other, .. }
        | Event::Draw { id: other, .. }
        | Event::Leave { id: other } => *other == id,
        Event::Arrive { .. }
        | Event::RelayUp { .. }
        | Event::RelayDown { .. }
        | Event::Clock { .. } => false,
    }
}

/// Returns the data that the line of a source gave behind its head.
fn given_data<'a>(plan: &'a Plan, tape: &Tape) -> &'a [u8] {
    let gives = plan.gives.as_slice();
    let end = tape.given.min(gives.len());
    &gives[plan.head.min(end)..end]
}

/// Returns what a line took behind the head of the answer; nothing if that has no end.
fn body_of(taken: &[u8]) -> &[u8] {
    let end = b"\r\n\r\n".as_slice();
    'places: for at in 0..taken.len() {
        if behind(taken, at).starts_with(end) {
            return behind(taken, at.saturating_add(end.len()));
        }
    }
    behind(taken, taken.len())
}

/// Returns whether the one is a slice of the other.
fn is_slice_of(part: &[u8], whole: &[u8]) -> bool {
    'starts: for start in 0..whole.len().saturating_add(1) {
        if behind(whole, start).starts_with(part) {
            return true;
        }
    }
    false
}

/// Returns the data of all blocks that the client delivered. `OutOfMemory` if memory was refused.
fn delivered_by(alloc: Global, history: &[Entry], id: u64) -> Result<Vec<u8>, OutOfMemory> {
    let mut data = Vec::new(alloc);
    for entry in history {
        if let Event::Push { id: other, block } = &entry.event {
            if *other == id && matches!(entry.reply, Reply::Noted) {
                data.extend_from_slice(block.as_bytes())?;
            }
        }
    }
    Ok(data)
}

/// Returns the data of all draws of the client. `OutOfMemory` if memory was refused.
fn drawn_by(alloc: Global, history: &[Entry], id: u64) -> Result<Vec<u8>, OutOfMemory> {
    let mut data = Vec::new(alloc);
    for entry in history {
        if let (Event::Draw { id: other, .. }, Reply::Drawn { pieces, .. }) = (
            &entry.event,
            &entry.reply,
        ) {
            if *other == id {
                pieces.write_to(&mut data)?;
            }
        }
    }
    Ok(data)
}

/// Returns what the source of this connection's mount delivered. `OutOfMemory` if memory was refused.
fn delivered_to(alloc: Global, history: &[Entry], number: usize) -> Result<Vec<u8>, OutOfMemory> {
    match id_of(history, number % SOURCES) {
        Some(id) => delivered_by(alloc, history, id),
        None => Ok(Vec::new(alloc)),
    }
}
