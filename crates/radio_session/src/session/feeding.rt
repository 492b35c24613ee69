//! Reads a source's body into events.

ghost use Rattle.std.specs.Prelude.{◌≡◌, ◌≢◌, ◌++◌, map, false, None, IfOk, OnOk};
ghost use Rattle.radio_events.specs.declared.event.Event.TheVariants.{Push};
ghost use Rattle.radio_blocks.specs.Cutting.{blocks_of};
ghost use Rattle.radio_source.specs.Place.{after, data_of, has_ended, fault_at};
ghost use Rattle.radio_source.specs.Feeding.{unfed};
ghost use Rattle.radio_session.specs.Hearing.{body_closes};
ghost use Rattle.radio_session.specs.declared.session.LastWord.TheVariants.{Faulty};
ghost use Rattle.radio_source.specs.declared.fault.BodyFault.TheVariants.{OutOfMemory as NoMemory};

use crate::OutOfMemory;
use crate::session::LastWord;
use radio_blocks::Block;
use radio_events::Event;
use radio_source::{Blocks, Body, BodyFault};
use std::alloc::{AllocError, Global};
use std::marker::Model;

/// A source's body in a box of its own, so that a connection without one is
/// small.
pub(crate) struct KeptBody {
    body: Box<Body>,
}

impl Drop for KeptBody {
    fn drop(self) {
        let KeptBody { body } = self;
        drop(body);
    }
}

impl Model for KeptBody {
    ghost use Rattle.radio_source.specs.Feeding.{Feeding};

    ghost Value = { Feeding };

    ghost view = { λ k. k.body.value };
}

impl KeptBody {
    /// Moves a body into a box. `OutOfMemory` if memory was refused.
    pub(super) fn new(alloc: Global, body: Body) -> Result<KeptBody, OutOfMemory>
        ensures { IfOk result (λ kept. kept ≡ body) }
    {
        Ok(KeptBody {
            body: Box::new(alloc, body)?,
        })
    }

    /// Feeds the body with the next bytes. Returns its data in blocks, and how it closes the connection,
    /// if it does. `OutOfMemory` if memory was refused.
    pub(super) fn read(
        &mut self,
        alloc: Global,
        bytes: &[u8],
    ) -> Result<(Vec<Block>, Option<LastWord>), OutOfMemory>
        requires { self.old ≡ unfed self.old.place }
        ensures blocks { IfOk result (λ found. found.0.items ≡ blocks_of (data_of self.old.place bytes.now)) }
        ensures word { IfOk result (λ found. found.1 ≡ body_closes (has_ended (after self.old.place bytes.now)) (fault_at (after self.old.place bytes.now))) }
        ensures body { IfOk result (λ found. found.1 ≡ None → self.new ≡ unfed (after self.old.place bytes.now)) }
    {
        read(alloc, &mut self.body, bytes)
    }
}

/// Feeds a body with the next bytes. Returns its data in blocks, and how it closes the connection,
/// if it does. `OutOfMemory` if memory was refused.
fn read(
    alloc: Global,
    body: &mut Body,
    bytes: &[u8],
) -> Result<(Vec<Block>, Option<LastWord>), OutOfMemory>
    requires { body.old ≡ unfed body.old.place }
    ensures blocks { IfOk result (λ found. found.0.items ≡ blocks_of (data_of body.old.place bytes.now)) }
    ensures word { IfOk result (λ found. found.1 ≡ body_closes (has_ended (after body.old.place bytes.now)) (fault_at (after body.old.place bytes.now))) }
    ensures body { IfOk result (λ found. found.1 ≡ None → body.new ≡ unfed (after body.old.place bytes.now)) }
{
    match body.feed(bytes) {
        Ok(
            Blocks {
                blocks,
                is_complete,
            },
        ) => {
            if is_complete {
                return Ok((blocks, Some(LastWord::Complete)));
            }
            let word = fault(body)?;
            Ok((blocks, word))
        }
        Err(body_fault) => {
            let word = faulty(body_fault)?;
            Ok((Vec::new(alloc), Some(word)))
        }
    }
}

/// Returns the last word of a body that has a fault after its data, if it has one. `OutOfMemory` if memory was
/// refused.
fn fault(body: &mut Body) -> Result<Option<LastWord>, OutOfMemory>
    requires open { body.old ≡ unfed body.old.place }
    requires unfinished { has_ended body.old.place ≡ false }
    ensures word { IfOk result (λ word. word ≡ body_closes false (fault_at body.old.place)) }
    ensures body { IfOk result (λ word. word ≡ None → body.new ≡ body.old) }
{
    let Err(body_fault) = body.feed(&[]) else {
        return Ok(None);
    };
    let word = faulty(body_fault)?;
    Ok(Some(word))
}

/// Returns the last word for a fault. `OutOfMemory` if the fault is that memory was refused.
fn faulty(fault: BodyFault) -> Result<LastWord, OutOfMemory>
    ensures word { IfOk result (λ word. word ≡ Faulty) }
    ensures memory { IfOk result (λ _. fault ≢ NoMemory) }
{
    match fault {
        BodyFault::OutOfMemory => Err(AllocError),
        BodyFault::BadChunk | BodyFault::PastEnd | BodyFault::Failed => Ok(LastWord::Faulty),
    }
}

/// Appends an event for each block of a source's data. `OutOfMemory` if memory was refused. Some
/// of the events may be in `events` then.
pub(super) fn push_blocks(
    id: u64,
    blocks: Vec<Block>,
    events: &mut Vec<Event>,
) -> Result<(), OutOfMemory>
    ensures { OnOk result (events.new.items ≡ events.old.items ++ map (Push id) blocks.items) }
{
    for block in blocks {
        events.push(Event::Push { id, block })?;
    }
    Ok(())
}
