//! What an attached client and the mount's source do with the mount's part, by that part alone.

ghost use Rattle.std.specs.Prelude.{◌≡◌, IfOk, IsTrue, OnOk, OnErr};
ghost use Rattle.radio_parts_mount.specs.Steps.{is_fed_by, is_spent_with, part_answers, part_after, push_answered, push_done, title_answered, title_done, draw_answered, draw_done, with_all, CanDraw, KeepsFor};

use crate::OutOfMemory;
use crate::part::MountPart;
use radio_attachments::AttachmentTree;
use radio_blocks::{Block, Place};
use radio_events::{Event, Reply};
use radio_policy::Rule;
use radio_values::Title;
use std::alloc::Global;

/// What a part answers to an event.
#[derive(Drop)]
pub enum PartAnswer {
    /// The part alone decides the reply.
    Replied(Reply),
    /// The event is not of a client that is attached here, nor of the source that feeds the mount;
    /// nothing has changed.
    Elsewhere(Event),
}

impl MountPart {
    /// Does what the event does if it is a draw of a listener that is attached here, or a block or a
    /// title of the source that feeds the mount. Blocks come at this moment, in milliseconds; of the
    /// stream the last blocks are kept that have `queue` bytes, and listeners that are further behind
    /// lag out. `OutOfMemory` if memory was refused; nothing has changed then.
    // rule: Reach of a block
    pub fn step(
        &mut self,
        alloc: Global,
        moment: u64,
        queue: u64,
        event: Event,
    ) -> Result<PartAnswer, OutOfMemory>
        // what follows the place of one who draws is not forgotten
        ensures answer { CanDraw self.old event → IfOk result (λ answer. answer ≡ part_answers self.old event) }
        ensures ok { CanDraw self.old event → OnOk result (self.new ≡ part_after queue moment self.old event) }
        ensures err { OnErr result (self.new ≡ self.old) }
    {
        match event {
            Event::Push { id, block } => self.step_push(id, block, moment, queue),
            Event::Title { id, text } => Ok(self.step_title(id, text)),
            Event::Draw { id, room } => self.step_draw(alloc, id, room),
            other @ (Event::Arrive { .. }
            | Event::Source(_)
            | Event::SourceEnd { .. }
            | Event::Listen(_)
            | Event::Command(_)
            | Event::Leave { .. }
            | Event::RelayUp { .. }
            | Event::RelayDown { .. }
            | Event::Clock { .. }) => Ok(PartAnswer::Elsewhere(other)),
        }
    }

    /// Adds a block of the mount's source to the stream, and lets those lag out who are then too far
    /// behind.
    fn step_push(
        &mut self,
        id: u64,
        block: Block,
        moment: u64,
        queue: u64,
    ) -> Result<PartAnswer, OutOfMemory>
        ensures answer { IfOk result (λ answer. answer ≡ push_answered self.old id block) }
        ensures ok { OnOk result (self.new ≡ push_done queue moment self.old id block) }
        ensures err { OnErr result (self.new ≡ self.old) }
    {
        if !self.is_fed_by(id) {
            return Ok(PartAnswer::Elsewhere(Event::Push { id, block }));
        }
        if self.is_spent_with(&block) {
            return Ok(PartAnswer::Replied(Reply::Deny(Rule::NumbersSpent)));
        }
        let end = self.receive(&block, moment, queue)?;
        let lagging = self.attachments.take_lagging(end, queue);
        self.add_lagged(lagging);
        Ok(PartAnswer::Replied(Reply::Noted))
    }

    /// Sets the title of what the mount's source feeds.
    fn step_title(&mut self, id: u64, text: Title) -> PartAnswer
        ensures answer { result ≡ title_answered self.old id text }
        ensures part { self.new ≡ title_done self.old id text }
    {
        match &mut self.session {
            Some(session) if session.number == id => {
                session.title = Some(text);
                PartAnswer::Replied(Reply::Noted)
            }
            Some(_) | None => PartAnswer::Elsewhere(Event::Title { id, text }),
        }
    }

    /// Draws for a listener that is attached here.
    fn step_draw(&mut self, alloc: Global, id: u64, room: u32) -> Result<PartAnswer, OutOfMemory>
        ensures answer { KeepsFor id self.old → IfOk result (λ answer. answer ≡ draw_answered self.old id room) }
        ensures ok { KeepsFor id self.old → OnOk result (self.new ≡ draw_done self.old id room) }
        ensures err { OnErr result (self.new ≡ self.old) }
    {
        match self.draw(alloc, id, room)? {
            Some(reply) => Ok(PartAnswer::Replied(reply)),
            None => Ok(PartAnswer::Elsewhere(Event::Draw { id, room })),
        }
    }

    /// Returns whether the event is no draw, or one of a listener of which no data was forgotten.
    pub(crate) fn can_draw(&self, event: &Event) -> bool
        ensures { IsTrue result → CanDraw self.now event.now }
    {
        match event {
            Event::Draw { id, .. } => self.keeps_for(*id),
            Event::Arrive { .. }
            | Event::Source(_)
            | Event::Push { .. }
            | Event::SourceEnd { .. }
            | Event::Title { .. }
            | Event::Listen(_)
            | Event::Command(_)
            | Event::Leave { .. }
            | Event::RelayUp { .. }
            | Event::RelayDown { .. }
            | Event::Clock { .. } => true,
        }
    }

    /// Returns whether what follows the listener's place is kept, if it is attached here.
    fn keeps_for(&self, id: u64) -> bool
        ensures { IsTrue result → KeepsFor id self.now }
    {
        let Some(row) = self.attachments.get(id) else {
            return true;
        };
        match &self.session {
            Some(session) => session.stream.first() <= Place::new(row.place),
            None => true,
        }
    }

    /// Returns whether the source of this number feeds the mount.
    fn is_fed_by(&self, id: u64) -> bool
        ensures { result ≡ is_fed_by id self.now }
    {
        match &self.session {
            Some(session) => session.number == id,
            None => false,
        }
    }

    /// Returns whether the mount's stream would have more bytes than can be counted with this block.
    fn is_spent_with(&self, block: &Block) -> bool
        ensures { result ≡ is_spent_with block.now self.now }
    {
        let end = match &self.session {
            Some(session) => session.stream.end(),
            None => 0,
        };
        end.checked_add(block.len() as u64).is_none()
    }

    /// Notes that these have lagged out. It takes no memory.
    fn add_lagged(&mut self, lagging: AttachmentTree)
        ensures { self.new ≡ record self.old { lagged = with_all lagging self.old.lagged } }
    {
        let mut lagging = lagging;
        'lagging: while let Some(boxed) = lagging.take_first() {
            self.lagged.put(boxed);
        }
    }
}
