//! What a mount's part does by itself, with its reply twice: for the caller, and for its pass.

ghost use Rattle.std.specs.Prelude.{◌≡◌, false, find, IfOk, IsOk, OnOk, OnErr};
ghost use Rattle.radio_attachments.specs.Rows.{is_attached};
ghost use Rattle.radio_events.specs.Replies.{HoldsNoText};
ghost use Rattle.radio_parts_mount.specs.Attached.{place_in};
ghost use Rattle.radio_parts_mount.specs.Steps.{part_after, part_answers, CanDraw};
ghost use Rattle.radio_chronicle.specs.declared.own_steps.Twice.TheVariants.{Replied as RepliedTwice};
ghost use Rattle.radio_chronicle.specs.OwnSteps.{answered_here, drawer_at, drawer_in, is_part_event, once, part_here, set_back_in, CanDrawHere, IsAlike, IsKeptUnlessReplied, IsNoPartsOwn};

use crate::OutOfMemory;
use radio_events::{Event, Reply};
use radio_parts_mount::{ListedPart, PartAnswer};
use std::alloc::Global;

/// What a part does with an event.
#[derive(Drop)]
pub enum Twice {
    /// It has replied, and this is the reply twice.
    Replied(Reply, Reply),
    /// The client is not attached to the mount; nothing has changed.
    Elsewhere(Event),
}

/// A listener that draws.
#[derive(Clone, Copy)]
pub struct Drawer {
    /// Its number.
    id: u64,
    /// The place up to which it has heard the stream before, in bytes.
    place: u64,
}

/// Returns whether the event is a block, a title or a draw. A part replies to no other event.
pub fn is_own(event: &Event) -> bool
    ensures value { result ≡ is_part_event event.now }
    ensures others { result ≡ false → IsNoPartsOwn event.now }
{
    match event {
        Event::Push { .. } | Event::Title { .. } | Event::Draw { .. } => true,
        Event::Arrive { .. }
        | Event::Source(_)
        | Event::SourceEnd { .. }
        | Event::Listen(_)
        | Event::Command(_)
        | Event::Leave { .. }
        | Event::RelayUp { .. }
        | Event::RelayDown { .. }
        | Event::Clock { .. } => false,
    }
}

/// Does what the event does, as [`ListedPart::step`], if the part is here. `OutOfMemory` if memory was refused; the part is
/// unchanged then.
pub fn step_here(
    alloc: Global,
    part: &mut Option<ListedPart>,
    moment: u64,
    queue: u64,
    event: Event,
) -> Result<PartAnswer, OutOfMemory>
    ensures answer { CanDrawHere part.old event → IfOk result (λ answer. answer ≡ answered_here part.old event) }
    ensures ok { CanDrawHere part.old event → OnOk result (part.new ≡ part_here queue moment part.old event) }
    ensures elsewhere { CanDrawHere part.old event → IfOk result (λ answer. IsKeptUnlessReplied answer part.old part.new) }
    ensures err { OnErr result (part.new ≡ part.old) }
{
    match part {
        Some(part) => part.step(alloc, moment, queue, event),
        None => Ok(PartAnswer::Elsewhere(event)),
    }
}

/// The same, with the reply twice. `OutOfMemory` if memory was refused; the part is unchanged then, but its list may be given up.
pub fn step_twice_here(
    alloc: Global,
    part: &mut Option<ListedPart>,
    moment: u64,
    queue: u64,
    event: Event,
) -> Result<Twice, OutOfMemory>
    ensures answer { CanDrawHere part.old event → IfOk result (λ twice. once twice ≡ answered_here part.old event) }
    ensures alike { IfOk result (λ twice. IsAlike twice) }
    ensures ok { CanDrawHere part.old event → OnOk result (part.new ≡ part_here queue moment part.old event) }
    ensures elsewhere { CanDrawHere part.old event → IfOk result (λ twice. IsKeptUnlessReplied (once twice) part.old part.new) }
    ensures err { CanDrawHere part.old event → OnErr result (part.new ≡ part.old) }
{
    match part {
        Some(part) => step_twice(alloc, part, moment, queue, event),
        None => Ok(Twice::Elsewhere(event)),
    }
}

/// Returns how many items the part's list has; 0 if the part is not here.
pub fn items_here(part: &Option<ListedPart>) -> u64 {
    match part {
        Some(part) => part.item_count(),
        None => 0,
    }
}

/// Does what the event does, as [`ListedPart::step`], with the reply twice.
fn step_twice(
    alloc: Global,
    part: &mut ListedPart,
    moment: u64,
    queue: u64,
    event: Event,
) -> Result<Twice, OutOfMemory>
    ensures answer { CanDraw part.old event → IfOk result (λ twice. once twice ≡ part_answers part.old event) }
    ensures alike { IfOk result (λ twice. IsAlike twice) }
    ensures ok { CanDraw part.old event → OnOk result (part.new ≡ part_after queue moment part.old event) }
    ensures err { CanDraw part.old event → OnErr result (part.new ≡ part.old) }
{
    let drawer = drawer_in(part, &event);
    match part.step(alloc, moment, queue, event)? {
        PartAnswer::Replied(reply) => twice_or_set_back(part, drawer, reply),
        PartAnswer::Elsewhere(event) => Ok(Twice::Elsewhere(event)),
    }
}

/// Returns the reply twice. If memory is refused for that, whoever has drawn is set back.
// rule: Receipts
fn twice_or_set_back(
    part: &mut ListedPart,
    drawer: Option<Drawer>,
    reply: Reply,
) -> Result<Twice, OutOfMemory>
    ensures twice { IfOk result (λ twice. twice ≡ RepliedTwice reply reply) }
    ensures ok { OnOk result (part.new ≡ part.old) }
    ensures err { OnErr result (part.new ≡ set_back_in drawer part.old) }
    ensures frees { HoldsNoText reply → IsOk result }
{
    match reply.again() {
        Ok(again) => Ok(Twice::Replied(again, reply)),
        Err(refused) => {
            drop(reply);
            set_back(part, drawer);
            Err(refused)
        }
    }
}

/// Sets the place of the listener, if there is one.
fn set_back(part: &mut ListedPart, drawer: Option<Drawer>)
    ensures { part.new ≡ set_back_in drawer part.old }
{
    if let Some(drawer) = drawer {
        part.set_place(drawer.id, drawer.place);
    }
}

/// Returns who draws by the event, if it is attached to the part.
fn drawer_in(part: &ListedPart, event: &Event) -> Option<Drawer>
    ensures { result ≡ drawer_in part.now event.now }
{
    match event {
        Event::Draw { id, .. } => drawer_at(part, *id),
        Event::Arrive { .. }
        | Event::Source(_)
        | Event::Push { .. }
        | Event::SourceEnd { .. }
        | Event::Title { .. }
        | Event::Listen(_)
        | Event::Command(_)
        | Event::Leave { .. }
        | Event::RelayUp { .. }
        | Event::RelayDown { .. }
        | Event::Clock { .. } => None,
    }
}

/// Returns the listener of this number, if it is attached to the part.
fn drawer_at(part: &ListedPart, id: u64) -> Option<Drawer>
    ensures { result ≡ drawer_at id (place_in (find (is_attached id) part.now.attachments)) }
{
    match part.place(id) {
        Some(place) => Some(Drawer { id, place }),
        None => None,
    }
}
