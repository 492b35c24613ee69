//! What a caller holds.

ghost use Rattle.std.specs.Prelude.{◌≡◌, ◌+◌, ◌≤◌, ◌<◌, ◌^◌, ◌∷◌, [], ◌++◌, ℕ, true, false, IsOk, IsSome, OnOk, vec_len, vec_capacity};
ghost use Rattle.radio_chronicle.specs.OwnSteps.{is_part_event};
ghost use Rattle.radio_book.specs.Newcomers.{present_by, present_of, is_arrival, leaver_of, newcomer_by, position_among, room_by, room_for};

use crate::newcomer::{Newcomer, leaver_of};
use crate::reserved_ends::ReservedEnds;
use crate::{OutOfMemory, Receipt};
use radio_events::{Event, Reply};
use std::alloc::Global;
use std::sync::ledger::{Ledger, Share};

/// The receipts of a caller's calls, and the clients and relays that these let in and have not ended. The book has
/// an entry reserved for the end of each of these, and there is room for its receipt.
#[derive(Drop)]
pub(crate) struct Holdings<L: Ledger> {
    pub(crate) receipts: Vec<Receipt>,
    pub(crate) present: Vec<Newcomer>,
    share: Share<L>,
    pub(crate) ghost here: { present.items ≡ present_of receipts.items },
    ghost reserved: { share.amount ≡ vec_len present },
    ghost some_part: { 0 < share.parts },
    ghost room: { vec_len receipts + vec_len present ≤ vec_capacity receipts },
}

impl<L: Ledger> Holdings<L> {
    /// Returns holdings without a receipt.
    pub(crate) fn new(alloc: Global, share: Share<L>) -> Holdings<L>
        requires part { 0 < share.parts }
        requires none { share.amount ≡ 0 }
        ensures { result.receipts.items ≡ [] }
    {
        Holdings {
            receipts: Vec::new(alloc),
            present: Vec::new(alloc),
            share,
        }
    }

    /// Returns for how many entries room must be found before the event.
    pub(crate) fn room_for(&self, event: &Event) -> usize
        ensures { result ≡ room_for self.now.present.items event.now }
    {
        match leaver_of(event) {
            Some(gone) => room_for_leaver(self.present.as_slice(), gone),
            None => room_for_others(event),
        }
    }

    /// Makes room for so many more receipts. `OutOfMemory` if memory was refused; the receipts are unchanged.
    pub(crate) fn reserve(&mut self, more: usize) -> Result<(), OutOfMemory>
        requires { more ≤ 2 }
        ensures ok { OnOk result (vec_len self.new.receipts + vec_len self.new.present + more ≤ vec_capacity self.new.receipts) }
        ensures present { OnOk result (1 < more → vec_len self.new.present < vec_capacity self.new.present) }
        ensures frees { more ≡ 0 → IsOk result }
        ensures same { (self.new.receipts.items ≡ self.old.receipts.items) × (self.new.present.items ≡ self.old.present.items) }
    {
        self.receipts.reserve(self.present.len() + more)?;
        if more > 1 {
            self.present.reserve(1)?;
        }
        Ok(())
    }

    /// Shows that no more is reserved for its caller than the book has reserved in all. It changes nothing.
    pub(crate) fn audit(&mut self, ends: &mut ReservedEnds<L>)
        ensures bound { vec_len self.old.present ≤ ends.old.reserved }
        ensures reserved { ends.new.reserved ≡ ends.old.reserved }
        ensures same { (self.new.receipts ≡ self.old.receipts) × (self.new.present ≡ self.old.present) }
    {
        ends.audit(&mut self.share);
    }

    /// Adds the receipt of a block, a title or a draw, for which there is room.
    pub(crate) fn note_own(&mut self, receipt: Receipt)
        requires own { is_part_event receipt.event ≡ true }
        requires room { vec_len self.old.receipts + vec_len self.old.present < vec_capacity self.old.receipts }
        ensures { self.new.receipts.items ≡ self.old.receipts.items ++ receipt ∷ [] }
    {
        self.receipts.push_reserved(receipt);
    }

    /// Adds the receipt of a call, for which there is room, and notes the client or relay that it let in or ended.
    pub(crate) fn note(&mut self, ends: &mut ReservedEnds<L>, receipt: Receipt)
        requires room { vec_len self.old.receipts + vec_len self.old.present + room_for self.old.present.items receipt.event ≤ vec_capacity self.old.receipts }
        requires present { is_arrival receipt.event ≡ true → vec_len self.old.present < vec_capacity self.old.present }
        requires fits { is_arrival receipt.event ≡ true → ends.old.reserved + 1 < 2 ^ 64 }
        ensures receipts { self.new.receipts.items ≡ self.old.receipts.items ++ receipt ∷ [] }
        ensures reserved { ends.new.reserved + vec_len self.old.present ≡ ends.old.reserved + vec_len self.new.present }
        ensures enough { ends.new.reserved + 1 ≤ ends.old.reserved + room_for self.old.present.items receipt.event }
    {
        let leaver = leaver_in(&receipt);
        let newcomer = newcomer_in(&receipt);
        let Holdings {
            receipts,
            present,
            share,
        } = self;
        come_and_go(ends, share, present, leaver, newcomer);
        receipts.push_reserved(receipt);
    }
}

/// Removes the client or relay that leaves, or adds the new one. The book has one reserved entry less then, or one more.
fn come_and_go<L: Ledger>(
    ends: &mut ReservedEnds<L>,
    share: &mut Share<L>,
    present: &mut Vec<Newcomer>,
    leaver: Option<Newcomer>,
    newcomer: Option<Newcomer>,
)
    requires part { 0 < share.old.parts }
    requires amount { share.old.amount ≡ vec_len present.old }
    requires room { IsSome newcomer → vec_len present.old < vec_capacity present.old }
    requires fits { IsSome newcomer → ends.old.reserved + 1 < 2 ^ 64 }
    ensures present { present.new.items ≡ present_by leaver newcomer present.old.items }
    ensures reserved { ends.new.reserved + vec_len present.old ≡ ends.old.reserved + vec_len present.new }
    ensures amount { share.new.amount ≡ vec_len present.new }
    ensures parts { share.new.parts ≡ share.old.parts }
{
    match (leaver, newcomer) {
        (Some(gone), _) => goes(ends, share, present, gone),
        (None, Some(newcomer)) => {
            ends.grow(share);
            present.push_reserved(newcomer);
        }
        (None, None) => (),
    }
}

/// Removes the client or relay that leaves, if it is present. The book has one reserved entry less then.
fn goes<L: Ledger>(
    ends: &mut ReservedEnds<L>,
    share: &mut Share<L>,
    present: &mut Vec<Newcomer>,
    gone: Newcomer,
)
    requires { share.old.amount ≡ vec_len present.old }
    ensures present { present.new.items ≡ present_by (Some gone) None present.old.items }
    ensures reserved { ends.new.reserved + vec_len present.old ≡ ends.old.reserved + vec_len present.new }
    ensures amount { share.new.amount ≡ vec_len present.new }
    ensures parts { share.new.parts ≡ share.old.parts }
{
    if let Some(i) = place_of(present.as_slice(), gone) {
        ends.shrink(share);
        present.remove(i);
    }
}

/// Returns its place among these.
fn place_of(present: &[Newcomer], one: Newcomer) -> Option<usize>
    ensures { result ≡ position_among one present.now }
{
    present.iter().position(|other| other.is(one))
}

/// Returns for how many entries room must be found before this one leaves: none if it is there, since its end has its room.
fn room_for_leaver(present: &[Newcomer], gone: Newcomer) -> usize
    ensures { result ≡ room_by (Some gone) false present.now }
{
    if place_of(present, gone).is_some() {
        0
    } else {
        1
    }
}

/// Returns for how many entries room must be found before an event that is nobody's end.
fn room_for_others(event: &Event) -> usize
    ensures { result ≡ room_by None (is_arrival event.now) [] }
{
    if is_arrival(event) { 2 } else { 1 }
}

/// Returns whether somebody comes: a connection, or a relay that comes up.
fn is_arrival(event: &Event) -> bool
    ensures { result ≡ is_arrival event.now }
{
    matches!(event, Event::Arrive { .. } | Event::RelayUp { .. })
}

/// Returns the client or relay that the receipt's call ended.
fn leaver_in(receipt: &Receipt) -> Option<Newcomer>
    ensures { result ≡ leaver_of receipt.now.event }
{
    leaver_of(receipt.event())
}

/// Returns the client or relay that the receipt's call let in.
fn newcomer_in(receipt: &Receipt) -> Option<Newcomer>
    ensures { result ≡ newcomer_by receipt.now.event receipt.now.reply }
{
    newcomer_by(receipt.event(), receipt.reply())
}

/// Returns the new client or relay, if the reply lets it in.
fn newcomer_by(event: &Event, reply: &Reply) -> Option<Newcomer>
    ensures { result ≡ newcomer_by event.now reply.now }
{
    let Reply::Arrived(id) = reply else {
        return None;
    };
    match event {
        Event::Arrive { .. } => Some(Newcomer::Client(*id)),
        Event::RelayUp { .. } => Some(Newcomer::Relay(*id)),
        Event::Source(_)
        | Event::Push { .. }
        | Event::SourceEnd { .. }
        | Event::Title { .. }
        | Event::Listen(_)
        | Event::Draw { .. }
        | Event::Command(_)
        | Event::Leave { .. }
        | Event::RelayDown { .. }
        | Event::Clock { .. } => None,
    }
}
