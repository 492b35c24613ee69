//! What a caller of a book has.

ghost use Rattle.std.specs.Prelude.{◌≡◌, ◌∷◌, [], ◌++◌, List, true, false};
ghost use Rattle.radio_book.specs.Receipts.{has_fed, last_place, receipt_of, LastIsOf, ReceiptOf};
ghost use Rattle.radio_chronicle.specs.Stamps.{stamp};
ghost use Rattle.radio_chronicle.specs.declared.stamp.Stamp.{Stamp as StampOf};

use crate::holdings::Holdings;
use crate::receipt::NOWHERE;
use crate::{Chronicle, Origin, Receipt, Stamp};
use radio_events::{Event, Reply};
use std::alloc::Global;
use std::collections::HashMap;
use std::marker::{Model, PhantomData};

/// What a caller of a server has: the receipts of its calls, in their order, if the server stores entries; and the right
/// to end each client and each relay that it has let in.
pub struct Pass<C: Chronicle, H: Origin> {
    pub(crate) holdings: Holdings<H>,
    /// Of a client or a relay by its number: the list of the mount where it was attached last. It may be somewhere else by now.
    whereabouts: HashMap<u64, u64>,
    /// The list that was remembered last, if one was.
    recent: Option<u64>,
    of: PhantomData<C>,
}

impl<C: Chronicle, H: Origin> Drop for Pass<C, H> {
    fn drop(self) {
        let Pass {
            holdings,
            whereabouts,
            recent: _,
            of: _,
        } = self;
        drop(holdings);
        drop(whereabouts);
    }
}

impl<C: Chronicle, H: Origin> Model for Pass<C, H> {
    ghost use Rattle.std.specs.Prelude.{List};
    ghost use Rattle.radio_book.specs.Receipts.{ReceiptOf};

    ghost Value = { List ReceiptOf };

    ghost view = { λ p. p.holdings.receipts.items };
}

impl<C: Chronicle, H: Origin> Pass<C, H> {
    pub(crate) fn new(alloc: Global, holdings: Holdings<H>) -> Pass<C, H>
        ensures { result ≡ holdings.receipts.items }
    {
        Pass {
            holdings,
            whereabouts: HashMap::new(alloc),
            recent: None,
            of: PhantomData,
        }
    }

    /// Returns the receipts of the calls through this pass, in their order; none if nothing is stored.
    pub fn receipts(&self) -> &[Receipt]
        ensures { result.now ≡ self.now }
    {
        self.holdings.receipts.as_slice()
    }

    /// Returns a receipt of the last call through this pass, which was of this event and had this reply: that which the pass has,
    /// or one of no place if nothing is stored. It takes no memory.
    // rule: Receipts
    pub fn receipt(&self, event: Event, reply: Reply) -> Receipt
        requires last { C.KEEPS ≡ true → LastIsOf self.now event reply }
        ensures entry { (result.event ≡ event) × (result.reply ≡ reply) }
        ensures kept { C.KEEPS ≡ true → (front : List ReceiptOf) (place : StampOf) → self.now ≡ front ++ receipt_of place event reply ∷ []
            → self.now ≡ front ++ result ∷ [] }
        ensures unkept { C.KEEPS ≡ false → result.stamp ≡ stamp 0 0 }
    {
        let place = if C::KEEPS {
            last_place(self.holdings.receipts.as_slice())
        } else {
            NOWHERE
        };
        Receipt::new(place, event, reply)
    }

    /// Returns whether the client has fed a mount by a call through this pass; `false` if nothing is stored.
    pub fn has_fed(&self, id: u64) -> bool
        ensures { result ≡ has_fed id self.now }
    {
        let receipts = self.holdings.receipts.as_slice();
        receipts.iter().any(|receipt| receipt.feeds_by(id))
    }

    /// Returns the number of the list of the mount where the client or relay was attached last, if that is known.
    pub fn list_of(&self, id: u64) -> Option<u64> {
        self.whereabouts.get(&id).copied()
    }

    /// Returns the number of the list that was remembered last, of whichever client or relay, if one was.
    pub fn recent_list(&self) -> Option<u64> {
        self.recent
    }

    /// Remembers where the client or relay is attached. If memory is refused, it is not remembered.
    pub fn remember(&mut self, id: u64, list: u64)
        ensures { self.new ≡ self.old }
    {
        self.recent = Some(list);
        let _ = self.whereabouts.insert(id, list);
    }

    /// Forgets where the client or relay was.
    pub fn forget(&mut self, id: u64)
        ensures { self.new ≡ self.old }
    {
        self.whereabouts.remove(&id);
    }
}

/// Returns the place of the last receipt, if there is one.
fn last_place(receipts: &[Receipt]) -> Stamp
    ensures { result ≡ last_place receipts.now }
{
    match receipts.last() {
        Some(receipt) => receipt.stamp,
        None => NOWHERE,
    }
}
