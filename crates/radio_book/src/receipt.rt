//! Receipts.

use crate::Stamp;
use radio_events::{Event, Reply};
use std::marker::Model;

/// The place of an entry that is not stored.
pub(crate) const NOWHERE: Stamp = Stamp { list: 0, serial: 0 };

/// The receipt of a call of a book: this entry is at this place of a list of the server.
///
/// A book makes it for a caller's pass; [`Pass::receipt`](crate::Pass::receipt) makes an equal one.
pub struct Receipt {
    pub(crate) stamp: Stamp,
    pub(crate) event: Event,
    pub(crate) reply: Reply,
}

impl Drop for Receipt {
    fn drop(self) {
        let Receipt {
            stamp: _,
            event,
            reply,
        } = self;
        drop(event);
        drop(reply);
    }
}

impl Model for Receipt {
    ghost use Rattle.radio_book.specs.Receipts.{ReceiptOf};

    ghost Value = { ReceiptOf };

    ghost view = { λ r. record { stamp = r.stamp; event = r.event; reply = r.reply } };
}

impl Receipt {
    ghost use Rattle.std.specs.Prelude.{◌≡◌};
    ghost use Rattle.radio_book.specs.Receipts.{feeds_by, receipt_of};

    pub(crate) fn new(stamp: Stamp, event: Event, reply: Reply) -> Receipt
        ensures { result ≡ receipt_of stamp event reply }
    {
        Receipt {
            stamp,
            event,
            reply,
        }
    }

    /// Returns the place of its entry; list 0, serial 0, if nothing is stored.
    pub fn stamp(&self) -> Stamp
        ensures { result ≡ self.now.stamp }
    {
        self.stamp
    }

    /// Returns the event of its entry.
    pub fn event(&self) -> &Event
        ensures { result.now ≡ self.now.event }
    {
        &self.event
    }

    /// Returns the server's reply.
    pub fn reply(&self) -> &Reply
        ensures { result.now ≡ self.now.reply }
    {
        &self.reply
    }

    /// Returns whether the client has begun to feed a mount by it.
    pub(crate) fn feeds_by(&self, id: u64) -> bool
        ensures { result ≡ feeds_by id self.now.event self.now.reply }
    {
        let Event::Source(asked) = &self.event else {
            return false;
        };
        asked.id == id && matches!(self.reply, Reply::Feeding)
    }

    /// Returns the server's reply, and drops the rest.
    pub fn into_reply(self) -> Reply
        ensures { result ≡ self.reply }
    {
        let Receipt {
            stamp: _,
            event,
            reply,
        } = self;
        drop(event);
        reply
    }
}
