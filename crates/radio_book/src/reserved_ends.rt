//! For how many ends a book has room reserved.

ghost use Rattle.std.specs.Prelude.{◌≡◌, ◌+◌, ◌≤◌, ◌<◌, ◌^◌, ℕ};

use std::sync::ledger;
use std::sync::ledger::{Ledger, Share};

/// How many entries of ends a book has reserved: one for each client or relay that was let in. A caller's share says
/// how many of them are its own.
#[derive(Drop)]
pub(crate) struct ReservedEnds<L: Ledger> {
    pub(crate) reserved: usize,
    book: ledger::Book<L>,
    ghost counted: { book.total ≡ reserved },
}

impl<L: Ledger> ReservedEnds<L> {
    /// Returns those of a book that has let nobody in.
    pub(crate) fn new(book: ledger::Book<L>) -> ReservedEnds<L>
        requires { book.total ≡ 0 }
        ensures { result.reserved ≡ 0 }
    {
        ReservedEnds { reserved: 0, book }
    }

    /// Reserves one more entry for the caller of this share.
    pub(crate) fn grow(&mut self, share: &mut Share<L>)
        requires part { 0 < share.old.parts }
        requires fits { self.old.reserved + 1 < 2 ^ 64 }
        ensures reserved { self.new.reserved ≡ self.old.reserved + 1 }
        ensures amount { share.new.amount ≡ share.old.amount + 1 }
        ensures parts { share.new.parts ≡ share.old.parts }
    {
        let ReservedEnds { reserved, book } = self;
        book.add(share, 1);
        *reserved += 1;
    }

    /// Reserves one entry less for the caller of this share.
    pub(crate) fn shrink(&mut self, share: &mut Share<L>)
        requires { 0 < share.old.amount }
        ensures reserved { self.new.reserved + 1 ≡ self.old.reserved }
        ensures amount { share.new.amount + 1 ≡ share.old.amount }
        ensures parts { share.new.parts ≡ share.old.parts }
    {
        let ReservedEnds { reserved, book } = self;
        book.audit(share);
        book.sub(share, 1);
        *reserved -= 1;
    }

    /// Shows that no share has more than is reserved in all. It changes nothing.
    pub(crate) fn audit(&mut self, share: &mut Share<L>)
        ensures bound { share.old.amount ≤ self.old.reserved }
        ensures reserved { self.new.reserved ≡ self.old.reserved }
        ensures amount { share.new.amount ≡ share.old.amount }
        ensures parts { share.new.parts ≡ share.old.parts }
    {
        self.book.audit(share);
    }
}
