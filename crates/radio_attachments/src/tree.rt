//! The attachments of a mount.

ghost use Rattle.std.specs.Prelude.{◌≡◌, ◌≤◌, ◌==◌, false, [], ◌∷◌, length, find, filter, not, MatchOption};
ghost use Rattle.radio_tables.specs.Lists.{Each, update_first};
ghost use Rattle.radio_attachments.specs.Rows.{is_attached, at_place, put_in, lags, AreInOrder, IsVisitedIn};

use crate::branch::Branch;
use crate::{Attachment, AttachmentTest, BoxedAttachment, PlaceVisit};
use std::marker::Model;

/// The attachments of a mount, each number once. Contracts see their list, in the order of their
/// numbers. A call that looks for a number goes down one path of the tree. No clause bounds how long
/// that is: about twice the logarithm of how many there are, if nobody chose the numbers for it.
#[derive(Drop)]
pub struct AttachmentTree {
    root: Branch,
    /// No place is less than this.
    least: u64,
}

impl Model for AttachmentTree {
    ghost use Rattle.std.specs.Prelude.{List, ◌≤◌};
    ghost use Rattle.radio_tables.specs.Lists.{Each};
    ghost use Rattle.radio_attachments.specs.declared.attachment.Attachment.{Attachment};

    ghost Value = { List Attachment };

    ghost view = { λ t. t.root };

    ghost invariant = { λ t. Each (λ row. t.least ≤ row.place) t.root };
}

impl AttachmentTree {
    /// Returns a tree without attachments. It takes no memory.
    pub fn new() -> AttachmentTree
        ensures { result ≡ [] }
    {
        AttachmentTree {
            root: Branch::new(),
            least: u64::MAX,
        }
    }

    /// Returns whether there is no attachment.
    pub fn is_empty(&self) -> bool
        ensures { result ≡ (length self.now == 0) }
    {
        self.root.is_empty()
    }

    /// Returns the attachment of this number.
    pub fn get(&self, id: u64) -> Option<Attachment>
        ensures { result ≡ find (is_attached id) self.now }
    {
        self.root.get(id)
    }

    /// Visits the place of the attachment of this number, and returns the visit's answer; `None` if
    /// there is no such attachment, and nothing has changed then. The attachment is looked up once.
    pub fn visit<V: PlaceVisit>(&mut self, id: u64, visitor: &mut V) -> Option<V::Answer>
        ensures { IsVisitedIn V.visits id visitor.old self.old result visitor.new self.new }
    {
        self.root.visit(id, visitor)
    }

    /// Sets the place of the attachment of this number, in bytes. Nothing changes if there is no such
    /// attachment. The attachment is looked up once.
    pub fn set_place(&mut self, id: u64, place: u64)
        ensures { self.new ≡ update_first (is_attached id) (at_place place) self.old }
    {
        self.least = self.least.min(place);
        self.root.set_place(id, place);
    }

    /// Adds the attachment, in place of one of its number if there is one. It takes no memory.
    pub fn put(&mut self, boxed: BoxedAttachment)
        ensures { self.new ≡ put_in boxed self.old }
    {
        self.least = self.least.min(boxed.row().place);
        self.root.put(boxed);
    }

    /// Takes out the attachment of this number, with its memory. It takes no memory.
    pub fn take(&mut self, id: u64) -> Option<BoxedAttachment>
        ensures rest { self.new ≡ filter (λ row. not (is_attached id row)) self.old }
        ensures found { result ≡ find (is_attached id) self.old }
    {
        self.root.take(id)
    }

    /// Takes out the first attachment, with its memory. It takes no memory.
    pub fn take_first(&mut self) -> Option<BoxedAttachment>
        ensures { MatchOption result ((self.old ≡ []) × (self.new ≡ [])) (λ first. self.old ≡ first ∷ self.new) }
    {
        self.root.take_first()
    }

    /// Takes out the attachments that pass the test, with their memory. It takes no memory. The time
    /// grows as the number of attachments.
    pub fn split<T: AttachmentTest>(&mut self, test: &T) -> AttachmentTree
        ensures rest { self.new ≡ filter (λ row. not (T.passes test.now row)) self.old }
        ensures passed { result ≡ filter (T.passes test.now) self.old }
    {
        AttachmentTree {
            root: self.root.split(test),
            least: self.least,
        }
    }

    /// Returns whether an attachment's place may be further behind this end than a queue is long,
    /// both in bytes. It looks at none of them.
    pub fn may_lag(&self, end: u64, queue: u64) -> bool
        ensures none { result ≡ false → Each (λ row. lags end queue row ≡ false) self.now }
        // each number is there once
        ensures once { AreInOrder self.now }
    {
        let _ = self.root.is_empty();
        end.saturating_sub(self.least) > queue
    }

    /// Takes out the attachments whose places are further behind this end than a queue is long, both
    /// in bytes. It takes no memory. It looks at no attachment while the least place that it knows
    /// is within the queue.
    pub fn take_lagging(&mut self, end: u64, queue: u64) -> AttachmentTree
        ensures rest { self.new ≡ filter (λ row. not (lags end queue row)) self.old }
        ensures lagging { result ≡ filter (lags end queue) self.old }
    {
        if end.saturating_sub(self.least) <= queue {
            return AttachmentTree::new();
        }
        let lagging = self.split(&Lags { end, queue });
        self.least = self.root.least();
        lagging
    }
}

/// The attachment is further behind the end than a queue is long.
#[derive(Drop)]
struct Lags {
    end: u64,
    queue: u64,
}

impl AttachmentTest for Lags {
    ghost use Rattle.radio_attachments.specs.Rows.{lags};

    ghost passes = { λ test row. lags test.end test.queue row };

    // rule: Lagged
    fn passes(&self, row: &Attachment) -> bool {
        self.end.saturating_sub(row.place) > self.queue
    }
}
