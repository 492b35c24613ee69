//! The nodes of a tree of attachments, which move from one tree to another.

ghost use Rattle.std.specs.Prelude.{◌≡◌, ◌≤◌, ◌<◌, ◌==◌, false, [], ◌∷◌, ◌++◌, length, find, filter, nat_lt, not, IfOk, MatchOption};
ghost use Rattle.radio_tables.specs.Lists.{Each, update_first};
ghost use Rattle.radio_attachments.specs.Shape.{rows_in};
ghost use Rattle.radio_attachments.specs.Rows.{is_attached, at_place, comes_before, put_in, AreInOrder, IsVisitedIn};

use crate::{Attachment, AttachmentTest, OutOfMemory, PlaceVisit};
use std::alloc::Global;
use std::marker::Model;
use std::mem;

/// The attachments of a tree, or of one side of a node. Contracts see their list, in the order of
/// their numbers.
#[cycle(branches)]
#[derive(Drop)]
pub struct Branch {
    top: Option<Box<Node>>,
}

/// An attachment, with those before it and those behind it.
#[cycle(branches)]
#[derive(Drop)]
pub struct Node {
    /// No node below has a less one.
    lot: u64,
    row: Attachment,
    less: Branch,
    more: Branch,
}

impl Model for Node {
    ghost use Rattle.std.specs.Prelude.{◌≡◌, ◌+◌, ◌*◌, length};
    ghost use Rattle.radio_attachments.specs.Rows.{Forked};

    ghost Value = { Forked };

    ghost view = { λ n. record { row = n.row; less = n.less; more = n.more } };

    ghost size = { λ n. 2 * (length n.less + length n.more) + 1 };

    ghost use Rattle.std.proofs.Common.{arith, length-append};

    ghost size_decreases = { λ a h. Prim.grind (arith, length-append) };
}

impl Model for Branch {
    ghost use Rattle.std.specs.Prelude.{List, ◌*◌, length};
    ghost use Rattle.radio_attachments.specs.declared.attachment.Attachment.{Attachment};
    ghost use Rattle.radio_attachments.specs.Rows.{AreInOrder};
    ghost use Rattle.radio_attachments.specs.Shape.{rows_of};

    ghost Value = { List Attachment };

    ghost view = { λ b. rows_of b.top };

    ghost invariant = { λ b. AreInOrder (rows_of b.top) };

    ghost size = { λ rows. 2 * length rows };

    ghost use Rattle.std.proofs.Common.{arith, length-append};

    ghost size_decreases = { λ a h. Prim.grind (arith, length-append) };
}

/// An attachment with its memory.
#[derive(Drop)]
pub struct BoxedAttachment {
    node: Box<Node>,
}

impl Model for BoxedAttachment {
    ghost use Rattle.std.specs.Prelude.{◌≡◌, []};
    ghost use Rattle.radio_attachments.specs.declared.attachment.Attachment.{Attachment};

    ghost Value = { Attachment };

    ghost view = { λ a. a.node.value.row };

    ghost invariant = { λ a. (a.node.value.less ≡ []) × (a.node.value.more ≡ []) };
}

impl BoxedAttachment {
    /// Allocates an attachment. `OutOfMemory` if memory was refused.
    pub fn new(alloc: Global, row: Attachment) -> Result<BoxedAttachment, OutOfMemory>
        ensures { IfOk result (λ boxed. boxed ≡ row) }
    {
        let node = Box::new(
            alloc,
            Node {
                lot: lot_of(row.id),
                row,
                less: Branch::new(),
                more: Branch::new(),
            },
        )?;
        Ok(BoxedAttachment { node })
    }

    /// Returns the attachment.
    pub fn row(&self) -> Attachment
        ensures { result ≡ self.now }
    {
        self.node.row
    }

    /// Sets the place, in bytes. It takes no memory.
    pub fn set_place(&mut self, place: u64)
        ensures { self.new ≡ at_place place self.old }
    {
        self.node.row.place = place;
    }
}

impl Branch {
    /// Returns a branch without attachments. It takes no memory.
    pub(crate) fn new() -> Branch
        ensures { result ≡ [] }
    {
        Branch { top: None }
    }

    /// Returns whether there is no attachment.
    pub(crate) fn is_empty(&self) -> bool
        ensures empty { result ≡ (length self.now == 0) }
        ensures once { AreInOrder self.now }
    {
        self.top.is_none()
    }

    /// Returns the attachment of this number.
    pub(crate) fn get(&self, id: u64) -> Option<Attachment>
        ensures { result ≡ find (is_attached id) self.now }
    {
        let mut branch = self;
        'branches: while let Some(fork) = &branch.top {
            if id == fork.row.id {
                return Some(fork.row);
            }
            branch = side_of(fork, id);
        }
        None
    }

    /// Adds the attachment, in place of one of its number if there is one. It takes no memory.
    pub(crate) fn put(&mut self, boxed: BoxedAttachment)
        ensures { self.new ≡ put_in boxed self.old }
    {
        let row = boxed.row();
        match &mut self.top {
            None => {
                let BoxedAttachment { node } = boxed;
                self.top = Some(node);
            }
            Some(fork) => {
                if row.id == fork.row.id {
                    fork.row = row;
                    drop(boxed);
                } else if boxed.node.lot < fork.lot {
                    self.put_on_top(boxed);
                } else if comes_before(row.id, fork.row.id) {
                    fork.less.put(boxed);
                } else {
                    fork.more.put(boxed);
                }
            }
        }
    }

    /// Adds the attachment as the top node, in place of one of its number if there is one. It takes no memory.
    fn put_on_top(&mut self, boxed: BoxedAttachment)
        ensures { self.new ≡ put_in boxed self.old }
    {
        let more = self.cut_at(boxed.row().id);
        let less = mem::replace(self, Branch::new());
        let BoxedAttachment { mut node } = boxed;
        node.less = less;
        node.more = more;
        self.top = Some(node);
    }

    /// Takes out the attachments whose numbers are greater than this one, with their memory. One of this number goes. It
    /// takes no memory.
    fn cut_at(&mut self, id: u64) -> Branch
        ensures less { self.new ≡ filter (λ row. nat_lt row.id id) self.old }
        ensures more { result ≡ filter (λ row. nat_lt id row.id) self.old }
        ensures once { AreInOrder self.old }
    {
        let Some(mut fork) = self.top.take() else {
            return Branch::new();
        };
        if comes_before(id, fork.row.id) {
            let more = fork.less.cut_at(id);
            *self = mem::replace(&mut fork.less, more);
            return Branch { top: Some(fork) };
        }
        if comes_before(fork.row.id, id) {
            let more = fork.more.cut_at(id);
            self.top = Some(fork);
            return more;
        }
        *self = mem::replace(&mut fork.less, Branch::new());
        mem::replace(&mut fork.more, Branch::new())
    }

    /// Visits the place of the attachment of this number, and returns the visit's answer; `None` if there is no such
    /// attachment, and nothing has changed then.
    pub(crate) fn visit<V: PlaceVisit>(&mut self, id: u64, visitor: &mut V) -> Option<V::Answer>
        ensures { IsVisitedIn V.visits id visitor.old self.old result visitor.new self.new }
    {
        let Some(fork) = &mut self.top else {
            return None;
        };
        if id == fork.row.id {
            return Some(visitor.visit(&mut fork.row.place));
        }
        if comes_before(id, fork.row.id) {
            return fork.less.visit(id, visitor);
        }
        fork.more.visit(id, visitor)
    }

    /// Sets the place of the attachment of this number, in bytes. Nothing changes if there is no such attachment.
    pub(crate) fn set_place(&mut self, id: u64, place: u64)
        ensures { self.new ≡ update_first (is_attached id) (at_place place) self.old }
    {
        let Some(fork) = &mut self.top else {
            return;
        };
        if id == fork.row.id {
            fork.row.place = place;
            return;
        }
        if comes_before(id, fork.row.id) {
            fork.less.set_place(id, place);
            return;
        }
        fork.more.set_place(id, place);
    }

    /// Takes out the attachments that pass the test, with their memory. It takes no memory.
    pub(crate) fn split<T: AttachmentTest>(&mut self, test: &T) -> Branch
        ensures rest { self.new ≡ filter (λ row. not (T.passes test.now row)) self.old }
        ensures passed { result ≡ filter (T.passes test.now) self.old }
    {
        let Some(mut fork) = self.top.take() else {
            return Branch::new();
        };
        let less = fork.less.split(test);
        let more = fork.more.split(test);
        if test.passes(&fork.row) {
            let rest_less = mem::replace(&mut fork.less, less);
            let rest_more = mem::replace(&mut fork.more, more);
            *self = joined(rest_less, rest_more);
            return Branch { top: Some(fork) };
        }
        self.top = Some(fork);
        joined(less, more)
    }

    /// Returns the least place; the greatest number if there is no attachment.
    pub(crate) fn least(&self) -> u64
        ensures { Each (λ row. result ≤ row.place) self.now }
    {
        match &self.top {
            None => u64::MAX,
            Some(fork) => {
                let sides = fork.less.least().min(fork.more.least());
                sides.min(fork.row.place)
            }
        }
    }

    /// Takes out the first attachment, with its memory.
    pub(crate) fn take_first(&mut self) -> Option<BoxedAttachment>
        ensures { MatchOption result ((self.old ≡ []) × (self.new ≡ [])) (λ first. self.old ≡ first ∷ self.new) }
    {
        match self.top.take() {
            None => None,
            Some(mut fork) => match fork.less.take_first() {
                Some(first) => {
                    self.top = Some(fork);
                    Some(first)
                }
                None => {
                    *self = mem::replace(&mut fork.more, Branch::new());
                    Some(BoxedAttachment { node: fork })
                }
            },
        }
    }

    /// Takes out the attachment of this number, with its memory. It takes no memory.
    pub(crate) fn take(&mut self, id: u64) -> Option<BoxedAttachment>
        ensures rest { self.new ≡ filter (λ row. not (is_attached id row)) self.old }
        ensures found { result ≡ find (is_attached id) self.old }
    {
        match self.top.take() {
            None => None,
            Some(mut fork) => {
                if id == fork.row.id {
                    let less = mem::replace(&mut fork.less, Branch::new());
                    let more = mem::replace(&mut fork.more, Branch::new());
                    *self = joined(less, more);
                    Some(BoxedAttachment { node: fork })
                } else if comes_before(id, fork.row.id) {
                    let found = fork.less.take(id);
                    self.top = Some(fork);
                    found
                } else {
                    let found = fork.more.take(id);
                    self.top = Some(fork);
                    found
                }
            }
        }
    }
}

/// Returns the side of the node on which an attachment of this number would be.
fn side_of(node: &Node, id: u64) -> &Branch
    requires sorted { AreInOrder (rows_in node.now) }
    requires apart { (id == node.now.row.id) ≡ false }
    ensures found { find (is_attached id) (rows_in node.now) ≡ find (is_attached id) result.now }
    ensures smaller { length result.now < length (rows_in node.now) }
{
    if comes_before(id, node.row.id) {
        return &node.less;
    }
    &node.more
}

/// Returns both branches as one, the first before the second. It takes no memory.
fn joined(less: Branch, more: Branch) -> Branch
    requires { AreInOrder (less ++ more) }
    ensures { result ≡ less ++ more }
{
    let Branch { top: less } = less;
    let Branch { top: more } = more;
    match (less, more) {
        (None, more) => Branch { top: more },
        (less, None) => Branch { top: less },
        (Some(mut first), Some(mut second)) => {
            if first.lot < second.lot {
                let between = mem::replace(&mut first.more, Branch::new());
                first.more = joined(between, Branch { top: Some(second) });
                return Branch { top: Some(first) };
            }
            let between = mem::replace(&mut second.less, Branch::new());
            second.less = joined(Branch { top: Some(first) }, between);
            Branch { top: Some(second) }
        }
    }
}

/// Returns whether an attachment of the one number comes before that of the other.
fn comes_before(id: u64, other: u64) -> bool
    ensures { result ≡ comes_before id other }
{
    id < other
}

/// Returns a number for this one. A node has a less one than those below it, so the tree is not deep if numbers rise.
fn lot_of(id: u64) -> u64 {
    id.wrapping_mul(11_400_714_819_323_198_485)
}
