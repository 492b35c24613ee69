//! A part that takes the place of another, for as long as it is lent.

ghost use Rattle.std.specs.Prelude.{◌≡◌, Err, IfOk, OnErr};
ghost use Rattle.radio_parts_table.specs.Exchange.{can_replace, is_of_source, same_source, IsExchanged, IsUnfit};
ghost use Rattle.radio_parts_mount.specs.StatePart.{end_in};

use crate::parts::MountParts;
use radio_parts_mount::{ListedPart, Session};
use radio_tables::{Row, Swap};
use std::mem;

/// A part that takes the place of the mount's, if neither is live, or both are by one source.
#[derive(Drop)]
struct PartSwap {
    part: ListedPart,
    is_put: bool,
}

impl Swap<ListedPart> for PartSwap {
    ghost use Rattle.radio_parts_table.specs.Exchange.{can_replace, keeps_mount, left_for, put_for};

    ghost gives = { λ swap row. put_for swap.part row };

    ghost takes = { λ swap row. record { part = left_for swap.part row; is_put = can_replace swap.part row } };

    ghost keeps_key = { λ swap row. keeps_mount swap.part row };

    fn swap(&mut self, row: &mut ListedPart) {
        self.is_put = can_replace(&self.part, row);
        if self.is_put {
            mem::swap(&mut self.part, row);
        }
    }
}

impl MountParts {
    /// Puts the part in the place of its mount's, which it returns. A part that nobody feeds can only
    /// take the place of such a one, and one that a source feeds that of one which the same source
    /// feeds. Else nothing changes, and `Err` has the part itself. It takes no memory.
    pub fn exchange(&mut self, part: ListedPart) -> Result<ListedPart, ListedPart>
        ensures ok { IfOk result (λ there. IsExchanged part there self.old self.new) }
        ensures back { OnErr result (result ≡ Err part) }
        ensures unfit { OnErr result (IsUnfit part self.old.live) }
        ensures err { OnErr result (self.new ≡ self.old) }
    {
        let mount = part.key();
        self.furthest = self.furthest.max(stream_end(&part));
        // the parts are in the order of their mounts
        let _ = self.parts.len();
        let mut swap = PartSwap {
            part,
            is_put: false,
        };
        self.parts.swap(&mount, &mut swap);
        let PartSwap { part, is_put } = swap;
        if !is_put {
            return Err(part);
        }
        Ok(part)
    }
}

/// Returns where the stream of the part's session ends, in bytes; 0 if it has none.
fn stream_end(part: &ListedPart) -> u64
    ensures { result ≡ end_in part.now.session }
{
    match part.session() {
        Some(session) => session.stream.end(),
        None => 0,
    }
}

/// Returns whether the part can take the place of this one.
fn can_replace(part: &ListedPart, row: &ListedPart) -> bool
    ensures { result ≡ can_replace part.now row.now }
{
    let (part, row) = (part.part(), row.part());
    part.mount == row.mount && has_same_source(&part.session, &row.session)
}

/// Returns whether there is neither session, or both are of one mount and one source.
fn has_same_source(session: &Option<Session>, other: &Option<Session>) -> bool
    ensures { result ≡ same_source session.now other.now }
{
    match (session, other) {
        (None, None) => true,
        (Some(session), Some(other)) => is_of_source(session, other),
        (None, Some(_)) | (Some(_), None) => false,
    }
}

/// Returns whether the sessions are of one mount and one source.
fn is_of_source(session: &Session, other: &Session) -> bool
    ensures { result ≡ is_of_source session.now other.now }
{
    *session.mount.get() == *other.mount.get() && session.number == other.number
}
