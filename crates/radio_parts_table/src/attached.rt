//! What is done to the attachments of one mount.

use radio_attachments::{AttachmentTree, BoxedAttachment};
use radio_parts_mount::ListedPart;
use radio_seats::Seats;
use radio_tables::{RowChange, Swap};
use radio_values::MountName;
use std::mem;

/// An attachment that is taken out.
#[derive(Drop)]
pub(crate) struct Takes {
    pub(crate) id: u64,
    pub(crate) boxed: Option<BoxedAttachment>,
}

impl Swap<ListedPart> for Takes {
    ghost use Rattle.std.specs.Prelude.{refl, find};
    ghost use Rattle.radio_attachments.specs.Rows.{is_attached};
    ghost use Rattle.radio_parts_mount.specs.Attached.{on_part, without_id};

    ghost gives = { λ takes row. on_part (without_id takes.id) row };

    ghost takes = { λ takes row. record { id = takes.id; boxed = find (is_attached takes.id) row.attachments } };

    ghost keeps_key = { λ takes row. refl };

    fn swap(&mut self, row: &mut ListedPart) {
        self.boxed = row.take(self.id);
    }
}

/// An attachment that is put in.
#[derive(Drop)]
pub(crate) struct Puts {
    pub(crate) boxed: Option<BoxedAttachment>,
}

impl Swap<ListedPart> for Puts {
    ghost use Rattle.std.specs.Prelude.{refl, None};
    ghost use Rattle.radio_parts_mount.specs.Attached.{on_part, with_boxed};

    ghost gives = { λ puts row. on_part (with_boxed puts.boxed) row };

    ghost takes = { λ puts row. record { boxed = None } };

    ghost keeps_key = { λ puts row. refl };

    fn swap(&mut self, row: &mut ListedPart) {
        row.put(self.boxed.take());
    }
}

/// An attachment that is moved to another place.
#[derive(Drop)]
pub(crate) struct Advances {
    pub(crate) id: u64,
    pub(crate) place: u64,
}

impl RowChange<ListedPart> for Advances {
    ghost use Rattle.std.specs.Prelude.{refl};
    ghost use Rattle.radio_parts_mount.specs.Attached.{on_part, advanced_there};

    ghost gives = { λ change row. on_part (advanced_there change.id change.place) row };

    ghost keeps_key = { λ change row. refl };

    fn apply(&self, row: &mut ListedPart) {
        row.set_place(self.id, self.place);
    }
}

/// The attachments that are further behind the end than a queue is long, taken out.
#[derive(Drop)]
pub(crate) struct TakesLagging {
    pub(crate) end: u64,
    pub(crate) queue: u64,
    pub(crate) lagging: AttachmentTree,
}

impl Swap<ListedPart> for TakesLagging {
    ghost use Rattle.std.specs.Prelude.{refl, filter};
    ghost use Rattle.radio_attachments.specs.Rows.{lags};
    ghost use Rattle.radio_parts_mount.specs.Attached.{on_part, without_lagging};

    ghost gives = { λ takes row. on_part (without_lagging takes.end takes.queue) row };

    ghost takes = { λ takes row. record { end = takes.end; queue = takes.queue; lagging = filter (lags takes.end takes.queue) row.attachments } };

    ghost keeps_key = { λ takes row. refl };

    // rule: Lagged
    fn swap(&mut self, row: &mut ListedPart) {
        let lagging = row.take_lagging(self.end, self.queue);
        drop(mem::replace(&mut self.lagging, lagging));
    }
}

/// Whoever does not sit at the mount is detached.
#[derive(Drop)]
pub(crate) struct DetachesOthers<'a> {
    pub(crate) seats: &'a Seats,
    pub(crate) mount: &'a MountName,
}

impl RowChange<ListedPart> for DetachesOthers<'_> {
    ghost use Rattle.std.specs.Prelude.{refl};
    ghost use Rattle.radio_parts_mount.specs.Attached.{on_part, with_sitters};

    ghost gives = { λ change row. on_part (with_sitters change.seats.now.seats change.mount.now) row };

    ghost keeps_key = { λ change row. refl };

    fn apply(&self, row: &mut ListedPart) {
        row.detach_others(self.seats, self.mount);
    }
}
