//! What is done to the session of one mount.

use crate::OutOfMemory;
use radio_blocks::Block;
use radio_parts_mount::{ListedPart, NewSession};
use radio_tables::{RowVisit, Swap};
use radio_values::Title;

/// The mount's session delivers a block at this moment, and of its stream the last blocks are kept
/// that have `limit` bytes.
#[derive(Drop)]
pub(crate) struct Delivers {
    /// The moment, in milliseconds.
    pub(crate) moment: u64,
    /// How many bytes the kept blocks have together, at least.
    pub(crate) limit: u64,
}

impl RowVisit<ListedPart> for Delivers {
    type Given = Block;

    /// Where the stream ends then.
    type Answer = Result<u64, OutOfMemory>;

    ghost use Rattle.radio_parts_table.specs.Parts.{IsDelivered};

    ghost visits = { λ delivers block part answer delivers' part'. IsDelivered delivers.limit block delivers.moment part answer part' };

    ghost keeps_key = { λ delivers delivers' block part part' answer delivered. delivered.0 };

    fn visit(&mut self, row: &mut ListedPart, block: &Block) -> Result<u64, OutOfMemory> {
        row.receive(block, self.moment, self.limit)
    }
}

/// A session that is put in the place of the mount's: one that begins, or none.
#[derive(Drop)]
pub(crate) struct SessionSwap {
    pub(crate) session: Option<NewSession>,
}

impl Swap<ListedPart> for SessionSwap {
    ghost use Rattle.std.specs.Prelude.{refl, None};
    ghost use Rattle.radio_parts_mount.specs.Parts.{with_session_in};

    ghost gives = { λ swap part. with_session_in swap.session part };

    ghost takes = { λ swap part. record { session = None } };

    ghost keeps_key = { λ swap part. refl };

    fn swap(&mut self, row: &mut ListedPart) {
        match self.session.take() {
            Some(session) => row.begin(session),
            None => row.end(),
        }
    }
}

/// A title that is put in the place of the session's, if the mount is live.
#[derive(Drop)]
pub(crate) struct TitleSwap {
    pub(crate) title: Option<Title>,
}

impl Swap<ListedPart> for TitleSwap {
    ghost use Rattle.std.specs.Prelude.{refl};
    ghost use Rattle.std.specs.Option.{option_map_or};
    ghost use Rattle.radio_parts_mount.specs.Sessions.{with_title};
    ghost use Rattle.radio_parts_mount.specs.Parts.{with_session_changed};

    ghost gives = { λ swap part. with_session_changed (with_title swap.title) part };

    ghost takes = { λ swap part. record { title = option_map_or (λ session. session.title) part.session swap.title } };

    ghost keeps_key = { λ swap part. refl };

    fn swap(&mut self, row: &mut ListedPart) {
        row.swap_title(&mut self.title);
    }
}
