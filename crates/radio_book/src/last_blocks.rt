//! When the last block had come, as the control knows it from what it has in the place of a part.

ghost use Rattle.std.specs.Prelude.{◌≡◌};
ghost use Rattle.radio_book.specs.Clocks.{last_block_in};

use radio_core::ListedPart;
use radio_parts_mount::LAST_MOMENT;

/// Drops the part without data if it knows of no block of the second half of the time that sources have, in seconds, but one has
/// come. Another is made then, so that a clock need not look at the mount's part for a while. Moments are in milliseconds.
pub(crate) fn drop_old(stand_in: &mut Option<ListedPart>, last_block: u64, now: u64, timeout: u32) {
    let known = last_block_of(stand_in);
    let half = u64::from(timeout).saturating_mul(500);
    if known < last_block && known.saturating_add(half) < now {
        *stand_in = None;
    }
}

/// Returns when the last block of the part's session had come, in milliseconds; the last moment if there is no part, or it is not live.
pub(crate) fn last_block_of(part: &Option<ListedPart>) -> u64 {
    match part {
        Some(part) => last_block(part),
        None => LAST_MOMENT,
    }
}

/// Returns when the last block of the part's session had come, in milliseconds; the last moment if it is not live.
pub(crate) fn last_block(part: &ListedPart) -> u64
    ensures { result ≡ last_block_in part.now }
{
    match part.session() {
        Some(session) => session.last_block,
        None => LAST_MOMENT,
    }
}
