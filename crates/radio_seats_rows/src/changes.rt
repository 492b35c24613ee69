//! What is done to a listener in its place in the table.

ghost use Rattle.std.specs.Prelude.{◌≡◌};

use crate::Guest;
use crate::row::{ListenerRow, RowState};
use radio_blocks::Place;
use radio_policy::Rule;
use radio_tables::RowChange;

/// A listener who sits at the mount of this number hears this session from now on.
#[derive(Drop)]
pub struct SetSession {
    /// The number of the mount.
    pub number: u64,
    /// The number of the session.
    pub session: u64,
}

impl SetSession {
    ghost use Rattle.std.specs.Prelude.{◌==◌, if◌then◌else◌};

    /// The session of one who sits at the mount of this number, and has heard the other.
    fn session_at(&self, mount: u64, heard: u64) -> u64
        ensures { result ≡ (if mount == self.now.number then self.now.session else heard) }
    {
        if mount == self.number {
            self.session
        } else {
            heard
        }
    }
}

impl RowChange<ListenerRow> for SetSession {
    ghost use Rattle.std.specs.Prelude.{refl};
    ghost use Rattle.radio_seats_rows.specs.Rows.{hears, with_state};

    ghost gives = { λ change row. with_state (hears change.number change.session row.state) row };

    ghost keeps_key = { λ change row. refl };

    fn apply(&self, row: &mut ListenerRow) {
        if let RowState::Seated(seat) = &mut row.state {
            seat.session = self.session_at(seat.mount, seat.session);
        }
    }
}

/// The listener sits at the mount of this number from now on.
#[derive(Drop)]
pub struct Moves {
    /// The number of the mount.
    pub mount: u64,
    /// The number of the session that it hears there.
    pub session: u64,
    /// The place from which on it hears it.
    pub place: Place,
}

impl RowChange<ListenerRow> for Moves {
    ghost use Rattle.std.specs.Prelude.{refl};
    ghost use Rattle.radio_seats_rows.specs.Rows.{shifted, with_state};

    ghost gives = { λ change row. with_state (shifted change.mount change.session change.place row.state) row };

    ghost keeps_key = { λ change row. refl };

    fn apply(&self, row: &mut ListenerRow) {
        if let RowState::Seated(seat) = &mut row.state {
            seat.mount = self.mount;
            seat.session = self.session;
            seat.place = self.place;
        }
    }
}

/// The listener loses its seat by the rule.
#[derive(Drop)]
pub struct Ends {
    /// The rule.
    pub rule: Rule,
}

impl RowChange<ListenerRow> for Ends {
    ghost use Rattle.std.specs.Prelude.{refl};
    ghost use Rattle.radio_seats_rows.specs.Rows.{ended, with_state};

    ghost gives = { λ change row. with_state (ended change.rule row.state) row };

    ghost keeps_key = { λ change row. refl };

    // rule: Killed
    fn apply(&self, row: &mut ListenerRow) {
        if let Some(mount) = row.state.mount() {
            row.state = RowState::Ended {
                rule: self.rule,
                mount,
            };
        }
    }
}

/// A test of a guest.
pub trait SeatTest {
    ghost use Rattle.std.specs.Prelude.{Bool};
    ghost use Rattle.radio_seats_rows.specs.declared.seat.Guest.{Guest};

    // What it asks.
    ghost passes: { Self → Guest → Bool };

    /// Whether it holds.
    fn passes(&self, guest: &Guest) -> bool
        ensures { result ≡ passes self.now guest.now };
}

/// A moment of a guest, in milliseconds.
pub trait GuestMoment {
    ghost use Rattle.std.specs.Prelude.{ℕ};
    ghost use Rattle.radio_seats_rows.specs.declared.seat.Guest.{Guest};

    // Which it is.
    ghost gives: { Self → Guest → ℕ };

    /// Which it is.
    fn moment(&self, guest: &Guest) -> u64
        ensures { result ≡ gives self.now guest.now };
}

/// A listener who sits at the mount of this number, and of whom the test holds, loses its seat by
/// the rule.
#[derive(Drop)]
pub struct FinishesAt<'a, T: SeatTest> {
    /// The number of the mount.
    pub number: u64,
    /// The test.
    pub test: &'a T,
    /// The rule.
    pub rule: Rule,
}

impl<T: SeatTest> RowChange<ListenerRow> for FinishesAt<'_, T> {
    ghost use Rattle.std.specs.Prelude.{refl};
    ghost use Rattle.radio_seats_rows.specs.Rows.{ended_where};

    ghost gives = { λ change row. ended_where (T.passes change.test.now) change.number change.rule row };

    ghost keeps_key = { λ change row. refl };

    fn apply(&self, row: &mut ListenerRow) {
        if row.state.passes_at(self.number, self.test) {
            row.state = RowState::Ended {
                rule: self.rule,
                mount: self.number,
            };
        }
    }
}
