//! How far a listener has heard.

ghost use Rattle.std.specs.Prelude.{◌≡◌};
ghost use Rattle.radio_seats_rows.specs.Seats.{with_place};

use crate::Seats;
use radio_blocks::Place;
use radio_seats_rows::{ListenerRow, RowState};
use radio_tables::RowChange;

/// The place up to which a listener has heard its mount's stream, if it has a seat.
#[derive(Drop)]
struct AdvancesSeat {
    place: Place,
}

impl RowChange<ListenerRow> for AdvancesSeat {
    ghost use Rattle.std.specs.Prelude.{refl};
    ghost use Rattle.radio_seats_rows.specs.Rows.{with_state};
    ghost use Rattle.radio_seats.specs.Further.{heard_to_place};

    ghost gives = { λ change row. with_state (heard_to_place change.place row.state) row };

    ghost keeps_key = { λ change row. refl };

    fn apply(&self, row: &mut ListenerRow) {
        if let RowState::Seated(seat) = &mut row.state {
            seat.place = self.place;
        }
    }
}

impl Seats {
    /// Sets the place up to which the listener has heard its mount's stream. Nothing changes if it
    /// has no seat. It takes no memory.
    pub fn advance(&mut self, id: u64, place: Place)
        ensures { self.new ≡ record self.old { seats = with_place self.old.seats id place } }
    {
        self.rows.change(&id, &AdvancesSeat { place });
    }
}
