//! What the table answers of a listener.

use radio_blocks::Place;
use radio_policy::Rule;
use radio_seats_rows::Guest;
use radio_values::MountName;

/// A seat that a table lends.
#[derive(Clone, Copy)]
pub struct LentSeat<'a> {
    /// How far it has heard the stream of its session.
    pub place: Place,
    /// The mount that it hears.
    pub mount: &'a MountName,
    /// The number of the session that it hears.
    pub session: u64,
    /// Who has the seat.
    pub guest: &'a Guest,
}

/// What an admitted listener is now.
#[derive(Clone, Copy)]
pub enum ListenerStanding {
    /// It has a seat.
    HasSeat,
    /// It has lost its seat by the rule.
    HasLost(Rule),
}
