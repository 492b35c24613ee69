//! The rows of the table, in which a mount is a number.

ghost use Rattle.std.specs.Prelude.{◌≡◌, IfOk};
ghost use Rattle.std.specs.Option.{option_copied};
ghost use Rattle.radio_seats_rows.specs.Rows.{number_of, last_number, holds_in, holds_at, seated_row, user_state, state_moment};
ghost use Rattle.radio_seats_rows.specs.Sent.{user_sent};

use crate::{Guest, GuestMoment, KeptUser, OutOfMemory, Seat, SeatTest};
use radio_blocks::Place;
use radio_creds::Pair;
use radio_policy::Rule;
use radio_tables::Row;
use std::alloc::Global;

/// A seat, in which the mount is its number.
#[derive(Drop)]
pub struct NumberedSeat {
    // what a push and a draw read comes first, and lies together
    /// How far it has heard the stream of its session.
    pub place: Place,
    /// The number of the mount that it hears.
    pub mount: u64,
    /// The number of the session that it hears.
    pub session: u64,
    /// Who has the seat.
    pub guest: Guest,
}

/// Whether a listener sits.
#[derive(Drop)]
pub enum RowState {
    /// It has this seat.
    Seated(NumberedSeat),
    /// It has lost its seat at the mount of this number by the rule.
    Ended {
        /// The rule.
        rule: Rule,
        /// The number of the mount where it sat last.
        mount: u64,
    },
}

impl RowState {
    /// The number of the mount where it sits.
    pub fn mount(&self) -> Option<u64>
        ensures { result ≡ number_of self.now }
    {
        match self {
            RowState::Seated(seat) => Some(seat.mount),
            RowState::Ended { .. } => None,
        }
    }

    /// The number of the mount where it sits, or sat last.
    pub fn last_mount(&self) -> u64
        ensures { result ≡ last_number self.now }
    {
        match self {
            RowState::Seated(seat) => seat.mount,
            RowState::Ended { mount, .. } => *mount,
        }
    }

    /// Whether it is a seat of which the test holds.
    pub fn passes<T: SeatTest>(&self, test: &T) -> bool
        ensures { result ≡ holds_in (T.passes test.now) self.now }
    {
        match self {
            RowState::Seated(seat) => test.passes(&seat.guest),
            RowState::Ended { .. } => false,
        }
    }

    /// Whether it is such a seat at the mount of this number.
    pub fn passes_at<T: SeatTest>(&self, number: u64, test: &T) -> bool
        ensures { result ≡ holds_at (T.passes test.now) number self.now }
    {
        match self {
            RowState::Seated(seat) => seat.mount == number && test.passes(&seat.guest),
            RowState::Ended { .. } => false,
        }
    }

    /// The moment of the guest who has the seat, or the other where it is lost.
    pub fn moment_or<M: GuestMoment>(&self, moment: &M, other: u64) -> u64
        ensures { result ≡ state_moment (M.gives moment.now) other self.now }
    {
        match self {
            RowState::Seated(seat) => moment.moment(&seat.guest),
            RowState::Ended { .. } => other,
        }
    }

    /// Whether it is a seat at the mount of this number, of one who sent this user.
    pub fn is_of_user(&self, number: u64, user: &[u8]) -> bool
        ensures { result ≡ user_state number user.now self.now }
    {
        match self {
            RowState::Seated(seat) => seat.mount == number && seat.guest.has_user(user),
            RowState::Ended { .. } => false,
        }
    }
}

/// A listener, as the table keeps it.
#[derive(Drop)]
pub struct ListenerRow {
    /// Its number.
    pub id: u64,
    /// The user that it sent when it sat down, if it did.
    pub user: Option<KeptUser>,
    /// Whether it sits.
    pub state: RowState,
}

impl Row for ListenerRow {
    type Key = u64;

    ghost use Rattle.radio_tables.proofs.KeyLaws.{number_is};
    ghost use Rattle.radio_seats_rows.specs.Rows.{is_row};

    ghost key = { λ row. row.id };

    ghost has_key = { is_row };

    ghost has_key_is = { λ id row. number_is id row.id };

    fn key(&self) -> u64 {
        self.id
    }
}

impl ListenerRow {
    /// The row of a listener who sits down, where the mount of its seat has this number.
    /// `OutOfMemory` if memory was refused.
    pub fn new(alloc: Global, id: u64, number: u64, seat: Seat) -> Result<ListenerRow, OutOfMemory>
        ensures { IfOk result (λ row. row ≡ seated_row id number seat) }
    {
        let user = kept(alloc, seat.pair.as_ref())?;
        let guest = Guest {
            home: seat.home,
            peer: seat.peer,
            pair: seat.pair,
            interval: seat.interval,
            since: seat.since,
        };
        let seat = NumberedSeat {
            place: seat.place,
            mount: number,
            session: seat.session,
            guest,
        };
        Ok(ListenerRow {
            id,
            user,
            state: RowState::Seated(seat),
        })
    }
}

/// The user that was sent, if one was. `OutOfMemory` if memory was refused.
fn kept(alloc: Global, pair: Option<&Pair>) -> Result<Option<KeptUser>, OutOfMemory>
    ensures { IfOk result (λ user. user ≡ user_sent (option_copied pair.entry)) }
{
    match pair {
        Some(pair) => Ok(Some(KeptUser::new(alloc, pair.user())?)),
        None => Ok(None),
    }
}
