//! The table of listeners.

ghost use Rattle.std.specs.Prelude.{◌≡◌, [], true, ◌||◌, ◌&&◌, ◌==◌, ◌<◌, not, min, fold, find, filter, map, length, OnOk, OnErr, MatchOption};
ghost use Rattle.std.specs.Option.{option_copied, option_map};
ghost use Rattle.std.specs.List.Sorted.{IsStrictlySortedBy};
ghost use Rattle.std.specs.Ordering.{nat_cmp};
ghost use Rattle.radio_seats_rows.specs.declared.row.ListenerRow.{ListenerRow as RowOf};
ghost use Rattle.std.specs.Str.{bytes_eq};
ghost use Rattle.radio_seats_rows.specs.Seats.{listener_of, seat_of, with_seat, with_place, with_move, with_end, with_ended, with_session_at, without_listener};
ghost use Rattle.radio_seats_rows.specs.Seats.{count_at, named_at, sits_there, AreByNumber};
ghost use Rattle.radio_seats_rows.specs.SeatTable.{is_prepared};
ghost use Rattle.radio_seats_rows.specs.Guests.{passes_in, passes_at, first_moment};
ghost use Rattle.radio_seats.specs.Lent.{lent_seat, standing_in};
ghost use Rattle.radio_seats_rows.specs.Rests.{how_many};
ghost use Rattle.radio_seats_rows.specs.Rows.{is_row, holds_in, holds_at, state_moment};
ghost use Rattle.radio_seats.specs.Shown.{number_in, last_in};

use crate::users::{UserAt, UserIndex, user_of};
use crate::{LentSeat, ListenerStanding};
use radio_blocks::Place;
use radio_policy::Rule;
use radio_seats_rows::{
    Ends, FinishesAt, GuestMoment, ListenerRow, Mounts, Moves, OutOfMemory, RowState, Seat,
    SeatTest, SetSession,
};
use radio_tables::Table;
use radio_values::MountName;
use std::alloc::Global;
use std::marker::Model;

/// The listeners, each once, in the order of their numbers, and the mounts that were prepared for
/// them. A listener can be seated at a prepared mount, and moved to one without memory. An index has
/// who sent which user, so that a question about a user looks at its rows alone.
pub struct Seats {
    pub(crate) mounts: Mounts,
    pub(crate) rows: Table<ListenerRow>,
    pub(crate) users: UserIndex,
}

impl Drop for Seats {
    fn drop(self) {
        let Seats {
            mounts,
            rows,
            users,
        } = self;
        drop(mounts);
        drop(rows);
        drop(users);
    }
}

impl Model for Seats {
    ghost use Rattle.std.specs.Prelude.{map};
    ghost use Rattle.radio_seats_rows.specs.SeatTable.{SeatTable};
    ghost use Rattle.radio_seats_rows.specs.Mounts.{name_in};
    ghost use Rattle.radio_seats.specs.Shown.{named, FitRows};

    ghost Value = { SeatTable };

    ghost view = { λ s. record { prepared = s.mounts.names; seats = map (named (name_in s.mounts.mounts)) s.rows } };

    ghost invariant = { λ s. FitRows s.mounts.mounts s.users.seats s.rows };
}

impl Seats {
    /// No listeners, and no mounts. It takes no memory.
    pub fn new(alloc: Global) -> Seats
        ensures { result ≡ record { prepared = []; seats = [] } }
    {
        Seats {
            mounts: Mounts::new(alloc),
            rows: Table::new(alloc),
            users: UserIndex::new(alloc),
        }
    }

    /// The mount is prepared from now on: listeners can be seated there. Of a prepared mount it
    /// changes nothing. `OutOfMemory` if memory was refused; nothing has changed then.
    pub fn prepare(&mut self, mount: &MountName) -> Result<(), OutOfMemory>
        ensures prepared { OnOk result ((other : _) → is_prepared self.new.prepared other ≡ (is_prepared self.old.prepared other || bytes_eq mount.now other)) }
        ensures seats { self.new.seats ≡ self.old.seats }
        ensures err { OnErr result (self.new ≡ self.old) }
    {
        self.mounts.prepare(mount)
    }

    /// The mount is not prepared any more, if no listener sits there or sat there last. It takes no
    /// memory.
    pub fn release(&mut self, mount: &MountName)
        ensures prepared { (other : _) → is_prepared self.new.prepared other
            ≡ (is_prepared self.old.prepared other && not (bytes_eq mount.now other && (named_at self.old.seats mount.now == 0))) }
        ensures seats { self.new.seats ≡ self.old.seats }
    {
        if self.named_at(mount) == 0 {
            self.mounts.release(mount);
        }
    }

    /// The seat of the listener of this number, if it has one.
    pub fn seat(&self, id: u64) -> Option<LentSeat<'_>>
        ensures { option_map lent_seat result ≡ seat_of self.now.seats id }
    {
        let Some(row) = self.rows.get(&id) else {
            return None;
        };
        match &row.state {
            RowState::Seated(seat) => match self.mounts.get(seat.mount) {
                Some(mount) => Some(LentSeat {
                    place: seat.place,
                    mount: &mount.name,
                    session: seat.session,
                    guest: &seat.guest,
                }),
                None => unreachable!(),
            },
            RowState::Ended { .. } => None,
        }
    }

    /// The standing of the listener of this number, if there is one.
    pub fn standing(&self, id: u64) -> Option<ListenerStanding>
        ensures { result ≡ standing_in (listener_of self.now.seats id) }
    {
        let Some(row) = self.rows.get(&id) else {
            return None;
        };
        Some(match &row.state {
            RowState::Seated(_) => ListenerStanding::HasSeat,
            RowState::Ended { rule, .. } => ListenerStanding::HasLost(*rule),
        })
    }

    /// The client is a listener from now on, and has this seat; of one who was a listener before,
    /// it is all that stays. `OutOfMemory` if memory was refused; nothing has changed then.
    pub fn add(&mut self, id: u64, seat: Seat) -> Result<(), OutOfMemory>
        requires { is_prepared self.old.prepared seat.mount ≡ true }
        ensures ok { OnOk result (self.new ≡ record self.old { seats = with_seat self.old.seats id seat }) }
        ensures err { OnErr result (self.new ≡ self.old) }
    {
        let Some(number) = self.mounts.number(&seat.mount) else {
            unreachable!();
        };
        let from = number_of(&self.rows, id);
        let last = last_of(&self.rows, id);
        self.users.insert_row(&mut self.rows, id, number, seat)?;
        // so many fit
        let _ = self.rows.len();
        self.mounts.leave(from);
        self.mounts.give_up(last);
        self.mounts.gain(number);
        Ok(())
    }

    /// All who sit at the mount hear this session from now on, each from the place where it is. It
    /// takes no memory.
    // rule: Session after a wait
    pub fn give_session(&mut self, mount: &MountName, session: u64)
        ensures { self.new ≡ record self.old { seats = with_session_at self.old.seats mount.now session } }
    {
        let Some(number) = self.mounts.number(mount) else {
            return;
        };
        self.rows.change_all(&SetSession { number, session });
    }

    /// The listener sits at the mount from now on, in this session and from this place on. Nothing
    /// changes where it has no seat. It takes no memory.
    pub fn shift(&mut self, id: u64, mount: &MountName, session: u64, place: Place)
        requires { is_prepared self.old.prepared mount.now ≡ true }
        ensures { self.new ≡ record self.old { seats = with_move self.old.seats id mount.now session place } }
    {
        let Some(number) = self.mounts.number(mount) else {
            unreachable!();
        };
        let from = number_of(&self.rows, id);
        let moves = Moves {
            mount: number,
            session,
            place,
        };
        self.rows.change(&id, &moves);
        let Some(_) = from else {
            return;
        };
        // so many fit
        let _ = self.rows.len();
        self.mounts.leave(from);
        self.mounts.give_up(from);
        self.mounts.gain(number);
    }

    /// The listener loses its seat by the rule, and sat there last. Nothing changes where it has
    /// none. It takes no memory.
    pub fn end(&mut self, id: u64, rule: Rule)
        ensures { self.new ≡ record self.old { seats = with_end self.old.seats id rule } }
    {
        let from = number_of(&self.rows, id);
        self.rows.change(&id, &Ends { rule });
        self.mounts.leave(from);
    }

    /// Nothing is left of the listener. It takes no memory.
    pub fn remove(&mut self, id: u64)
        ensures { self.new ≡ record self.old { seats = without_listener self.old.seats id } }
    {
        let from = number_of(&self.rows, id);
        let last = last_of(&self.rows, id);
        let gone = self.rows.remove(&id);
        self.users.remove(user_of(gone.as_ref()), id, None);
        self.mounts.leave(from);
        self.mounts.give_up(last);
    }

    /// All who sit at the mount, and of whom the test holds, lose their seats by the rule; how many they
    /// are. It takes no memory. The listeners are looked at once where it holds of nobody.
    pub fn finish_at_if<T: SeatTest>(&mut self, mount: &MountName, test: &T, rule: Rule) -> u64
        ensures seats { self.new ≡ record self.old { seats = with_ended self.old.seats (passes_at mount.now (T.passes test.now)) rule } }
        ensures count { result ≡ how_many (passes_at mount.now (T.passes test.now)) self.old.seats }
    {
        let Some(number) = self.mounts.number(mount) else {
            return 0;
        };
        let count = count_where(&self.rows, number, test);
        if count == 0 {
            return 0;
        }
        self.rows.change_all(&FinishesAt { number, test, rule });
        self.mounts.lose(number, count);
        count
    }

    /// How many sit at the mount.
    pub fn count(&self, mount: &MountName) -> u64
        ensures count { result ≡ count_at self.now.seats mount.now }
        // the listeners are in the order of their numbers, so that each is counted once
        ensures rising { AreByNumber self.now.seats }
    {
        let _ = self.rows.len();
        let Some(number) = self.mounts.number(mount) else {
            return 0;
        };
        match self.mounts.get(number) {
            Some(mount) => mount.sitting,
            None => 0,
        }
    }

    /// Whether somebody sits at the mount who sent this user. The time grows as the number of those
    /// who sent it, and as the logarithm of the number of listeners.
    pub fn user_at(&self, mount: &MountName, user: &[u8]) -> bool
        ensures { result ≡ sits_there self.now.seats mount.now user.now }
    {
        let Some(number) = self.mounts.number(mount) else {
            return false;
        };
        let asked = UserAt {
            number,
            user,
            own: None,
        };
        self.users.has(&self.rows, &asked)
    }

    /// The first of these moments of those who have seats; the last one where nobody has. The time
    /// grows as the number of listeners.
    pub fn first_moment<M: GuestMoment>(&self, moment: &M, last: u64) -> u64
        ensures { result ≡ first_moment (M.gives moment.now) last self.now.seats }
    {
        first_in(&self.rows, moment, last)
    }
}

impl Seats {
    ghost use Rattle.std.specs.Prelude.{◌≡◌, ◌<◌, MatchOption, filter, length};
    ghost use Rattle.radio_seats_rows.specs.Guests.{passes_in, passes_at};
    ghost use Rattle.radio_seats_rows.specs.Rests.{how_many};

    /// The mount of the first listener who has a seat of which the test holds. The time grows as the
    /// number of listeners.
    pub fn first_mount_where<T: SeatTest>(&self, test: &T) -> Option<MountName>
        ensures { MatchOption result (how_many (passes_in (T.passes test.now)) self.now.seats ≡ 0)
            (λ mount. 0 < how_many (passes_at mount (T.passes test.now)) self.now.seats) }
    {
        let Some(row) = first_where(&self.rows, test) else {
            return None;
        };
        let Some(number) = row.state.mount() else {
            unreachable!();
        };
        match self.mounts.get(number) {
            Some(mount) => Some(mount.name),
            None => unreachable!(),
        }
    }
}

/// The number of the mount where the listener sits.
fn number_of(rows: &Table<ListenerRow>, id: u64) -> Option<u64>
    ensures number { result ≡ number_in (find (is_row id) rows.now) }
    // no listener has two rows
    ensures rising { IsStrictlySortedBy nat_cmp (map (λ (row : RowOf). row.id) rows.now) }
{
    let _ = rows.len();
    match rows.get(&id) {
        Some(row) => row.state.mount(),
        None => None,
    }
}

/// The number of the mount where the listener sits, or sat last.
fn last_of(rows: &Table<ListenerRow>, id: u64) -> Option<u64>
    ensures { result ≡ last_in (find (is_row id) rows.now) }
{
    match rows.get(&id) {
        Some(row) => Some(row.state.last_mount()),
        None => None,
    }
}

/// The first row of one who has a seat of which the test holds.
fn first_where<'a, T: SeatTest>(rows: &'a Table<ListenerRow>, test: &T) -> Option<&'a ListenerRow>
    ensures { option_copied result ≡ find (λ row. holds_in (T.passes test.now) row.state) rows.now }
{
    rows.iter().find(|row| row.state.passes(test))
}

/// The first of these moments of those who have seats; the last one where nobody has.
fn first_in<M: GuestMoment>(rows: &Table<ListenerRow>, moment: &M, last: u64) -> u64
    ensures { result ≡ fold (λ first row. min first (state_moment (M.gives moment.now) last row.state)) last rows.now }
{
    rows.iter().fold(last, |first, row| {
        first.min(row.state.moment_or(moment, last))
    })
}

/// How many sit at the mount of this number, of whom the test holds.
fn count_where<T: SeatTest>(rows: &Table<ListenerRow>, number: u64, test: &T) -> u64
    ensures { result ≡ length (filter (λ row. holds_at (T.passes test.now) number row.state) rows.now) }
{
    rows.iter()
        .filter(|row| row.state.passes_at(number, test))
        .count() as u64
}
