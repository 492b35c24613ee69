//! Parts that are lent, and what is done while not all of them are here.

ghost use Rattle.std.specs.Prelude.{◌≡◌, Err, IfOk, OnErr, if◌then◌else◌};
ghost use Rattle.radio_parts_table.specs.Lent.{after_turn, lags_now, IsLent};
ghost use Rattle.radio_parts_table.specs.Exchange.{IsUnfit};
ghost use Rattle.radio_parts_mount.specs.Timeouts.{lags_behind};
ghost use Rattle.radio_policy.specs.declared.rule.Rule.{Rule as RuleOf};
ghost use Rattle.radio_seats_rows.specs.declared.seat.Seat.{Seat as SeatOf};
ghost use Rattle.radio_seats.specs.Lent.{lent_seat};
ghost use Rattle.radio_seats_rows.specs.Seats.{next_number, with_ended, AreByNumber};

use crate::Listeners;
use crate::listeners::end_each;
use radio_parts_mount::{ListedPart, sitters_among};
use radio_policy::Rule;
use radio_seats::LentSeat;
use radio_values::MountName;

impl Listeners {
    /// Puts the part in the place of its mount's, which it returns. A part that nobody feeds can only
    /// take the place of such a one, and one that a source feeds that of one which the same source
    /// feeds; else nothing changes, and `Err` has the part itself. Whoever has lagged out there, and
    /// still has its seat, loses it. It takes no memory.
    pub fn exchange(&mut self, part: ListedPart) -> Result<ListedPart, ListedPart>
        ensures ok { IfOk result (λ there. IsLent part there self.old self.new) }
        ensures back { OnErr result (result ≡ Err part) }
        ensures unfit { OnErr result (IsUnfit part self.old.live) }
        ensures err { OnErr result (self.new ≡ self.old) }
    {
        let mut part = part;
        let mount = part.part().mount;
        let lagged = part.take_lagged();
        match self.parts.exchange(part) {
            Ok(there) => {
                self.is_whole = false;
                let lost = sitters_among(lagged, &mount, &self.seats);
                end_each(&mut self.seats, lost);
                Ok(there)
            }
            Err(part) => {
                let mut part = part;
                part.set_lagged(lagged);
                Err(part)
            }
        }
    }

    /// Ends the seats at the mount whose places are further behind this end of its stream than a queue
    /// is long, both in bytes. It looks at each listener, since not all parts are here, and takes no
    /// memory.
    pub(crate) fn end_lagging_sitters(&mut self, mount: &MountName, end: u64, queue: u64)
        ensures { self.new ≡ record self.old { seats = with_ended self.old.seats (lags_behind mount.now end queue) RuleOf.Lagged } }
    {
        // the listeners are in the order of their numbers
        let _ = self.seats.len();
        let mut last = None;
        'listeners: while let Some(id) = self.next(last) {
            self.end_if_lagging(id, mount, end, queue);
            last = Some(id);
        }
    }

    /// Returns the least number of a listener past the last one, or of all if there is no last one.
    fn next(&self, last: Option<u64>) -> Option<u64>
        ensures next { result ≡ next_number self.now.seats last }
        // so that each has its turn once
        ensures rising { AreByNumber self.now.seats }
    {
        self.seats.next(last)
    }

    /// Ends the listener's seat if it lags behind at the mount.
    fn end_if_lagging(&mut self, id: u64, mount: &MountName, end: u64, queue: u64)
        ensures { self.new ≡ record self.old { seats = after_turn (lags_behind mount.now end queue) RuleOf.Lagged self.old.seats id } }
    {
        let Some(seat) = self.seat(id) else {
            return;
        };
        if lags(seat, mount, end, queue) {
            self.end(id, Rule::Lagged);
        }
    }
}

/// Returns whether the seat is one at the mount that lags behind.
fn lags(seat: LentSeat<'_>, mount: &MountName, end: u64, queue: u64) -> bool
    ensures { result ≡ lags_behind mount.now end queue (lent_seat seat.entry) }
{
    *seat.mount == *mount && end.saturating_sub(seat.place.bytes_before()) > queue
}
