ghost use Rattle.std.specs.Prelude.{◌≡◌, ℕ, ◌≤◌, None, Some, IfOk};
ghost use Rattle.radio_parts.specs.Draw.{comes_to, draws, hands_out};
ghost use Rattle.radio_parts.specs.Outcomes.{out_of_place};
ghost use Rattle.radio_seats_rows.specs.Seats.{seat_of};
ghost use Rattle.radio_parts_mount.specs.Sessions.{session_of};
ghost use Rattle.std.specs.Option.{option_copied};
ghost use Rattle.radio_seats_rows.specs.declared.seat.Seat.{Seat as SeatOf};
ghost use Rattle.radio_seats.specs.Lent.{lent_seat};
ghost use Rattle.radio_parts_station.specs.Waiting.{heard_at, silence_of};
ghost use Rattle.radio_parts.specs.CanStep.{MayDraw};
ghost use Rattle.radio_parts_mount.specs.Steps.{IsKept};
ghost use Rattle.radio_parts_mount.specs.Kept.{first_start};
ghost use Rattle.radio_parts_mount.specs.Stream.{end_of};
ghost use Rattle.radio_parts_station.specs.World.{standing_of};

use crate::OutOfMemory;
use crate::control::Control;
use crate::outcome::Outcome;
use radio_blocks::{Pieces, Place};
use radio_events::Reply;
use radio_parts_changes::Change;
use radio_parts_mount::{Session, Stream};
use radio_parts_station::Standing;
use radio_parts_table::Hearing;
use radio_seats::LentSeat;
use radio_values::MountName;

/// The result of a draw: the reply, and the listener's new place in its stream, if it gets any data.
#[derive(Drop)]
pub(crate) struct Drawing {
    pub reply: Reply,
    pub place: Option<Place>,
}

impl Drawing {
    /// Returns the outcome of this draw of the listener of this number.
    pub(crate) fn outcome(self, id: u64) -> Outcome
        ensures { result ≡ comes_to id self }
    {
        match self.place {
            Some(place) => Outcome {
                reply: self.reply,
                change: Change::Advance { id, place },
            },
            None => Outcome {
                reply: self.reply,
                change: Change::Nothing,
            },
        }
    }

    /// Returns the result that has this reply and leaves the listener's place unchanged.
    fn of(reply: Reply) -> Drawing
        ensures { (result.reply ≡ reply) × (result.place ≡ None) }
    {
        Drawing { reply, place: None }
    }
}

impl Control {
    /// Draws at most `room` bytes for the listener of this number. `OutOfMemory` if memory was refused.
    /// A client with a seat is a listener, so the client is looked up only if it has none.
    pub(crate) fn draw(&self, id: u64, room: u32) -> Result<Drawing, OutOfMemory>
        ensures { MayDraw self.now id → IfOk result (λ drawing. comes_to id drawing ≡ draws self.now id room) }
    {
        match self.seats().hearing(id) {
            Some(hearing) => {
                let Hearing { seat, session } = hearing;
                self.hand_out(id, seat, session, room)
            }
            None => Ok(self.draw_without_seat(id)),
        }
    }

    /// Returns the result of a draw by a client that has no seat.
    pub(crate) fn draw_without_seat(&self, id: u64) -> Drawing
        ensures { comes_to id result ≡ out_of_place (standing_of self.now id) }
    {
        match self.standing(id) {
            Standing::Finished(rule) => Drawing::of(Reply::Finished(rule)),
            Standing::Unknown
            | Standing::Undecided(_)
            | Standing::Feeds(_)
            | Standing::Sits
            | Standing::Answered => Drawing::of(Reply::Stray),
        }
    }

    /// Draws for the listener from its place, or from the first data that are kept if those at its
    /// place were forgotten.
    pub(crate) fn hand_out(
        &self,
        id: u64,
        seat: LentSeat<'_>,
        session: Option<&Session>,
        room: u32,
    ) -> Result<Drawing, OutOfMemory>
        requires hears { option_copied session ≡ session_of self.now.station.live seat.mount.now }
        ensures { IsKept (session_of self.now.station.live seat.entry.mount.now) seat.entry.place
            → IfOk result (λ drawing. comes_to id drawing ≡ hands_out id (lent_seat seat.entry) room (heard_at self.now.station seat.entry.mount.now)) }
    {
        let Some(session) = session else {
            return Ok(self.hand_out_nothing(seat.place, seat.mount));
        };
        let mut pieces = Pieces::new(self.alloc);
        let kept = kept_place(&session.stream, seat.place);
        let place = session.stream.draw(kept, room, &mut pieces)?;
        let title = session.title.clone()?;
        Ok(Drawing {
            reply: Reply::Drawn { pieces, title },
            place: Some(place),
        })
    }

    /// Draws nothing for a listener at this place of a mount that waits for a session.
    fn hand_out_nothing(&self, place: Place, mount: &MountName) -> Drawing
        ensures { (id room : ℕ) (seat : SeatOf) → seat.place ≡ place → comes_to id result ≡ hands_out id seat room (silence_of self.now.station mount.now) }
    {
        if !self.station().is_on_demand(mount) {
            return Drawing::of(Reply::Stray);
        }
        Drawing {
            reply: Reply::Drawn {
                pieces: Pieces::new(self.alloc),
                title: None,
            },
            place: Some(place),
        }
    }
}

/// Returns the place, or the first that is kept of the stream if what follows it was forgotten.
fn kept_place(stream: &Stream, place: Place) -> Place
    ensures kept { first_start (end_of stream.now) stream.now.starts ≤ result }
    ensures same { first_start (end_of stream.now) stream.now.starts ≤ place → result ≡ place }
{
    let first = stream.first();
    if place < first { first } else { place }
}
