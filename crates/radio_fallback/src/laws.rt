//! Laws of a carry: functions that do nothing, each with a law for its contract.

ghost use Rattle.std.specs.Prelude.{◌≡◌, ℕ, List, Some};
ghost use Rattle.radio_seats_rows.specs.declared.seat.Seat.{Seat};
ghost use Rattle.radio_seats_rows.specs.declared.seat.Listener.{Listener};
ghost use Rattle.radio_seats_rows.specs.Seats.{listener_of, seat_of, AreByNumber};
ghost use Rattle.radio_fallback.specs.declared.moves.Move.{Move};
ghost use Rattle.radio_fallback.specs.Walk.{Sight};
ghost use Rattle.radio_fallback.specs.Carry.{carried, numbers_of, turn_of, at_his_turn};
ghost use Rattle.radio_fallback.specs.Fares.{IsWithinLimit, SitOnce, HadASeat, fared};

/// Whatever carries listeners along, the table has the same listeners after it.
// rule: Moved to the end
pub fn a_carry_keeps_numbers()
    ensures { (sight : Sight) (move : Move) (seats : List Listener) → numbers_of (carried sight move seats).seats ≡ numbers_of seats }
{}

/// Whoever has a seat after a carry has the one that it had, or it was carried from it to the end of
/// a live mount's stream, and that mount lets it in.
// rule: Closed to moves
pub fn a_carry_asks_the_users()
    ensures { (sight : Sight) (move : Move) (seats : List Listener) (id : ℕ) (seat : Seat)
        → seat_of (carried sight move seats).seats id ≡ Some seat → HadASeat sight seats id seat }
{}

/// A mount that had no more listeners than may sit there has no more after a carry.
// rule: Closed to moves
pub fn a_carry_keeps_limits()
    ensures { (sight : Sight) (move : Move) (seats : List Listener) (mount : List ℕ) → AreByNumber seats
        → IsWithinLimit sight seats mount → IsWithinLimit sight (carried sight move seats).seats mount }
{}

/// Where each user may sit at a mount once, and nobody sat there twice, nobody does after a carry.
// rule: User twice
pub fn a_carry_seats_users_once()
    ensures { (sight : Sight) (move : Move) (seats : List Listener) (mount : List ℕ)
        → SitOnce sight seats mount → SitOnce sight (carried sight move seats).seats mount }
{}

/// What becomes of each listener is what its turn makes of it in the state then. Those of lower
/// numbers have had their turns, and no others have.
// rule: Turns of a move
pub fn each_fares_by_his_turn()
    ensures { (sight : Sight) (move : Move) (seats : List Listener) (id : ℕ) (listener : Listener) → AreByNumber seats
        → listener_of seats id ≡ Some listener
        → listener_of (carried sight move seats).seats id ≡ Some (fared sight (turn_of sight move (at_his_turn sight move seats id) id) listener) }
{}
