//! What holds of the record of a connection after all that has happened on it, whatever that is.

ghost use Rattle.std.specs.Prelude.{◌≡◌, ℕ, List, sum_by};
ghost use Rattle.std.specs.List.{list_any};
ghost use Rattle.radio_notes.specs.declared.visit.Happening.{Happening as HappeningOf};
ghost use Rattle.radio_notes.specs.declared.visit.Part.TheVariants.{Neither};
ghost use Rattle.radio_notes.specs.Counts.{capped};
ghost use Rattle.radio_notes.specs.Laws.{fed_in, first_end_of, first_status_of, handed_in, last_part_of, shows_station, visit_of};

/// The record of a connection has the end and the status that came first. It counts all bytes that its line took and
/// all that its stream brought. It has the part that was given last, whatever has happened in between.
// rule: Polls; Line of a client
pub fn visits_have_what_happened()
    ensures since { (ms : ℕ) (happenings : List HappeningOf) → (visit_of ms happenings).since_ms ≡ ms }
    // the first end stays
    ensures end { (ms : ℕ) (happenings : List HappeningOf) → (visit_of ms happenings).end ≡ first_end_of happenings }
    // the first status stays
    ensures status { (ms : ℕ) (happenings : List HappeningOf) → (visit_of ms happenings).status ≡ first_status_of happenings }
    // all bytes count
    ensures handed { (ms : ℕ) (happenings : List HappeningOf) → (visit_of ms happenings).handed ≡ capped (sum_by handed_in happenings) }
    ensures fed { (ms : ℕ) (happenings : List HappeningOf) → (visit_of ms happenings).fed ≡ capped (sum_by fed_in happenings) }
    ensures poll { (ms : ℕ) (happenings : List HappeningOf) → (visit_of ms happenings).is_poll ≡ list_any shows_station happenings }
    ensures part { (ms : ℕ) (happenings : List HappeningOf) → (visit_of ms happenings).part ≡ last_part_of Neither happenings }
{}
