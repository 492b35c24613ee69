//! Which worker takes a newcomer.

ghost use Rattle.std.specs.Prelude.{◌≡◌};
ghost use Rattle.radio_board.specs.Choices.{better};

/// A worker and how many connections it has.
#[derive(Clone, Copy)]
pub struct Chosen {
    /// The number of its desk.
    pub number: usize,
    /// How many connections it has, with those that were put for it.
    pub load: usize,
}

/// Returns which of two takes the newcomer: the one that was chosen so far, unless the other has fewer connections.
// rule: Newcomers
pub fn least_loaded(so_far: Option<Chosen>, other: Chosen) -> Chosen
    ensures { result ≡ better so_far other }
{
    match so_far {
        Some(best) if best.load <= other.load => best,
        Some(_) | None => other,
    }
}
