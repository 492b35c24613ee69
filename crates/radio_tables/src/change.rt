//! What may be done to a row in its place.

ghost use Rattle.std.specs.Prelude.{◌≡◌, OnOk, OnErr};

use crate::{OutOfMemory, Row};

/// A change of a row that leaves its key as it is, and takes no memory.
pub trait RowChange<R: Row> {
    // The row after the change.
    ghost gives: { Self → R → R };

    /// Changes the row.
    fn apply(&self, row: &mut R)
        ensures { row.new ≡ gives self.now row.old };

    // The key stays.
    ghost keeps_key: { (change : Self) (row : R) → R.key (gives change row) ≡ R.key row };
}

/// A change of a row that leaves its key as it is, and may be refused memory.
pub trait TryChange<R: Row> {
    // The row after the change.
    ghost gives: { Self → R → R };

    /// Changes the row. `OutOfMemory` if memory was refused; the row is unchanged then.
    fn try_apply(&self, row: &mut R) -> Result<(), OutOfMemory>
        ensures ok { OnOk result (row.new ≡ gives self.now row.old) }
        ensures err { OnErr result (row.new ≡ row.old) };

    // The key stays.
    ghost keeps_key: { (change : Self) (row : R) → R.key (gives change row) ≡ R.key row };
}

/// Something that is put into a row, in place of what is taken out of it.
pub trait Swap<R: Row> {
    // The row after the swap.
    ghost gives: { Self → R → R };

    // What was taken out of the row.
    ghost takes: { Self → R → Self };

    /// Puts it into the row, and has what was there.
    fn swap(&mut self, row: &mut R)
        ensures given { row.new ≡ gives self.old row.old }
        ensures taken { self.new ≡ takes self.old row.old };

    // The key stays.
    ghost keeps_key: { (swap : Self) (row : R) → R.key (gives swap row) ≡ R.key row };
}

/// What deals with a row in its place, and answers.
pub trait RowVisit<R: Row> {
    /// What is given to the row.
    type Given;

    /// What is answered.
    type Answer;

    // The result of a visit: the answer, and the visitor and the row after it.
    ghost visits: { Self → Self.Given → R → Self.Answer → Self → R → Type 0 };

    /// Deals with the row.
    fn visit(&mut self, row: &mut R, given: &Self::Given) -> Self::Answer
        ensures { visits self.old given.now row.old result self.new row.new };

    // The key stays.
    ghost keeps_key: { (visitor visitor' : Self) (given : Self.Given) (row row' : R) (answer : Self.Answer)
        → visits visitor given row answer visitor' row' → R.key row' ≡ R.key row };
}
