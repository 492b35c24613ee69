//! A performer for tests: it gives back the bytes that arrive, and shuts a connection whose peer
//! has closed it.

ghost use Rattle.std.specs.Prelude.{◌≡◌, ◌++◌, ℕ, List, OnOk};

use radio_script::{Delivery, Input, PerformFault, Performer, push_answer};

/// The one label that it does not know.
pub const UNKNOWN: u32 = 9;

#[derive(Drop)]
pub struct Echo;

impl Performer for Echo {
    // The tests compare what is written; the relation claims only that lines are added at the
    // end.
    ghost performs = { λ _ _ _ _. Unit {0} };

    fn perform(&mut self, delivery: &Delivery, lines: &mut Vec<u8>) -> Result<(), PerformFault> {
        match delivery {
            Delivery::To { label, input } => match input {
                Input::Data(bytes) => answer(lines, *label, bytes.as_slice(), None),
                Input::End => answer(lines, *label, &[], Some("done")),
                Input::Room(_) | Input::Title(_) => Ok(()),
            },
            _ => Ok(()),
        }
    }
}

// At most one line for the bytes, and then at most one for the end.
fn answer(
    lines: &mut Vec<u8>,
    label: u32,
    bytes: &[u8],
    word: Option<&str>,
) -> Result<(), PerformFault>
    ensures { OnOk result ((text : List ℕ) × (lines.new.items ≡ lines.old.items ++ text)) }
{
    if label == UNKNOWN {
        return Err(PerformFault::Label);
    }
    match push_answer(lines, label, bytes, word) {
        Ok(()) => Ok(()),
        Err(_) => Err(PerformFault::OutOfMemory),
    }
}
