//! Notes, and their lines.
ghost use Rattle.std.specs.Prelude.{◌≡◌, IfOk};
ghost use Rattle.radio_log.specs.Lines.{body, note_line};

use crate::facts::Fact;
use crate::fields::Fields;
use crate::{Moment, OutOfMemory};
use std::alloc::Global;

/// How many bytes most lines have at most.
const USUAL_LENGTH: usize = 256;

/// How many bytes of lines wait at most in each place where lines wait.
pub const MOST_WAITING: usize = 65_536;

/// A moment, and what was so then.
#[derive(Drop)]
pub struct Note<'a> {
    /// The moment, in UTC.
    pub moment: Moment,
    /// What was so then.
    pub fact: Fact<'a>,
}

/// Returns the line of the log for a note, with its LF.
///
/// The only error is `OutOfMemory`, if memory was refused; nothing was written then.
// rule: Line of the log; Last line
#[tactic(auto, unfolding(crate::specs::Lines::note_line))]
pub fn line(alloc: Global, note: &Note<'_>) -> Result<Vec<u8>, OutOfMemory>
    ensures { IfOk result (λ bytes. bytes.items ≡ note_line note.now) }
{
    let fields = body(alloc, note)?;
    fields.into_line()
}

/// A line without its end.
fn body(alloc: Global, note: &Note<'_>) -> Result<Fields, OutOfMemory>
    ensures { IfOk result (λ fields. fields ≡ body note.now) }
{
    let mut bytes = Vec::with_capacity(alloc, USUAL_LENGTH)?;
    note.moment.push_to(&mut bytes)?;
    let mut fields = Fields::behind(alloc, bytes);
    note.fact.push_to(&mut fields)?;
    Ok(fields)
}
