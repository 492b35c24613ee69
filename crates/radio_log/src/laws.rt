//! Laws: what holds of all lines.
//!
//! Each law is a function that does nothing, and its contract is the law.
//! A caller that needs a law in a proof calls the function, and cites its clause.
ghost use Rattle.std.specs.Prelude.{◌≡◌, List};
ghost use Rattle.std.specs.List.{AllByRecursion};
ghost use Rattle.radio_log.specs.Laws.{IsLineReadBack, IsNote, IsPrintable, log};
ghost use Rattle.radio_log.specs.Lines.{body};
ghost use Rattle.radio_log.specs.declared.notes.Note.{Note as NoteOf};

use radio_addr::written_peers;

/// Before its LF a line is printable ASCII, whatever others have said of themselves: it has no line end and no other
/// control character.
// rule: Line of the log
pub fn lines_are_printable()
    ensures { (note : NoteOf) → IsNote note → AllByRecursion IsPrintable (body note) }
{}

/// A line is read as it was written, whatever follows it. It ends at the first LF, and single spaces part its words.
/// Each word after the second is a field: its name ends at the first `=`, and its value is percent-encoded.
// rule: Line of the log
pub fn lines_are_read_back()
    ensures { (note : NoteOf) → IsNote note → IsLineReadBack note }
{}

/// A log has one list of notes alone: nobody can forge a line, or a part of one.
// rule: Line of the log
pub fn a_log_has_one_reading()
    ensures { (notes others : List NoteOf)
        → AllByRecursion IsNote notes → AllByRecursion IsNote others
        → log notes ≡ log others → notes ≡ others }
{
    written_peers();
}
