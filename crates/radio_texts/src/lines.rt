//! The ends of lines.
ghost use Rattle.std.specs.Prelude.{◌≡◌};
ghost use Rattle.radio_texts.specs.Lines.{without_return};

/// A line without one carriage return at its end, if it has one: lines that end with CR LF lose both.
pub fn without_return(line: &[u8]) -> &[u8]
    ensures { result.now ≡ without_return line.now }
{
    match line {
        [front @ .., b'\r'] => front,
        _ => line,
    }
}
