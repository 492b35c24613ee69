//! The user agent that a head names.

ghost use Rattle.std.specs.Prelude.{◌≡◌};
ghost use Rattle.std.specs.Option.{option_copied};
ghost use Rattle.radio_texts.specs.Cuts.{fields_at};
ghost use Rattle.radio_notes.specs.Agents.{agent_among, agent_of_line};

use radio_texts::{cut, without_blanks, without_return};

/// What its line begins with.
const NAME: &[u8] = b"user-agent:";

/// The user agent that a head names which a session has read (RFC 9110, section 10.1.5): the first counts, and it is empty
/// if there is none.
pub(crate) fn agent_in(head: &[u8]) -> &[u8]
    ensures { result.now ≡ agent_among (fields_at 10 head.now) }
{
    let mut rest = head;
    'lines: while let Some((line, later)) = cut(rest, b'\n') {
        if let Some(agent) = agent_of_line(line) {
            return agent;
        }
        rest = later;
    }
    match agent_of_line(rest) {
        Some(agent) => agent,
        None => b"",
    }
}

/// The user agent that a line names.
fn agent_of_line(line: &[u8]) -> Option<&[u8]>
    ensures { option_copied result ≡ agent_of_line line.now }
{
    if line.len() < NAME.len() {
        return None;
    }
    let (name, value) = line.split_at(NAME.len());
    if !name.eq_ignore_ascii_case(NAME) {
        return None;
    }
    Some(without_blanks(without_return(value)))
}
