//! Why a relay has ended, or did not come up.

ghost use Rattle.std.specs.Prelude.{◌≡◌};
ghost use Rattle.radio_events.specs.declared.state.Ending.TheVariants.{BadPull};
ghost use Rattle.radio_masters.specs.Ends.{end_by, keeps_place};
ghost use Rattle.radio_masters.specs.RelayFacts.{relay_mount_word};

use radio_notes::mount_word_by;
use radio_policy::Rule;
use radio_session::Ending;
use std::fmt;

/// Why a relay has ended, or could not be started. As text it is the word for it in the log.
#[derive(Clone, Copy, Debug, PartialEq, Eq)]
pub enum RelayEnd {
    /// Its master's name is not known.
    NoAddress,
    /// Nothing could be connected, or no head of an answer has come in time.
    NoAnswer,
    /// Its master answers with this status (RFC 9110, section 15), which is not 200.
    Status(u16),
    /// The master has closed, or the connection has failed.
    Left,
    /// By the server, or by what the master sent.
    By(Ending),
    /// It is not wished any more.
    NotWished,
    /// Memory was refused.
    OutOfMemory,
}

impl RelayEnd {
    /// Returns why a relay has ended, by the word that shut its pull and the status of its master's answer. `None` is the status
    /// if no whole head of the answer has come.
    // rule: Failures of relays
    pub fn of(ending: Ending, status: Option<u16>) -> RelayEnd
        ensures { result ≡ end_by ending status }
    {
        match ending {
            Ending::BadPull => of_answer(status),
            Ending::Done | Ending::By(_) | Ending::BadBody => RelayEnd::By(ending),
        }
    }

    /// Whether a relay that did not come up keeps its place until it may be tried again: the server has no room for more
    /// sources, so no other would come up in its place.
    // rule: Keeping a place
    pub fn keeps_place(self) -> bool
        ensures { result ≡ keeps_place self }
    {
        matches!(self, RelayEnd::By(Ending::By(Rule::TooManySources)))
    }

    /// The word for the end of its mount.
    pub(crate) fn word_of_mount(self) -> &'static str
        ensures { result.now ≡ relay_mount_word self }
    {
        match self {
            RelayEnd::By(Ending::By(rule)) => mount_word_by(rule),
            RelayEnd::By(Ending::Done)
            | RelayEnd::By(Ending::BadBody)
            | RelayEnd::By(Ending::BadPull)
            | RelayEnd::NoAddress
            | RelayEnd::NoAnswer
            | RelayEnd::Status(_)
            | RelayEnd::Left
            | RelayEnd::NotWished
            | RelayEnd::OutOfMemory => "source-left",
        }
    }
}

/// Why a relay has ended whose master's answer cannot be pulled, and has this status.
fn of_answer(status: Option<u16>) -> RelayEnd
    ensures { result ≡ end_by BadPull status }
{
    match status {
        Some(status) if status != 200 => RelayEnd::Status(status),
        Some(_) | None => RelayEnd::By(Ending::BadPull),
    }
}

impl fmt::Display for RelayEnd {
    ghost use Rattle.std.specs.Prelude.{Some};
    ghost use Rattle.radio_masters.specs.RelayFacts.{relay_word};

    ghost output = { λ end. Some (relay_word end) };

    fn fmt<W: fmt::Write>(&self, to: &mut fmt::Formatter<W>) -> fmt::Result {
        match self {
            RelayEnd::NoAddress => to.write_str("no-address"),
            RelayEnd::NoAnswer => to.write_str("no-answer"),
            RelayEnd::Status(status) => write!(to, "status-{status}"),
            RelayEnd::Left => to.write_str("left"),
            RelayEnd::By(ending) => to.write_str(ending.word()),
            RelayEnd::NotWished => to.write_str("not-wished"),
            RelayEnd::OutOfMemory => to.write_str("out-of-memory"),
        }
    }
}
