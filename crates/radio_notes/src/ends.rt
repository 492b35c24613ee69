//! How a connection ends, and the words and codes that the log has for it.

ghost use Rattle.std.specs.Prelude.{◌≡◌};
ghost use Rattle.radio_notes.specs.Ends.{code_of, code_of_end, end_word, mount_word, mount_word_by};

use radio_events::Ending;
use radio_policy::{Rule, Status};

/// How a conversation has ended.
#[derive(Clone, Copy)]
pub enum End {
    /// As its session says.
    By(Ending),
    /// The bytes that wait to be written did not move for too long.
    Stalled,
    /// Memory was refused.
    NoMemory,
}

impl End {
    /// The status of the answer that says it (RFC 9110, section 15.5); 0 if none does.
    pub(crate) fn code(self) -> u16
        ensures { result ≡ code_of_end self }
    {
        match self {
            End::By(Ending::By(rule)) => code_of(rule),
            End::By(Ending::Done) | End::By(Ending::BadBody) | End::By(Ending::BadPull) => 0,
            End::Stalled | End::NoMemory => 0,
        }
    }
}

/// The word of an end. If none was noted, the peer has closed.
pub(crate) fn end_word(end: Option<End>) -> &'static str
    ensures { result.now ≡ end_word end }
{
    match end {
        Some(End::By(ending)) => ending.word(),
        Some(End::Stalled) => "stalled",
        Some(End::NoMemory) => "out-of-memory",
        None => "left",
    }
}

/// The word for the end of a mount whose source has ended so.
pub(crate) fn mount_word(end: Option<End>) -> &'static str
    ensures { result.now ≡ mount_word end }
{
    match end {
        Some(End::By(Ending::By(rule))) => mount_word_by(rule),
        Some(End::By(Ending::Done)) | Some(End::By(Ending::BadBody)) => "source-left",
        Some(End::By(Ending::BadPull)) | Some(End::Stalled) => "source-left",
        Some(End::NoMemory) | None => "source-left",
    }
}

/// Returns the word for the end of a mount whose source, or relay, was finished by this rule.
pub fn mount_word_by(rule: Rule) -> &'static str
    ensures { result.now ≡ mount_word_by rule }
{
    match rule {
        Rule::SourceSilent => "source-silent",
        Rule::SourceKilled => "source-killed",
        Rule::AddressDenied
        | Rule::AddressNotAllowed
        | Rule::TooManyClients
        | Rule::BadMount
        | Rule::SourcePassword
        | Rule::TooManySources
        | Rule::MountInUse
        | Rule::ContentType
        | Rule::ListenerPassword
        | Rule::NoMount
        | Rule::UserTwice
        | Rule::NotLive
        | Rule::MountFull
        | Rule::FallbackDepth
        | Rule::NoCommand
        | Rule::AdminPassword
        | Rule::RelayPassword
        | Rule::MissingArgument
        | Rule::NoDestination
        | Rule::SameMount
        | Rule::NoClient
        | Rule::NoUsers
        | Rule::NoUser
        | Rule::NumbersSpent
        | Rule::BadHead
        | Rule::BadMethod
        | Rule::Lagged
        | Rule::TimeOver
        | Rule::HeaderTimeout
        | Rule::Killed => "source-left",
    }
}

/// The status of the answer that says a denial by this rule (RFC 9110, section 15.5); 0 if none does.
pub(crate) fn code_of(rule: Rule) -> u16
    ensures { result ≡ code_of rule }
{
    match rule.status() {
        Some(Status::BadRequest) => 400,
        Some(Status::Unauthorized) => 401,
        Some(Status::Forbidden) => 403,
        Some(Status::NotFound) => 404,
        None => 0,
    }
}
