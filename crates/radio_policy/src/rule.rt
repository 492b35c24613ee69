ghost use Rattle.std.specs.Prelude.{◌≡◌};

use std::fmt;

/// The status of a denial's answer (RFC 9110, section 15.5).
#[derive(Clone, Copy, Debug, PartialEq, Eq)]
pub enum Status {
    /// 400: what was sent cannot be served.
    BadRequest,
    /// 401: the pair that was sent, or none, does not open it.
    Unauthorized,
    /// 403: the server is not willing.
    Forbidden,
    /// 404: there is no such mount, command or client.
    NotFound,
}

/// A rule by which something is denied, or by which a client was finished.
#[derive(Clone, Copy, Debug, PartialEq, Eq)]
pub enum Rule {
    /// The deny list has the peer's address.
    AddressDenied,
    /// There is an allow list, and it does not have the peer's address.
    AddressNotAllowed,
    /// As many clients are there as there may be.
    TooManyClients,
    /// The path is no mount name.
    BadMount,
    /// The pair that was sent, or none, is not that of the mount's source; nor, for a command, that
    /// of the admin.
    SourcePassword,
    /// As many sources are live as may be.
    TooManySources,
    /// The mount has a live source already.
    MountInUse,
    /// The content type is one that the server does not carry.
    ContentType,
    /// The mount has users, and they do not accept the pair that was sent, or none.
    ListenerPassword,
    /// The server does not know the mount; or it is not live, for a command.
    NoMount,
    /// The user that was sent sits at the mount, where each may sit once.
    UserTwice,
    /// The mount has no live source.
    NotLive,
    /// As many sit at the mount as may.
    MountFull,
    /// A walk would look at more mounts than it may.
    FallbackDepth,
    /// The path names no command.
    NoCommand,
    /// The pair that was sent, or none, is not that of the admin, which alone opens the command.
    AdminPassword,
    /// The pair that was sent, or none, is neither that of the relays nor that of the admin.
    RelayPassword,
    /// An argument of the command is missing, or is not of its form.
    MissingArgument,
    /// The mount to which listeners are to go has no live source.
    NoDestination,
    /// The mount to which listeners are to go is the one that they are to leave.
    SameMount,
    /// No listener of that number sits at that mount.
    NoClient,
    /// The mount has no users in the settings.
    NoUsers,
    /// The mount's users have none of this name.
    NoUser,
    /// A count would pass the largest number of 64 bits.
    NumbersSpent,
    /// What came is no head of a request.
    BadHead,
    /// The method is none that the server serves.
    BadMethod,
    /// A listener is more than the queue's size behind its stream.
    Lagged,
    /// A listener has sat as long as its mount allows.
    TimeOver,
    /// A client has asked for nothing in the time that it has for it.
    HeaderTimeout,
    /// A source has sent nothing in the time that it has for it.
    SourceSilent,
    /// A command has finished the listener.
    Killed,
    /// A command has ended the source's session.
    SourceKilled,
}

/// The names of the rules, in the order in which `Rule` has them.
const WORDS: [&str; 32] = [
    "address-denied",
    "address-not-allowed",
    "too-many-clients",
    "bad-mount",
    "source-password",
    "too-many-sources",
    "mount-in-use",
    "content-type",
    "listener-password",
    "no-mount",
    "user-twice",
    "not-live",
    "mount-full",
    "fallback-depth",
    "no-command",
    "admin-password",
    "relay-password",
    "missing-argument",
    "no-destination",
    "same-mount",
    "no-client",
    "no-users",
    "no-user",
    "numbers-spent",
    "bad-head",
    "bad-method",
    "lagged",
    "time-over",
    "header-timeout",
    "source-silent",
    "killed",
    "source-killed",
];

impl Rule {
    ghost use Rattle.radio_policy.specs.Words.{word_of, status_of};

    /// The rule's name, as answers and transcripts have it.
    // rule: Answer to a denial
    pub fn word(self) -> &'static str
        ensures { result.now ≡ word_of self }
    {
        WORDS[self as usize]
    }

    /// The status of the answer to a denial by this rule; `None` if it has no answer.
    // rule: Answer to a denial
    pub fn status(self) -> Option<Status>
        ensures { result ≡ status_of self }
    {
        match self {
            Rule::AddressDenied
            | Rule::AddressNotAllowed
            | Rule::Lagged
            | Rule::TimeOver
            | Rule::HeaderTimeout
            | Rule::SourceSilent
            | Rule::Killed
            | Rule::SourceKilled => None,
            Rule::BadMount
            | Rule::BadHead
            | Rule::BadMethod
            | Rule::MissingArgument
            | Rule::SameMount => Some(Status::BadRequest),
            Rule::SourcePassword
            | Rule::ListenerPassword
            | Rule::AdminPassword
            | Rule::RelayPassword => Some(Status::Unauthorized),
            Rule::TooManyClients
            | Rule::TooManySources
            | Rule::MountInUse
            | Rule::ContentType
            | Rule::UserTwice
            | Rule::MountFull
            | Rule::NumbersSpent => Some(Status::Forbidden),
            Rule::NoMount
            | Rule::NotLive
            | Rule::FallbackDepth
            | Rule::NoCommand
            | Rule::NoDestination
            | Rule::NoClient
            | Rule::NoUsers
            | Rule::NoUser => Some(Status::NotFound),
        }
    }
}

impl fmt::Display for Rule {
    ghost use Rattle.std.specs.Prelude.{Some};
    ghost use Rattle.radio_policy.specs.Words.{word_of};

    ghost output = { λ rule. Some (word_of rule) };

    fn fmt<W: fmt::Write>(&self, f: &mut fmt::Formatter<W>) -> fmt::Result {
        f.write_str(self.word())
    }
}
