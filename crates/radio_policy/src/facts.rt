use crate::Rule;

/// What is asked for, with what was looked up in the server for it: one answer for each condition of
/// its rules, so that none can be forgotten.
#[derive(Clone, Copy)]
pub enum Action {
    /// A connection arrives.
    Arrive(ArriveFacts),
    /// A source wants to feed the mount of a path; `None` if the path names no mount.
    Source(Option<SourceFacts>),
    /// A source delivers a block.
    Push(PushFacts),
    /// A listener wants to hear the mount of a path; `None` if the path names no mount.
    Listen(Option<ListenFacts>),
    /// A client gives the command of a path; `None` if the path names no command.
    Command(Option<CommandFacts>),
    /// A relay has been answered by its master, and wants to feed the mount of a path; `None` where
    /// the path names no mount.
    RelayUp(Option<RelayFacts>),
}

/// What is looked up for a connection that arrives.
#[derive(Clone, Copy)]
pub struct ArriveFacts {
    /// The deny list has the peer's address.
    pub address_is_denied: bool,
    /// There is no allow list, or it has the peer's address.
    pub address_is_allowed: bool,
    /// As many clients are there as there may be.
    pub clients_are_full: bool,
    /// The next number of a client would pass the largest of 64 bits.
    pub number_is_spent: bool,
}

/// What is looked up for a source that wants to feed a mount.
#[derive(Clone, Copy)]
pub struct SourceFacts {
    /// The pair that was sent is the one of the mount's source.
    pub is_source_pair: bool,
    /// As many sources are live as may be.
    pub sources_are_full: bool,
    /// The mount has a live source.
    pub mount_is_live: bool,
    /// The content type is one that the server does not carry.
    pub type_is_refused: bool,
}

/// What is looked up for a relay that wants to feed a mount. It sends no pair.
#[derive(Clone, Copy)]
pub struct RelayFacts {
    /// As many sources are live as may be.
    pub sources_are_full: bool,
    /// The mount has a live source.
    pub mount_is_live: bool,
    /// The content type is one that the server does not carry.
    pub type_is_refused: bool,
    /// The next number of a relay or client would pass the largest of 64 bits.
    pub number_is_spent: bool,
}

/// What is looked up for a source that delivers a block.
#[derive(Clone, Copy)]
pub struct PushFacts {
    /// The next number of a byte would pass the largest of 64 bits.
    pub number_is_spent: bool,
}

/// What is looked up for a listener that wants to hear a mount.
#[derive(Clone, Copy)]
pub struct ListenFacts {
    /// The server knows the mount: it is in the settings, a relay feeds it, or it is live.
    pub mount_is_known: bool,
    /// The mount has no users, or they accept the pair that was sent.
    pub users_accept: bool,
    /// The mount lets each user sit there once, and one who sits there sent the user that was sent.
    pub user_is_twice: bool,
    /// The rule that stops the walk from the mount asked for, if one does.
    pub walk_stops: Option<Rule>,
}

/// What is looked up for a client who gives a command.
#[derive(Clone, Copy)]
pub struct CommandFacts {
    /// Who may give the command, and whether this client may.
    pub access: CommandAccess,
    /// What the command needs, and whether it is there.
    pub needs: CommandNeeds,
}

/// Who may give a command.
#[derive(Clone, Copy)]
pub enum CommandAccess {
    /// Everybody.
    Everybody,
    /// Who sends a pair that opens it.
    Pair {
        /// Whose pair opens the command, in addition to the admin's.
        opener: Opener,
        /// The pair that was sent is one that opens it.
        is_sent: bool,
    },
}

/// Whose pair opens the command, in addition to the admin's.
#[derive(Clone, Copy, Debug, PartialEq, Eq)]
pub enum Opener {
    /// Nobody's: the admin's alone.
    Admin,
    /// That of the mount's source.
    Source,
    /// That of the relays.
    Relay,
}

/// What a command needs, and whether it is there.
#[derive(Clone, Copy)]
pub enum CommandNeeds {
    /// An argument, which is missing.
    Argument,
    /// Nothing.
    Nothing,
    /// A live mount.
    Mount {
        is_live: bool,
    },
    /// A live mount, and another one to which its listeners can go.
    Destination(DestinationFacts),
    /// A live mount, and a listener who sits there.
    Client {
        mount_is_live: bool,
        sits_there: bool,
    },
    /// A mount that has users.
    Users {
        has_users: bool,
    },
    /// A mount that has users, and this one among them.
    User {
        has_users: bool,
        is_listed: bool,
    },
}

/// What is looked up for a command that moves listeners.
#[derive(Clone, Copy)]
pub struct DestinationFacts {
    /// The mount that they are to leave has a live source.
    pub mount_is_live: bool,
    /// The mount to which they are to go has one.
    pub destination_is_live: bool,
    /// These are one mount.
    pub is_same_mount: bool,
}
