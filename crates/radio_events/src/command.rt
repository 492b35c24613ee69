//! What a client asks for who gives a command, or wants to be shown something of the station.

use bytes::Bytes;
use radio_creds::Pair;
use radio_values::{MountName, Title};

/// What a client sends who gives a command.
#[derive(Drop)]
pub struct CommandRequest {
    /// The number of the client.
    pub id: u64,
    /// What its path and its arguments ask for.
    pub asked: Asked,
    /// The user and the password that it sends, if it does.
    pub pair: Option<Pair>,
}

/// What the path of a command and its arguments ask for.
#[derive(Drop)]
pub enum Asked {
    /// The path names no command.
    NoCommand,
    /// An argument of the command is missing, or is not of its form; the command would be opened so.
    MissingArgument(OpenedBy),
    /// To be shown something of the station.
    Listing(Listing),
    /// A command, with its arguments.
    Command(Command),
}

/// What of the station a client asks to be shown.
#[derive(Clone, Copy)]
pub enum Listing {
    /// What everybody may see: the live mounts that are not hidden.
    Status,
    /// What the server does as a whole, and all live mounts.
    Stats,
    /// All live mounts, and where their listeners fall back to.
    Mounts,
    /// The listeners of this mount.
    Clients(MountName),
    /// The names of the mounts that a relay may pull: the live ones that are not hidden.
    Streams,
}

/// Whose pair opens a command, in addition to the admin's.
#[derive(Clone, Copy)]
pub enum OpenedBy {
    /// Nobody's: the admin's alone.
    Admin,
    /// That of the source of the mount that was named; where none was, that of a mount without
    /// settings of its own.
    Source(Option<MountName>),
}

/// A command, with its arguments.
#[derive(Drop)]
pub enum Command {
    /// The listeners of a mount go to another.
    MoveClients {
        mount: MountName,
        destination: MountName,
    },
    /// The listener of this number at the mount is finished.
    KillClient {
        mount: MountName,
        listener: u64,
    },
    /// The session of the mount ends, and its source is finished.
    KillSource {
        mount: MountName,
    },
    /// What the source of the mount feeds has this title from now on.
    SetTitle {
        mount: MountName,
        title: Title,
    },
    /// The listeners of the mount fall back to that one from now on; to none where it is `None`.
    SetFallback {
        mount: MountName,
        fallback: Option<MountName>,
    },
    /// The users of the mount let this one in with this password from now on, and no more as they did before.
    AddUser {
        mount: MountName,
        user: Bytes,
        password: Bytes,
    },
    /// The users of the mount let this one in no more.
    DeleteUser {
        mount: MountName,
        user: Bytes,
    },
}
