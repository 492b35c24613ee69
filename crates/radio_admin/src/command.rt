//! Commands, with what each is asked with.
ghost use Rattle.std.specs.Prelude.{◌≡◌};
ghost use Rattle.radio_admin.specs.Commands.{kind_in, mount_named};

use crate::CommandKind;
use radio_values::MountName;
use std::marker::Model;

/// A command, with its arguments.
#[derive(Drop)]
pub enum Command {
    /// Asks for what everybody may see of the station.
    Status,
    /// Asks what the server does as a whole.
    Stats,
    /// Asks for the live mounts.
    ListMounts,
    /// Asks for the listeners of this mount.
    ListClients(MountName),
    /// Moves the listeners of a mount to another.
    MoveClients(MoveArguments),
    /// Finishes one listener.
    KillClient(Kill),
    /// Ends the session of this mount.
    KillSource(MountName),
    /// Sets a mount's title.
    Metadata(NewTitle),
    /// Sets the mount that a mount's listeners fall back to, or takes it away.
    Fallbacks(NewFallback),
    /// Asks for the names of the mounts that a relay may pull.
    StreamList,
    /// Lets a user listen to a mount.
    AddUser(NewUser),
    /// Takes a user of a mount away.
    DeleteUser(OldUser),
}

/// The listeners of `mount` go to `destination`.
#[derive(Clone, Copy)]
pub struct MoveArguments {
    pub mount: MountName,
    pub destination: MountName,
}

/// The listener of the number `id` at `mount` is finished.
#[derive(Clone, Copy)]
pub struct Kill {
    pub mount: MountName,
    pub id: u64,
}

/// The title of `mount` is to be `title`.
#[derive(Drop)]
pub struct NewTitle {
    pub mount: MountName,
    pub title: RawText,
}

/// The listeners of `mount` are to fall back to `fallback`; to none where it is `None`.
#[derive(Clone, Copy)]
pub struct NewFallback {
    pub mount: MountName,
    pub fallback: Option<MountName>,
}

/// The user of the name `user` may listen to `mount` with this password, which may be empty.
#[derive(Drop)]
pub struct NewUser {
    pub mount: MountName,
    pub user: RawText,
    pub password: RawText,
}

/// The user of the name `user` may listen to `mount` no more.
#[derive(Drop)]
pub struct OldUser {
    pub mount: MountName,
    pub user: RawText,
}

/// A text as it was sent, decoded and UTF-8, but not cleaned. A title may have any bytes and any length, line ends and
/// zero bytes too: `radio_values::clean_title` makes of it what may be sent to listeners. The name of a user has the form
/// that it has in a file of users.
///
/// In contracts it is its bytes.
#[derive(Drop)]
pub struct RawText {
    text: String,
}

impl Model for RawText {
    ghost use Rattle.std.specs.Prelude.{ℕ, List};
    ghost use Rattle.std.specs.String.{string_bytes};

    ghost Value = { List ℕ };

    ghost view = { λ sent. string_bytes sent.text };
}

impl RawText {
    ghost use Rattle.std.specs.String.{string_bytes};

    pub(crate) fn new(text: String) -> RawText
        ensures { result ≡ string_bytes text }
    {
        RawText { text }
    }

    /// Its bytes.
    pub fn as_bytes(&self) -> &[u8]
        ensures { result.now ≡ self.now }
    {
        self.text.as_bytes()
    }
}

impl Command {
    /// Which command it is.
    pub fn kind(&self) -> CommandKind
        ensures { result ≡ kind_in self.now }
    {
        match self {
            Command::Status => CommandKind::Status,
            Command::Stats => CommandKind::Stats,
            Command::ListMounts => CommandKind::ListMounts,
            Command::ListClients(_) => CommandKind::ListClients,
            Command::MoveClients(_) => CommandKind::MoveClients,
            Command::KillClient(_) => CommandKind::KillClient,
            Command::KillSource(_) => CommandKind::KillSource,
            Command::Metadata(_) => CommandKind::Metadata,
            Command::Fallbacks(_) => CommandKind::Fallbacks,
            Command::StreamList => CommandKind::StreamList,
            Command::AddUser(_) | Command::DeleteUser(_) => CommandKind::Users,
        }
    }

    /// The mount that it names; `None` for the four that name none.
    pub fn mount(&self) -> Option<MountName>
        ensures { result ≡ mount_named self.now }
    {
        match self {
            Command::Status | Command::Stats | Command::ListMounts | Command::StreamList => None,
            Command::ListClients(mount) | Command::KillSource(mount) => Some(*mount),
            Command::MoveClients(asked) => Some(asked.mount),
            Command::KillClient(asked) => Some(asked.mount),
            Command::Metadata(asked) => Some(asked.mount),
            Command::Fallbacks(asked) => Some(asked.mount),
            Command::AddUser(asked) => Some(asked.mount),
            Command::DeleteUser(asked) => Some(asked.mount),
        }
    }
}
