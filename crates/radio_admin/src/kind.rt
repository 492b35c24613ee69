//! Which commands there are, and their paths.
ghost use Rattle.std.specs.Prelude.{◌≡◌};
ghost use Rattle.std.specs.List.{find};
ghost use Rattle.std.specs.Option.{option_copied};
ghost use Rattle.std.specs.Str.{bytes_eq};
ghost use Rattle.radio_admin.specs.Kinds.{command_path, kind_of, kinds};

use std::fmt;

/// Which command it is. `Display` writes its path.
#[derive(Clone, Copy, Debug, PartialEq, Eq)]
pub enum CommandKind {
    /// What everybody may see of the station.
    Status,
    /// What the server does as a whole.
    Stats,
    /// The live mounts.
    ListMounts,
    /// The listeners of a mount.
    ListClients,
    /// Moves the listeners of a mount to another.
    MoveClients,
    /// Finishes one listener.
    KillClient,
    /// Ends a mount's session.
    KillSource,
    /// Sets a mount's title.
    Metadata,
    /// Sets the mount that a mount's listeners fall back to.
    Fallbacks,
    /// The names of the mounts that a relay may pull.
    StreamList,
    /// Adds a user of a mount, or takes one away.
    Users,
}

/// Every command, in the order of the table in `docs/FORMATS.md`.
const KINDS: [CommandKind; 11] = [
    CommandKind::Status,
    CommandKind::Stats,
    CommandKind::ListMounts,
    CommandKind::ListClients,
    CommandKind::MoveClients,
    CommandKind::KillClient,
    CommandKind::KillSource,
    CommandKind::Metadata,
    CommandKind::Fallbacks,
    CommandKind::StreamList,
    CommandKind::Users,
];

impl CommandKind {
    /// Its path, as [`read_path`](crate::read_path) gives it.
    pub fn path(self) -> &'static str
        ensures { result.now ≡ command_path self }
    {
        match self {
            CommandKind::Status => "/status.json",
            CommandKind::Stats => "/admin/stats",
            CommandKind::ListMounts => "/admin/listmounts",
            CommandKind::ListClients => "/admin/listclients",
            CommandKind::MoveClients => "/admin/moveclients",
            CommandKind::KillClient => "/admin/killclient",
            CommandKind::KillSource => "/admin/killsource",
            CommandKind::Metadata => "/admin/metadata",
            CommandKind::Fallbacks => "/admin/fallbacks",
            CommandKind::StreamList => "/admin/streamlist.txt",
            CommandKind::Users => "/admin/users",
        }
    }

    /// The command that a path names; `None` if it names none. Paths are compared byte by byte.
    #[tactic(auto, unfolding(crate::specs::Kinds::kind_of))]
    pub fn at(path: &[u8]) -> Option<CommandKind>
        ensures { result ≡ kind_of path.now }
    {
        find_kind(path).copied()
    }
}

fn find_kind(path: &[u8]) -> Option<&'static CommandKind>
    ensures { option_copied result ≡ find (λ kind. bytes_eq path.now (command_path kind)) kinds }
{
    KINDS.iter().find(|kind| path == kind.path().as_bytes())
}

impl fmt::Display for CommandKind {
    ghost use Rattle.std.specs.Prelude.{Some};

    ghost output = { λ kind. Some (command_path kind) };

    fn fmt<W: fmt::Write>(&self, f: &mut fmt::Formatter<W>) -> fmt::Result {
        f.write_str(self.path())
    }
}
