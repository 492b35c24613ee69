//! What the path of a command and its arguments ask for.

ghost use Rattle.std.specs.Prelude.{◌≡◌, IfOk};
ghost use Rattle.radio_admin.specs.declared.command.Command.{Command as ReadOf};
ghost use Rattle.radio_session.specs.Commands.{asked_in, asked_with, lacking};

use crate::OutOfMemory;
use bytes::Bytes;
use radio_admin::{AdminFault, Command as Read, CommandKind, NewUser, read_command};
use radio_events::{Asked, Command, Listing, OpenedBy};
use radio_values::{MountName, Title};
use std::alloc::{AllocError, Global};

/// Returns what a decoded path and its query ask for. `OutOfMemory` if memory was
/// refused.
pub(super) fn asked_in(alloc: Global, path: &[u8], query: &[u8]) -> Result<Asked, OutOfMemory>
    ensures { IfOk result (λ asked. asked ≡ asked_in path.now query.now) }
{
    // pages ask for the status again and again, and it has no argument
    if path == CommandKind::Status.path().as_bytes() {
        return Ok(Asked::Listing(Listing::Status));
    }
    match read_command(alloc, path, query) {
        Ok(command) => asked_with(alloc, &command),
        Err(AdminFault::NoCommand) => Ok(Asked::NoCommand),
        Err(AdminFault::MissingArgument(kind, mount)) => Ok(lacking(kind, mount)),
        Err(AdminFault::OutOfMemory) => Err(AllocError),
    }
}

/// Returns what a command that was read asks for. `OutOfMemory` if memory was refused.
fn asked_with(alloc: Global, command: &Read) -> Result<Asked, OutOfMemory>
    ensures { IfOk result (λ asked. asked ≡ asked_with command.now) }
{
    match command {
        Read::MoveClients(sent) => Ok(Asked::Command(Command::MoveClients {
            mount: sent.mount,
            destination: sent.destination,
        })),
        Read::KillClient(sent) => Ok(Asked::Command(Command::KillClient {
            mount: sent.mount,
            listener: sent.id,
        })),
        Read::KillSource(mount) => Ok(Asked::Command(Command::KillSource { mount: *mount })),
        Read::Metadata(sent) => Ok(Asked::Command(Command::SetTitle {
            mount: sent.mount,
            title: Title::clean(alloc, sent.title.as_bytes())?,
        })),
        Read::Fallbacks(sent) => Ok(Asked::Command(Command::SetFallback {
            mount: sent.mount,
            fallback: sent.fallback,
        })),
        Read::AddUser(sent) => add_user(alloc, sent),
        Read::DeleteUser(sent) => Ok(Asked::Command(Command::DeleteUser {
            mount: sent.mount,
            user: Bytes::copy_from_slice(alloc, sent.user.as_bytes())?,
        })),
        Read::Status => Ok(Asked::Listing(Listing::Status)),
        Read::Stats => Ok(Asked::Listing(Listing::Stats)),
        Read::ListMounts => Ok(Asked::Listing(Listing::Mounts)),
        Read::ListClients(mount) => Ok(Asked::Listing(Listing::Clients(*mount))),
        Read::StreamList => Ok(Asked::Listing(Listing::Streams)),
    }
}

fn add_user(alloc: Global, sent: &NewUser) -> Result<Asked, OutOfMemory>
    ensures { IfOk result (λ asked. asked ≡ asked_with (ReadOf.AddUser sent.now)) }
{
    Ok(Asked::Command(Command::AddUser {
        mount: sent.mount,
        user: Bytes::copy_from_slice(alloc, sent.user.as_bytes())?,
        password: Bytes::copy_from_slice(alloc, sent.password.as_bytes())?,
    }))
}

/// Returns the request of a command of this kind that lacks an argument. `mount` is the mount that it names, if any.
fn lacking(kind: CommandKind, mount: Option<MountName>) -> Asked
    ensures { result ≡ lacking kind mount }
{
    match kind {
        CommandKind::Metadata | CommandKind::Fallbacks => {
            Asked::MissingArgument(OpenedBy::Source(mount))
        }
        CommandKind::Status
        | CommandKind::Stats
        | CommandKind::ListMounts
        | CommandKind::ListClients
        | CommandKind::MoveClients
        | CommandKind::KillClient
        | CommandKind::KillSource
        | CommandKind::StreamList
        | CommandKind::Users => Asked::MissingArgument(OpenedBy::Admin),
    }
}
