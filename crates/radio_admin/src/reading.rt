//! The command that a target asks for.
ghost use Rattle.std.specs.Prelude.{◌≡◌, ◌⊎◌, IfOk};
ghost use Rattle.percent_encoding.specs.Percent.{percent_decode as decoded_path};
ghost use Rattle.std.specs.Option.{option_map};
ghost use Rattle.std.specs.String.{string_bytes};
ghost use Rattle.radio_admin.specs.Commands.{add_user, command_at, command_in, command_of, users_command};
ghost use Rattle.radio_admin.specs.Arguments.{both};

use crate::arguments::{fallback_in, mount_in, number_in, title_in, user_in};
use crate::query::argument;
use crate::{
    AdminFault, Command, CommandKind, Kill, MoveArguments, NewFallback, NewTitle, NewUser, OldUser,
    OutOfMemory, RawText,
};
use percent_encoding::percent_decode;
use radio_values::MountName;
use std::alloc::Global;

/// Returns the path that the path of a target encodes: each `%` with two hexadecimal digits is the byte that they
/// write (RFC 3986, section 2.1). Any other `%` stays, and so does `+`. The bytes need not be UTF-8.
// rule: Percent decoding
pub fn read_path(alloc: Global, path: &[u8]) -> Result<Vec<u8>, OutOfMemory>
    ensures { IfOk result (λ bytes. bytes.items ≡ decoded_path path.now) }
{
    let mut bytes = Vec::new(alloc);
    percent_decode(path).append_to(&mut bytes)?;
    Ok(bytes)
}

/// The command that a path, as [`read_path`] gives it, and a query, as it was sent, ask for.
///
/// The first argument of a name counts. Names and values are form decoded (WHATWG URL Standard, section 5.1): `+` is a
/// space, escapes are decoded, and what is not UTF-8 becomes U+FFFD. An argument that is not of its form counts as absent.
///
/// `NoCommand` comes exactly if the path names no command, and `MissingArgument` exactly if an argument of its
/// command is missing.
// rule: No command; Missing argument; Metadata
#[tactic(auto, unfolding(crate::specs::Commands::command_in))]
pub fn read_command(alloc: Global, path: &[u8], query: &[u8]) -> Result<Command, AdminFault>
    ensures { (result ≡ Err AdminFault.OutOfMemory) ⊎ (result ≡ command_in path.now query.now) }
{
    let Some(kind) = CommandKind::at(path) else {
        return Err(AdminFault::NoCommand);
    };
    match mount_in(alloc, "mount", query) {
        Ok(mount) => command_at(alloc, kind, &mount, query),
        Err(_) => Err(AdminFault::OutOfMemory),
    }
}

/// The command of a kind, with its arguments, of which `mount` has been read.
fn command_at(
    alloc: Global,
    kind: CommandKind,
    mount: &Option<MountName>,
    query: &[u8],
) -> Result<Command, AdminFault>
    ensures { (result ≡ Err AdminFault.OutOfMemory) ⊎ (result ≡ command_at (Some kind) mount.now query.now) }
{
    match command_of(alloc, kind, *mount, query) {
        Ok(Some(command)) => Ok(command),
        Ok(None) => Err(AdminFault::MissingArgument(kind, *mount)),
        Err(_) => Err(AdminFault::OutOfMemory),
    }
}

/// The command of a kind, with its arguments, of which `mount` has been read; `None` if one is missing.
fn command_of(
    alloc: Global,
    kind: CommandKind,
    mount: Option<MountName>,
    query: &[u8],
) -> Result<Option<Command>, OutOfMemory>
    ensures { IfOk result (λ command. command ≡ command_of kind mount query.now) }
{
    match kind {
        CommandKind::Status => Ok(Some(Command::Status)),
        CommandKind::Stats => Ok(Some(Command::Stats)),
        CommandKind::ListMounts => Ok(Some(Command::ListMounts)),
        CommandKind::ListClients => Ok(list_clients(mount)),
        CommandKind::MoveClients => Ok(move_clients(mount, mount_in(alloc, "destination", query)?)),
        CommandKind::KillClient => Ok(kill_client(mount, number_in(alloc, "id", query)?)),
        CommandKind::KillSource => Ok(kill_source(mount)),
        CommandKind::Metadata => Ok(set_title(mount, title_in(alloc, query)?)),
        CommandKind::Fallbacks => Ok(set_fallback(mount, fallback_in(alloc, "fallback", query)?)),
        CommandKind::StreamList => Ok(Some(Command::StreamList)),
        CommandKind::Users => change_users(alloc, mount, query),
    }
}

fn list_clients(mount: Option<MountName>) -> Option<Command>
    ensures { result ≡ option_map (λ m. Command.ListClients m) mount }
{
    let mount = mount?;
    Some(Command::ListClients(mount))
}

fn kill_source(mount: Option<MountName>) -> Option<Command>
    ensures { result ≡ option_map (λ m. Command.KillSource m) mount }
{
    let mount = mount?;
    Some(Command::KillSource(mount))
}

fn move_clients(mount: Option<MountName>, destination: Option<MountName>) -> Option<Command>
    ensures { result ≡ both (λ m to. Command.MoveClients (record { mount = m; destination = to })) mount destination }
{
    let (mount, destination) = (mount?, destination?);
    Some(Command::MoveClients(MoveArguments { mount, destination }))
}

fn kill_client(mount: Option<MountName>, id: Option<u64>) -> Option<Command>
    ensures { result ≡ both (λ m n. Command.KillClient (record { mount = m; id = n })) mount id }
{
    let (mount, id) = (mount?, id?);
    Some(Command::KillClient(Kill { mount, id }))
}

fn set_title(mount: Option<MountName>, title: Option<String>) -> Option<Command>
    ensures { result ≡ both (λ m text. Command.Metadata (record { mount = m; title = text })) mount (option_map (λ text. string_bytes text) title) }
{
    let (mount, title) = (mount?, RawText::new(title?));
    Some(Command::Metadata(NewTitle { mount, title }))
}

fn set_fallback(mount: Option<MountName>, fallback: Option<Option<MountName>>) -> Option<Command>
    ensures { result ≡ both (λ m next. Command.Fallbacks (record { mount = m; fallback = next })) mount fallback }
{
    let (mount, fallback) = (mount?, fallback?);
    Some(Command::Fallbacks(NewFallback { mount, fallback }))
}

fn change_users(
    alloc: Global,
    mount: Option<MountName>,
    query: &[u8],
) -> Result<Option<Command>, OutOfMemory>
    ensures { IfOk result (λ command. command ≡ command_of CommandKind.Users mount query.now) }
{
    match argument(alloc, "action", query)? {
        Some(action) => users_command(alloc, action.as_str(), mount, query),
        None => Ok(None),
    }
}

fn users_command(
    alloc: Global,
    action: &str,
    mount: Option<MountName>,
    query: &[u8],
) -> Result<Option<Command>, OutOfMemory>
    ensures { IfOk result (λ command. command ≡ users_command action.now mount query.now) }
{
    if action == "add" {
        let user = user_in(alloc, query)?;
        Ok(add_user(mount, user, argument(alloc, "password", query)?))
    } else if action == "delete" {
        Ok(delete_user(mount, user_in(alloc, query)?))
    } else {
        Ok(None)
    }
}

fn add_user(
    mount: Option<MountName>,
    user: Option<String>,
    password: Option<String>,
) -> Option<Command>
    ensures { result ≡ add_user mount (option_map (λ text. string_bytes text) user) (option_map (λ text. string_bytes text) password) }
{
    let (mount, user, password) = (mount?, RawText::new(user?), RawText::new(password?));
    Some(Command::AddUser(NewUser {
        mount,
        user,
        password,
    }))
}

fn delete_user(mount: Option<MountName>, user: Option<String>) -> Option<Command>
    ensures { result ≡ both (λ m name. Command.DeleteUser (record { mount = m; user = name })) mount (option_map (λ text. string_bytes text) user) }
{
    let (mount, user) = (mount?, RawText::new(user?));
    Some(Command::DeleteUser(OldUser { mount, user }))
}
