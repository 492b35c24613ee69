//! Whether requests for commands are equal.

ghost use Rattle.std.specs.Prelude.{◌≡◌, ◌↔◌, IsTrue};
ghost use Rattle.radio_events.specs.declared.command.Command.{Command as CommandOf};

use crate::same::values::{is_same_bytes, is_same_mount, is_same_name, is_same_pair};
use radio_events::{Asked, Command, CommandRequest, Listing, OpenedBy};
use radio_values::MountName;

pub(crate) fn is_same_request(a: &CommandRequest, b: &CommandRequest) -> bool
    ensures { IsTrue result ↔ a.now ≡ b.now }
{
    a.id == b.id && is_same_asked(&a.asked, &b.asked) && is_same_pair(&a.pair, &b.pair)
}

fn is_same_asked(a: &Asked, b: &Asked) -> bool
    ensures { IsTrue result ↔ a.now ≡ b.now }
{
    match a {
        Asked::NoCommand => matches!(b, Asked::NoCommand),
        Asked::MissingArgument(a) => matches!(b, Asked::MissingArgument(b) if is_same_opener(a, b)),
        Asked::Listing(a) => matches!(b, Asked::Listing(b) if is_same_listing(a, b)),
        Asked::Command(a) => matches!(b, Asked::Command(b) if is_same_command(a, b)),
    }
}

fn is_same_opener(a: &OpenedBy, b: &OpenedBy) -> bool
    ensures { IsTrue result ↔ a.now ≡ b.now }
{
    match a {
        OpenedBy::Admin => matches!(b, OpenedBy::Admin),
        OpenedBy::Source(a) => matches!(b, OpenedBy::Source(b) if is_same_mount(a, b)),
    }
}

fn is_same_listing(a: &Listing, b: &Listing) -> bool
    ensures { IsTrue result ↔ a.now ≡ b.now }
{
    match a {
        Listing::Status => matches!(b, Listing::Status),
        Listing::Stats => matches!(b, Listing::Stats),
        Listing::Mounts => matches!(b, Listing::Mounts),
        Listing::Clients(a) => matches!(b, Listing::Clients(b) if is_same_name(a, b)),
        Listing::Streams => matches!(b, Listing::Streams),
    }
}

fn is_same_command(a: &Command, b: &Command) -> bool
    ensures { IsTrue result ↔ a.now ≡ b.now }
{
    match a {
        Command::MoveClients { mount, destination } => is_move(b, mount, destination),
        Command::KillClient { mount, listener } => is_kill(b, mount, *listener),
        Command::KillSource { mount } => is_end(b, mount),
        Command::SetTitle { mount, title } => is_new_title(b, mount, title.as_slice()),
        Command::SetFallback { mount, fallback } => is_new_fallback(b, mount, fallback),
        Command::AddUser {
            mount,
            user,
            password,
        } => is_new_user(b, mount, user.as_slice(), password.as_slice()),
        Command::DeleteUser { mount, user } => is_old_user(b, mount, user.as_slice()),
    }
}

/// Whether it moves the listeners of this mount there.
fn is_move(command: &Command, from: &MountName, onto: &MountName) -> bool
    ensures { IsTrue result ↔ CommandOf.MoveClients from.now onto.now ≡ command.now }
{
    let Command::MoveClients { mount, destination } = command else {
        return false;
    };
    is_same_name(from, mount) && is_same_name(onto, destination)
}

/// Whether it finishes this listener of this mount.
fn is_kill(command: &Command, at: &MountName, id: u64) -> bool
    ensures { IsTrue result ↔ CommandOf.KillClient at.now id ≡ command.now }
{
    let Command::KillClient { mount, listener } = command else {
        return false;
    };
    is_same_name(at, mount) && id == *listener
}

/// Whether it ends the session of this mount.
fn is_end(command: &Command, at: &MountName) -> bool
    ensures { IsTrue result ↔ CommandOf.KillSource at.now ≡ command.now }
{
    let Command::KillSource { mount } = command else {
        return false;
    };
    is_same_name(at, mount)
}

/// Whether it gives this mount this title.
fn is_new_title(command: &Command, at: &MountName, text: &[u8]) -> bool
    ensures { IsTrue result ↔ CommandOf.SetTitle at.now text.now ≡ command.now }
{
    let Command::SetTitle { mount, title } = command else {
        return false;
    };
    is_same_name(at, mount) && is_same_bytes(text, title.as_slice())
}

/// Whether it gives this mount this fallback, or none.
fn is_new_fallback(command: &Command, at: &MountName, next: &Option<MountName>) -> bool
    ensures { IsTrue result ↔ CommandOf.SetFallback at.now next.now ≡ command.now }
{
    let Command::SetFallback { mount, fallback } = command else {
        return false;
    };
    is_same_name(at, mount) && is_same_mount(next, fallback)
}

/// Whether it lets this user in at this mount with this password.
fn is_new_user(command: &Command, at: &MountName, name: &[u8], secret: &[u8]) -> bool
    ensures { IsTrue result ↔ CommandOf.AddUser at.now name.now secret.now ≡ command.now }
{
    let Command::AddUser {
        mount,
        user,
        password,
    } = command
    else {
        return false;
    };
    is_same_name(at, mount)
        && is_same_bytes(name, user.as_slice())
        && is_same_bytes(secret, password.as_slice())
}

/// Whether it takes this user of this mount away.
fn is_old_user(command: &Command, at: &MountName, name: &[u8]) -> bool
    ensures { IsTrue result ↔ CommandOf.DeleteUser at.now name.now ≡ command.now }
{
    let Command::DeleteUser { mount, user } = command else {
        return false;
    };
    is_same_name(at, mount) && is_same_bytes(name, user.as_slice())
}
