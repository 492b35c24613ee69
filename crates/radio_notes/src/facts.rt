//! What is to be logged of an event if it is done.

ghost use Rattle.std.specs.Prelude.{◌≡◌, ◌+◌, ◌++◌, length, IfOk, decimal};
ghost use Rattle.radio_notes.specs.Lines.{line_at, lines_at};
ghost use Rattle.radio_notes.specs.Facts.{argument_of, command_fact, command_name, facts_of_command, facts_of_source, mount_of_command, title_facts};

use crate::OutOfMemory;
use crate::lines::line_at;
use radio_addr::Peer;
use radio_events::{Command, SourceRequest};
use radio_log::{CommandNote, Fact, Moment, QuotedText, SourceUp, TitleNote};
use radio_values::MountName;
use std::alloc::Global;

/// The lines of a source: that it feeds a mount, and that the mount is live.
pub(crate) fn source_lines(
    alloc: Global,
    moment: Moment,
    peer: Peer,
    agent: &[u8],
    request: &SourceRequest,
) -> Result<Vec<u8>, OutOfMemory>
    ensures { IfOk result (λ lines. lines.items ≡ lines_at moment (facts_of_source peer agent.now request.now)) }
{
    let mount = request.mount.as_slice();
    let up = Fact::SourceUp(SourceUp {
        mount: QuotedText::of(mount),
        peer,
        content_type: QuotedText::of(request.shown.content_type.as_bytes()),
        agent: QuotedText::of(agent),
    });
    let live = Fact::MountUp {
        mount: QuotedText::of(mount),
    };
    with_line(line_at(alloc, moment, up)?, alloc, moment, live)
}

/// The lines of a command: that it was given, and the title that it sets.
// rule: Line of the log
pub(crate) fn command_lines(
    alloc: Global,
    moment: Moment,
    peer: Peer,
    user: &[u8],
    command: &Command,
) -> Result<Vec<u8>, OutOfMemory>
    ensures { IfOk result (λ lines. lines.items ≡ lines_at moment (facts_of_command peer user.now command.now)) }
{
    let given = command_line(alloc, moment, peer, user, command)?;
    match command {
        Command::SetTitle { mount, title } => {
            let title = Fact::Title(TitleNote {
                mount: QuotedText::of(mount.as_bytes()),
                title: QuotedText::of(title.as_slice()),
            });
            with_line(given, alloc, moment, title)
        }
        Command::MoveClients { .. }
        | Command::KillClient { .. }
        | Command::KillSource { .. }
        | Command::SetFallback { .. }
        | Command::AddUser { .. }
        | Command::DeleteUser { .. } => Ok(given),
    }
}

/// How many lines a command has.
pub(crate) fn count_of_command(command: &Command) -> u64
    ensures { result ≡ length (title_facts command.now) + 1 }
{
    match command {
        Command::SetTitle { .. } => 2,
        Command::MoveClients { .. }
        | Command::KillClient { .. }
        | Command::KillSource { .. }
        | Command::SetFallback { .. }
        | Command::AddUser { .. }
        | Command::DeleteUser { .. } => 1,
    }
}

/// A line, and behind it that of another fact.
fn with_line(
    line: Vec<u8>,
    alloc: Global,
    moment: Moment,
    fact: Fact<'_>,
) -> Result<Vec<u8>, OutOfMemory>
    ensures { IfOk result (λ lines. lines.items ≡ line.items ++ line_at moment fact.entry) }
{
    let mut lines = line;
    let next = line_at(alloc, moment, fact)?;
    lines.extend_from_slice(next.as_slice())?;
    Ok(lines)
}

fn command_line(
    alloc: Global,
    moment: Moment,
    peer: Peer,
    user: &[u8],
    command: &Command,
) -> Result<Vec<u8>, OutOfMemory>
    ensures { IfOk result (λ line. line.items ≡ line_at moment (command_fact peer user.now command.now)) }
{
    let argument = argument_of(alloc, command)?;
    let given = Fact::Command(CommandNote {
        name: QuotedText::of(name_of(command).as_bytes()),
        mount: QuotedText::of(mount_of(command).as_bytes()),
        argument: QuotedText::of(argument.as_slice()),
        user: QuotedText::of(user),
        peer,
    });
    line_at(alloc, moment, given)
}

/// The name of a command, as the last part of its path.
fn name_of(command: &Command) -> &'static str
    ensures { result.now ≡ command_name command.now }
{
    match command {
        Command::MoveClients { .. } => "moveclients",
        Command::KillClient { .. } => "killclient",
        Command::KillSource { .. } => "killsource",
        Command::SetTitle { .. } => "metadata",
        Command::SetFallback { .. } => "fallbacks",
        Command::AddUser { .. } | Command::DeleteUser { .. } => "users",
    }
}

/// The mount that a command is said of.
fn mount_of(command: &Command) -> &MountName
    ensures { result.now ≡ mount_of_command command.now }
{
    match command {
        Command::MoveClients { mount, .. }
        | Command::KillClient { mount, .. }
        | Command::KillSource { mount }
        | Command::SetTitle { mount, .. }
        | Command::SetFallback { mount, .. }
        | Command::AddUser { mount, .. }
        | Command::DeleteUser { mount, .. } => mount,
    }
}

/// What else a command says. A title has a line of its own, and a password is not written.
fn argument_of(alloc: Global, command: &Command) -> Result<Vec<u8>, OutOfMemory>
    ensures { IfOk result (λ argument. argument.items ≡ argument_of command.now) }
{
    match command {
        Command::MoveClients { destination, .. } => Vec::from_slice(alloc, destination.as_bytes()),
        Command::KillClient { listener, .. } => number_text(alloc, *listener),
        Command::SetFallback {
            fallback: Some(fallback),
            ..
        } => Vec::from_slice(alloc, fallback.as_bytes()),
        Command::AddUser { user, .. } => action_on(alloc, b"add ", user.as_slice()),
        Command::DeleteUser { user, .. } => action_on(alloc, b"delete ", user.as_slice()),
        Command::SetFallback { fallback: None, .. }
        | Command::KillSource { .. }
        | Command::SetTitle { .. } => Ok(Vec::new(alloc)),
    }
}

fn number_text(alloc: Global, number: u64) -> Result<Vec<u8>, OutOfMemory>
    ensures { IfOk result (λ text. text.items ≡ decimal number) }
{
    let digits = number.to_string(alloc)?;
    Vec::from_slice(alloc, digits.as_bytes())
}

/// What is done to a user, and its name.
fn action_on(alloc: Global, action: &[u8], user: &[u8]) -> Result<Vec<u8>, OutOfMemory>
    ensures { IfOk result (λ text. text.items ≡ action.now ++ user.now) }
{
    let mut argument = Vec::from_slice(alloc, action)?;
    argument.extend_from_slice(user)?;
    Ok(argument)
}
