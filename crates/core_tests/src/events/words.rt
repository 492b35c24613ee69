//! Events in tables, and replies in words.

use radio_access::Lists;
use radio_blocks::Pieces;
use radio_core::{Core, OutOfMemory};
use radio_events::{Asked, Command, Event, Listing, OpenedBy, Reply, ReplyText};
use radio_settings::{SettingsFault, read_settings};
use radio_values::{MountName, Shown};
use std::alloc::Global;
use test_calls::{
    arrival, command_event, killing, listen_event, push_event, relay_event, source_event,
};

/// The settings of a station.
const STATION: &str =
    "source-password = \"hackme\"\nadmin-password = \"letmein\"\n[limits]\nburst-size = 8\n[[mount]]\nmount-name = \"/home\"\nfallback-mount = \"/a\"\nfallback-override = true\n[[relay]]\nserver = \"m\"\nmount = \"/live\"\nlocal-mount = \"/w\"\non-demand = true\n[[relay]]\nserver = \"m\"\nmount = \"/live\"\nlocal-mount = \"/d\"\non-demand = true\n";

/// An event of a table, by its client's number, and the mount, the data or the room.
#[derive(Clone, Copy)]
pub enum Call {
    Arrive,
    /// A source that describes its stream: `audio/aac`, the name `Night`.
    Source(u64, &'static str),
    Push(u64, &'static str),
    SourceEnd(u64),
    Listen(u64, &'static str),
    Draw(u64, u32),
    /// The admin's command that finishes the listener of that number at the mount.
    KillClient(u64, &'static str, u64),
    /// The admin's command that ends the mount's session.
    KillSource(u64, &'static str),
    /// The admin asks what the server does as a whole.
    Stats(u64),
    Leave(u64),
    /// A relay whose master describes its stream: this content type, the name `Night`.
    RelayUp(&'static str, &'static str),
    RelayDown(u64),
    Clock(u64),
}

impl Call {
    fn event(&self, alloc: Global) -> Result<Event, OutOfMemory> {
        match self {
            Call::Arrive => Ok(arrival()),
            Call::Source(id, path) => source_event(alloc, *id, path),
            Call::Push(id, text) => push_event(alloc, *id, text.as_bytes()),
            Call::SourceEnd(id) => Ok(Event::SourceEnd { id: *id }),
            Call::Listen(id, path) => listen_event(alloc, *id, path),
            Call::Draw(id, room) => Ok(Event::Draw {
                id: *id,
                room: *room,
            }),
            Call::KillClient(id, path, listener) => {
                command_event(alloc, *id, killing(path, *listener))
            }
            Call::KillSource(id, path) => command_event(alloc, *id, kill_source(path)),
            Call::Stats(id) => command_event(alloc, *id, Asked::Listing(Listing::Stats)),
            Call::Leave(id) => Ok(Event::Leave { id: *id }),
            Call::RelayUp(path, content_type) => relay_event(alloc, path, content_type),
            Call::RelayDown(id) => Ok(Event::RelayDown { id: *id }),
            Call::Clock(ms) => Ok(Event::Clock { ms: *ms }),
        }
    }
}

fn kill_source(path: &str) -> Asked {
    match MountName::read(path.as_bytes()) {
        Some(mount) => Asked::Command(Command::KillSource { mount }),
        None => Asked::MissingArgument(OpenedBy::Admin),
    }
}

/// The core of a station, with a burst of eight bytes.
fn station(alloc: Global) -> Result<Core, SettingsFault> {
    let settings = read_settings(alloc, STATION)?;
    Ok(Core::new(alloc, settings, Lists::new(alloc)))
}

/// Whether for each table a core replies as the first says, and then as that one.
pub fn all_reply(alloc: Global, first: &[(Call, &str)], tables: &[&[(Call, &str)]]) -> bool {
    for next in tables {
        if !replies_in_turn(alloc, first, next) {
            return false;
        }
    }
    true
}

/// Whether a core replies as one table says, and then as the next.
fn replies_in_turn(alloc: Global, first: &[(Call, &str)], next: &[(Call, &str)]) -> bool {
    match station(alloc) {
        Ok(mut core) => {
            let replied = are_replied_in_turn(alloc, &mut core, first, next);
            drop(core);
            replied == Ok(true)
        }
        Err(_) => false,
    }
}

fn are_replied_in_turn(
    alloc: Global,
    core: &mut Core,
    first: &[(Call, &str)],
    next: &[(Call, &str)],
) -> Result<bool, OutOfMemory> {
    Ok(are_replied(alloc, core, first)? && are_replied(alloc, core, next)?)
}

/// Whether a core replies as the table says, and these mounts are wanted then.
pub fn wants_then(alloc: Global, table: &[(Call, &str)], wanted: &[&str]) -> bool {
    match station(alloc) {
        Ok(mut core) => {
            let wants = replies_and_wants(alloc, &mut core, table, wanted);
            drop(core);
            wants == Ok(true)
        }
        Err(_) => false,
    }
}

fn replies_and_wants(
    alloc: Global,
    core: &mut Core,
    table: &[(Call, &str)],
    wanted: &[&str],
) -> Result<bool, OutOfMemory> {
    if !are_replied(alloc, core, table)? {
        return Ok(false);
    }
    let mounts = core.wanted()?;
    Ok(are_named(mounts.as_slice(), wanted))
}

/// Whether the mounts have these names, in this order.
fn are_named(mounts: &[MountName], names: &[&str]) -> bool {
    mounts.len() == names.len()
        && mounts
            .iter()
            .zip(names)
            .all(|(mount, name)| mount.as_bytes() == name.as_bytes())
}

/// Whether each call of the table is replied to as the table says.
fn are_replied(
    alloc: Global,
    core: &mut Core,
    table: &[(Call, &str)],
) -> Result<bool, OutOfMemory> {
    for (call, want) in table {
        if !is_replied(alloc, core, call, want)? {
            return Ok(false);
        }
    }
    Ok(true)
}

fn is_replied(
    alloc: Global,
    core: &mut Core,
    call: &Call,
    want: &str,
) -> Result<bool, OutOfMemory> {
    let event = call.event(alloc)?;
    let reply = core.step(event)?;
    let is_wanted = is_in_words(alloc, &reply, want);
    drop(reply);
    is_wanted
}

/// Whether each of the three replies of a core to a call is as the table says.
pub fn replies_three_times(alloc: Global, table: &[(Call, &str)]) -> bool {
    match station(alloc) {
        Ok(mut core) => {
            let replied = are_replied_three_times(alloc, &mut core, table);
            drop(core);
            replied == Ok(true)
        }
        Err(_) => false,
    }
}

fn are_replied_three_times(
    alloc: Global,
    core: &mut Core,
    table: &[(Call, &str)],
) -> Result<bool, OutOfMemory> {
    for (call, want) in table {
        if !is_replied_three_times(alloc, core, call, want)? {
            return Ok(false);
        }
    }
    Ok(true)
}

fn is_replied_three_times(
    alloc: Global,
    core: &mut Core,
    call: &Call,
    want: &str,
) -> Result<bool, OutOfMemory> {
    let event = call.event(alloc)?;
    let three = core.step3(event)?;
    let are_wanted = are_in_words(alloc, &three, want);
    drop(three);
    are_wanted
}

fn are_in_words(alloc: Global, replies: &[Reply], want: &str) -> Result<bool, OutOfMemory> {
    for reply in replies {
        if !is_in_words(alloc, reply, want)? {
            return Ok(false);
        }
    }
    Ok(true)
}

fn is_in_words(alloc: Global, reply: &Reply, want: &str) -> Result<bool, OutOfMemory> {
    let words = words_of(alloc, reply)?;
    Ok(words.as_str() == want)
}

/// A reply in words.
fn words_of(alloc: Global, reply: &Reply) -> Result<String, OutOfMemory> {
    match reply {
        Reply::Arrived(id) => format!(in alloc; "arrived {id}"),
        Reply::Feeding => "feeding".to_string(alloc),
        Reply::Seated { head, .. } => words_of_shown(alloc, &head.shown),
        Reply::Drawn { pieces, .. } => words_of_drawn(alloc, pieces),
        Reply::Noted => "noted".to_string(alloc),
        Reply::Text(text) => words_of_text(alloc, text),
        Reply::Deny(rule) => format!(in alloc; "deny {rule}"),
        Reply::Finished(rule) => format!(in alloc; "finished {rule}"),
        Reply::Stray => "stray".to_string(alloc),
    }
}

fn words_of_text(alloc: Global, answer: &ReplyText) -> Result<String, OutOfMemory> {
    match answer {
        ReplyText::Done => "done".to_string(alloc),
        ReplyText::Moved(count) => format!(in alloc; "moved {count}"),
        ReplyText::Ended(count) => format!(in alloc; "ended {count}"),
        ReplyText::Json(bytes) | ReplyText::Streams(bytes) | ReplyText::Public { bytes, .. } => {
            text(bytes.as_slice()).to_string(alloc)
        }
        ReplyText::Page { .. } => "page".to_string(alloc),
    }
}

fn words_of_shown(alloc: Global, shown: &Shown) -> Result<String, OutOfMemory> {
    let content_type = shown.content_type.as_str();
    let name = shown.name.as_str();
    let genre = shown.genre.as_str();
    format!(in alloc; "seated {content_type},{name},{genre}")
}

fn words_of_drawn(alloc: Global, pieces: &Pieces) -> Result<String, OutOfMemory> {
    let mut drawn = Vec::new(alloc);
    pieces.write_to(&mut drawn)?;
    format!(in alloc; "drawn {}", text(drawn.as_slice()))
}

fn text(bytes: &[u8]) -> &str {
    str::from_utf8(bytes).unwrap_or("(no text)")
}
