//! What a line can say. No fact has a field for a password.
ghost use Rattle.std.specs.Prelude.{◌≡◌, []};

use crate::QuotedText;
use radio_addr::Peer;

/// What a line says.
#[derive(Drop)]
pub enum Fact<'a> {
    /// The program has started, in this version, and listens at this address.
    Started {
        version: QuotedText<'a>,
        address: QuotedText<'a>,
    },
    /// The program has ended, for this reason.
    Ended {
        why: QuotedText<'a>,
    },
    /// A client is gone.
    ClientEnded(ClientEnded<'a>),
    /// A source feeds a mount.
    SourceUp(SourceUp<'a>),
    /// A source feeds its mount no more.
    SourceGone(SourceGone<'a>),
    /// A relay feeds a mount.
    RelayUp(RelayUp<'a>),
    /// A relay feeds its mount no more.
    RelayGone(RelayGone<'a>),
    /// A relay could not be started, or has lost its master.
    RelayFailed(RelayFailed<'a>),
    /// A mount is live.
    MountUp {
        mount: QuotedText<'a>,
    },
    /// A mount is live no more, for this reason.
    MountGone {
        mount: QuotedText<'a>,
        why: QuotedText<'a>,
    },
    /// A mount has a new title.
    Title(TitleNote<'a>),
    /// A command has changed something.
    Command(CommandNote<'a>),
    /// The settings bid something that an operator should know of.
    Warning(Warning<'a>),
    /// The program ends by a fault.
    Fault(FaultNote<'a>),
    /// So many lines before this one could not be written, and are lost.
    Lost {
        lines: u64,
    },
}

/// A client who is gone.
#[derive(Drop)]
pub struct ClientEnded<'a> {
    /// The address that it came from.
    pub peer: Peer,
    /// The method of its request, empty where none came.
    pub method: QuotedText<'a>,
    /// The path of its request, without its query.
    pub path: QuotedText<'a>,
    /// The mount where it sat last, empty where it sat nowhere.
    pub mount: QuotedText<'a>,
    /// The status that it was answered, 0 where it was answered nothing.
    pub status: u16,
    /// The word of its end: the rule that denied or finished it, or `left`.
    pub why: QuotedText<'a>,
    /// The user that it named, never its password; empty where it named none.
    pub user: QuotedText<'a>,
    /// How many whole seconds it was there.
    pub seconds: u64,
    /// How many bytes it was handed.
    pub bytes: u64,
    /// Its `User-Agent`, empty where it sent none.
    pub agent: QuotedText<'a>,
}

/// A source that feeds a mount.
#[derive(Drop)]
pub struct SourceUp<'a> {
    /// The mount that it feeds.
    pub mount: QuotedText<'a>,
    /// The address that it came from.
    pub peer: Peer,
    /// The media type of its stream.
    pub content_type: QuotedText<'a>,
    /// Its `User-Agent`, empty where it sent none.
    pub agent: QuotedText<'a>,
}

/// A source that feeds its mount no more.
#[derive(Drop)]
pub struct SourceGone<'a> {
    /// The mount that it fed.
    pub mount: QuotedText<'a>,
    /// The address that it came from.
    pub peer: Peer,
    /// The word of its end.
    pub why: QuotedText<'a>,
    /// How many whole seconds it was there.
    pub seconds: u64,
    /// How many bytes of its stream came.
    pub bytes: u64,
}

/// A relay that feeds a mount.
#[derive(Drop)]
pub struct RelayUp<'a> {
    /// The mount that it feeds.
    pub mount: QuotedText<'a>,
    /// The server that it draws from, with its port.
    pub master: QuotedText<'a>,
    /// The media type of its stream.
    pub content_type: QuotedText<'a>,
}

/// A relay that feeds its mount no more.
#[derive(Drop)]
pub struct RelayGone<'a> {
    /// The mount that it fed.
    pub mount: QuotedText<'a>,
    /// The server that it drew from, with its port.
    pub master: QuotedText<'a>,
    /// The word of its end.
    pub why: QuotedText<'a>,
    /// How many whole seconds it was there.
    pub seconds: u64,
    /// How many bytes of its stream came.
    pub bytes: u64,
}

/// A relay that could not be started, or has lost its master.
#[derive(Drop)]
pub struct RelayFailed<'a> {
    /// The mount that it was to feed.
    pub mount: QuotedText<'a>,
    /// The server that it was to draw from, with its port.
    pub master: QuotedText<'a>,
    /// What failed.
    pub why: QuotedText<'a>,
    /// How often it has failed so since the line before; 1 in a first line.
    pub times: u64,
}

/// A new title of a mount.
#[derive(Drop)]
pub struct TitleNote<'a> {
    /// The mount.
    pub mount: QuotedText<'a>,
    /// What plays there now, empty if nothing is known of it.
    pub title: QuotedText<'a>,
}

/// A command that has changed something.
#[derive(Drop)]
pub struct CommandNote<'a> {
    /// The name of the command.
    pub name: QuotedText<'a>,
    /// The mount that it was said of, empty where it was said of none.
    pub mount: QuotedText<'a>,
    /// Its argument: a client's number, a mount to move to, a user; empty if it has none.
    pub argument: QuotedText<'a>,
    /// The user who gave it, never its password.
    pub user: QuotedText<'a>,
    /// The address that it came from.
    pub peer: Peer,
}

/// What an operator should know of its settings.
#[derive(Drop)]
pub struct Warning<'a> {
    /// What it is, in a word.
    pub why: QuotedText<'a>,
    /// The key of the settings.
    pub key: QuotedText<'a>,
    /// The mount in whose table the key is, empty if it is in none.
    pub mount: QuotedText<'a>,
    /// What the system allows, 0 where that is not in question.
    pub limit: u64,
    /// Where the key is, if it is ignored.
    pub place: KeyPlace<'a>,
}

/// Where a key is that is ignored, and what may have been meant. All of it is empty in other warnings.
#[derive(Drop)]
pub struct KeyPlace<'a> {
    /// The table in which the key is, or `top`.
    pub table: QuotedText<'a>,
    /// The line of the file, counted from 1; 0 where none is known.
    pub line: u64,
    /// The key of that table which may have been meant, empty if there is none.
    pub did_you_mean: QuotedText<'a>,
    /// The table that has a key of that name, empty where none has.
    pub belongs_to: QuotedText<'a>,
}

impl KeyPlace<'static> {
    /// That of a warning that is of no such key.
    pub fn none() -> KeyPlace<'static>
        ensures { result ≡ record { table = []; line = 0; did_you_mean = []; belongs_to = [] } }
    {
        KeyPlace {
            table: QuotedText::of(b""),
            line: 0,
            did_you_mean: QuotedText::of(b""),
            belongs_to: QuotedText::of(b""),
        }
    }
}

/// A fault by which the program ends, and what is known of it in addition to its words.
#[derive(Drop)]
pub struct FaultNote<'a> {
    /// Its words.
    pub why: QuotedText<'a>,
    /// The file that it is in, empty where it is in none.
    pub file: QuotedText<'a>,
    /// The line of the file, counted from 1; 0 where none is known.
    pub line: u64,
    /// The character of that line, counted from 1; 0 where none is known.
    pub column: u64,
    /// The address that was to be bound, with its port; empty where none was.
    pub address: QuotedText<'a>,
    /// The reason that the system or the reader gives, empty where none is known.
    pub reason: QuotedText<'a>,
    /// Which key of the settings it is of.
    pub at: FaultyKey<'a>,
}

/// Where the settings have a fault of a key. All of it is empty where a fault is of no key.
#[derive(Drop)]
pub struct FaultyKey<'a> {
    /// The table, or `top`.
    pub table: QuotedText<'a>,
    /// The mount of the table, or the one that its relay feeds; empty if there is none.
    pub mount: QuotedText<'a>,
    /// What is there, nothing of a password.
    pub value: QuotedText<'a>,
    /// What may be there.
    pub allowed: QuotedText<'a>,
}
