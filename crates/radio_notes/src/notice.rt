//! What is to be logged of an event.

ghost use Rattle.std.specs.Prelude.{◌≡◌, MatchResult};
ghost use Rattle.radio_notes.specs.Facts.{facts_of_asked, facts_of_command, facts_of_source};
ghost use Rattle.radio_notes.specs.Requests.{user_of_pair};
ghost use Rattle.radio_notes.specs.Notices.{IsMadeAt, IsNoticeAt, IsNoticeOfFacts, logged_notice, stream_bytes, if_answered, if_taken};
ghost use Rattle.radio_notes.specs.declared.notice.Notice.TheVariants.{Lines as LinesOf, Lost as LostOf};

use crate::facts::{command_lines, count_of_command, source_lines};
use crate::request::user_of;
use crate::{OutOfMemory, ReplyNote};
use radio_addr::Peer;
use radio_events::{Asked, Command, CommandRequest, Event, SourceRequest};
use radio_log::Moment;
use std::alloc::Global;

/// What is to be logged of an event, if the server does what it asks for.
#[derive(Drop)]
pub enum Notice {
    /// Nothing.
    Nothing,
    /// A block of so many bytes has come of a stream.
    Block(u64),
    /// These lines.
    Lines { lines: Vec<u8>, count: u64 },
    /// So many lines, for which memory was refused.
    Lost(u64),
}

impl Notice {
    /// Returns what is to be logged of this event of a client that has named this agent: so many seconds after the
    /// beginning of 1970.
    // rule: Lines of changes
    pub(crate) fn of(alloc: Global, seconds: u64, peer: Peer, agent: &[u8], event: &Event) -> Notice
        ensures { IsNoticeAt seconds peer agent.now event.now result }
    {
        match event {
            Event::Push { block, .. } => Notice::Block(block.len() as u64),
            Event::Source(request) => of_source(alloc, seconds, peer, agent, request),
            Event::Command(request) => of_request(alloc, seconds, peer, request),
            Event::Arrive { .. }
            | Event::SourceEnd { .. }
            | Event::Title { .. }
            | Event::Listen(_)
            | Event::Draw { .. }
            | Event::Leave { .. }
            | Event::RelayUp { .. }
            | Event::RelayDown { .. }
            | Event::Clock { .. } => Notice::Nothing,
        }
    }

    /// Returns what of it is to be logged, if this is noted of the server's reply: lines of what was answered as done,
    /// and the block that was taken.
    // rule: Lines of changes
    pub(crate) fn due(self, note: ReplyNote) -> Notice
        ensures { result ≡ logged_notice note self }
    {
        match note {
            ReplyNote::Feeding | ReplyNote::Text | ReplyNote::Shown => self.lines(),
            ReplyNote::Noted => self.block(),
            ReplyNote::Nothing | ReplyNote::Seated | ReplyNote::Denied(_) => Notice::Nothing,
        }
    }

    /// Returns how many bytes of a stream have come by what is logged.
    pub(crate) fn fed(&self) -> u64
        ensures { result ≡ stream_bytes self.now }
    {
        match self {
            Notice::Block(count) => *count,
            Notice::Nothing | Notice::Lines { .. } | Notice::Lost(_) => 0,
        }
    }

    fn lines(self) -> Notice
        ensures { result ≡ if_answered self }
    {
        match self {
            Notice::Block(_) => Notice::Nothing,
            Notice::Nothing | Notice::Lines { .. } | Notice::Lost(_) => self,
        }
    }

    fn block(self) -> Notice
        ensures { result ≡ if_taken self }
    {
        match self {
            Notice::Block(count) => Notice::Block(count),
            Notice::Nothing | Notice::Lines { .. } | Notice::Lost(_) => Notice::Nothing,
        }
    }
}

fn of_source(
    alloc: Global,
    seconds: u64,
    peer: Peer,
    agent: &[u8],
    request: &SourceRequest,
) -> Notice
    ensures { IsMadeAt seconds (facts_of_source peer agent.now request.now) result }
{
    let moment = Moment::at(seconds);
    made(2, source_lines(alloc, moment, peer, agent, request))
}

/// Returns what is to be logged of a request: only of a command there is something.
fn of_request(alloc: Global, seconds: u64, peer: Peer, request: &CommandRequest) -> Notice
    ensures { IsNoticeOfFacts seconds (facts_of_asked peer (user_of_pair request.now.pair) request.now.asked) result }
{
    match &request.asked {
        Asked::Command(command) => {
            of_command(alloc, seconds, peer, user_of(&request.pair), command)
        }
        Asked::NoCommand | Asked::MissingArgument(_) | Asked::Listing(_) => Notice::Nothing,
    }
}

fn of_command(alloc: Global, seconds: u64, peer: Peer, user: &[u8], command: &Command) -> Notice
    ensures { IsMadeAt seconds (facts_of_command peer user.now command.now) result }
{
    let moment = Moment::at(seconds);
    let count = count_of_command(command);
    made(count, command_lines(alloc, moment, peer, user, command))
}

/// These lines, so many of them, if memory was not refused.
fn made(count: u64, lines: Result<Vec<u8>, OutOfMemory>) -> Notice
    ensures { MatchResult lines (λ made. result ≡ LinesOf made count) (λ _. result ≡ LostOf count) }
{
    match lines {
        Ok(lines) => Notice::Lines { lines, count },
        Err(_) => Notice::Lost(count),
    }
}
