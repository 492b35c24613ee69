//! Equal copies of events, for whoever keeps a record of them.

ghost use Rattle.std.specs.Prelude.{◌≡◌, IsOk, IfOk};
ghost use Rattle.radio_events.specs.Events.{EventTakesNoMemory};

use crate::{
    Asked, Boxed, Command, CommandRequest, Event, ListenRequest, OutOfMemory, PageVisit,
    SourceRequest,
};
use bytes::Bytes;
use radio_blocks::Block;
use radio_creds::Pair;
use radio_values::{MountName, Shown, Title};

impl Event {
    /// An equal event. `OutOfMemory` if memory was refused.
    pub fn again(&self) -> Result<Event, OutOfMemory>
        ensures value { IfOk result (λ event. event ≡ self.now) }
        // of the end of a session, a connection and a relay, and of the clock, it is never refused
        ensures frees { EventTakesNoMemory self.now → IsOk result }
    {
        match self {
            Event::Arrive { peer } => Ok(Event::Arrive { peer: *peer }),
            Event::Source(asked) => Ok(Event::Source(source_again(asked)?)),
            Event::Push { id, block } => push_again(*id, block),
            Event::SourceEnd { id } => Ok(Event::SourceEnd { id: *id }),
            Event::Title { id, text } => title_again(*id, text),
            Event::Listen(asked) => Ok(Event::Listen(listen_again(asked)?)),
            Event::Draw { id, room } => Ok(Event::Draw {
                id: *id,
                room: *room,
            }),
            Event::Command(asked) => Ok(Event::Command(boxed_again(asked)?)),
            Event::Leave { id } => Ok(Event::Leave { id: *id }),
            Event::RelayUp { mount, shown } => relay_again(mount, shown),
            Event::RelayDown { id } => Ok(Event::RelayDown { id: *id }),
            Event::Clock { ms } => Ok(Event::Clock { ms: *ms }),
        }
    }
}

/// An equal block of this source. `OutOfMemory` if memory was refused.
fn push_again(id: u64, block: &Block) -> Result<Event, OutOfMemory>
    ensures { IfOk result (λ event. event ≡ Event.Push id block.now) }
{
    Ok(Event::Push {
        id,
        block: block.share()?,
    })
}

/// An equal title of this source. `OutOfMemory` if memory was refused.
fn title_again(id: u64, text: &Title) -> Result<Event, OutOfMemory>
    ensures { IfOk result (λ event. event ≡ Event.Title id text.now) }
{
    Ok(Event::Title {
        id,
        text: text.clone()?,
    })
}

/// The same relay's coming. `OutOfMemory` if memory was refused.
fn relay_again(mount: &Bytes, shown: &Boxed<Shown>) -> Result<Event, OutOfMemory>
    ensures { IfOk result (λ event. event ≡ Event.RelayUp mount.now shown.now) }
{
    let shows: &Shown = shown;
    Ok(Event::RelayUp {
        mount: mount.clone()?,
        shown: Boxed::new(shown.allocator(), shows.clone()?)?,
    })
}

/// An equal request. `OutOfMemory` if memory was refused.
fn source_again(asked: &Boxed<SourceRequest>) -> Result<Boxed<SourceRequest>, OutOfMemory>
    ensures { IfOk result (λ again. again ≡ asked.now) }
{
    let again = SourceRequest {
        id: asked.id,
        mount: asked.mount.clone()?,
        pair: pair_again(&asked.pair)?,
        shown: asked.shown.clone()?,
    };
    Boxed::new(asked.allocator(), again)
}

/// An equal request. `OutOfMemory` if memory was refused.
fn listen_again(asked: &Boxed<ListenRequest>) -> Result<Boxed<ListenRequest>, OutOfMemory>
    ensures { IfOk result (λ again. again ≡ asked.now) }
{
    let again = ListenRequest {
        id: asked.id,
        mount: asked.mount.clone()?,
        pair: pair_again(&asked.pair)?,
        wants_metadata: asked.wants_metadata,
        visit: visit_again(&asked.visit)?,
    };
    Boxed::new(asked.allocator(), again)
}

/// An equal visit. `OutOfMemory` if memory was refused.
fn visit_again(visit: &PageVisit) -> Result<PageVisit, OutOfMemory>
    ensures { IfOk result (λ again. again ≡ visit.now) }
{
    Ok(PageVisit {
        host: visit.host.clone()?,
        server_start: visit.server_start,
    })
}

/// An equal request, in an allocation of its own. `OutOfMemory` if memory was refused.
fn boxed_again(asked: &Boxed<CommandRequest>) -> Result<Boxed<CommandRequest>, OutOfMemory>
    ensures { IfOk result (λ again. again ≡ asked.now) }
{
    Boxed::new(asked.allocator(), request_again(asked)?)
}

/// An equal request. `OutOfMemory` if memory was refused.
fn request_again(asked: &CommandRequest) -> Result<CommandRequest, OutOfMemory>
    ensures { IfOk result (λ again. again ≡ asked.now) }
{
    Ok(CommandRequest {
        id: asked.id,
        asked: asked_again(&asked.asked)?,
        pair: pair_again(&asked.pair)?,
    })
}

/// The same again. `OutOfMemory` if memory was refused.
fn asked_again(asked: &Asked) -> Result<Asked, OutOfMemory>
    ensures { IfOk result (λ again. again ≡ asked.now) }
{
    match asked {
        Asked::NoCommand => Ok(Asked::NoCommand),
        Asked::MissingArgument(opened_by) => Ok(Asked::MissingArgument(*opened_by)),
        Asked::Listing(listing) => Ok(Asked::Listing(*listing)),
        Asked::Command(command) => Ok(Asked::Command(command_again(command)?)),
    }
}

/// An equal command. `OutOfMemory` if memory was refused.
fn command_again(command: &Command) -> Result<Command, OutOfMemory>
    ensures { IfOk result (λ again. again ≡ command.now) }
{
    match command {
        Command::MoveClients { mount, destination } => Ok(Command::MoveClients {
            mount: *mount,
            destination: *destination,
        }),
        Command::KillClient { mount, listener } => Ok(Command::KillClient {
            mount: *mount,
            listener: *listener,
        }),
        Command::KillSource { mount } => Ok(Command::KillSource { mount: *mount }),
        Command::SetTitle { mount, title } => Ok(Command::SetTitle {
            mount: *mount,
            title: title.clone()?,
        }),
        Command::SetFallback { mount, fallback } => Ok(Command::SetFallback {
            mount: *mount,
            fallback: *fallback,
        }),
        Command::AddUser {
            mount,
            user,
            password,
        } => add_again(*mount, user, password),
        Command::DeleteUser { mount, user } => Ok(Command::DeleteUser {
            mount: *mount,
            user: user.clone()?,
        }),
    }
}

/// The same user and password for the mount. `OutOfMemory` if memory was refused.
fn add_again(mount: MountName, user: &Bytes, password: &Bytes) -> Result<Command, OutOfMemory>
    ensures { IfOk result (λ again. again ≡ Command.AddUser mount user.now password.now) }
{
    Ok(Command::AddUser {
        mount,
        user: user.clone()?,
        password: password.clone()?,
    })
}

/// The pair again, if there is one. `OutOfMemory` if memory was refused.
fn pair_again(pair: &Option<Pair>) -> Result<Option<Pair>, OutOfMemory>
    ensures { IfOk result (λ again. again ≡ pair.now) }
{
    match pair {
        Some(pair) => Ok(Some(pair.copy()?)),
        None => Ok(None),
    }
}
