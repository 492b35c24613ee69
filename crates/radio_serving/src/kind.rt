//! What an event may bring to others.

ghost use Rattle.std.specs.Prelude.{◌≡◌};
ghost use Rattle.radio_serving.specs.Kinds.{event_kind};

use radio_events::Event;

/// What an event may bring.
#[derive(Clone, Copy)]
pub(crate) enum Kind {
    /// Something for the listeners of a mount.
    News,
    /// Something for the listeners of a mount, if it is done.
    Command,
    /// A client asks to feed a mount.
    Feeds(u64),
    /// A client leaves.
    Leaves(u64),
    /// Nothing to anybody else.
    Own,
}

/// Returns what an event may bring.
pub(crate) fn kind_of(event: &Event) -> Kind
    ensures { result ≡ event_kind event.now }
{
    match event {
        Event::Push { .. } | Event::SourceEnd { .. } | Event::Title { .. } => Kind::News,
        Event::RelayUp { .. } | Event::RelayDown { .. } => Kind::News,
        Event::Command(_) => Kind::Command,
        Event::Source(request) => Kind::Feeds(request.id),
        Event::Leave { id } => Kind::Leaves(*id),
        Event::Arrive { .. } | Event::Listen(_) | Event::Draw { .. } | Event::Clock { .. } =>
            Kind::Own,
    }
}
