//! Who has come.

ghost use Rattle.std.specs.Prelude.{◌≡◌};
ghost use Rattle.radio_book.specs.Newcomers.{is_same, leaver_of, newcomer_number};

use radio_events::Event;

/// A client or a relay that has come, by its number.
#[derive(Clone, Copy, Debug, PartialEq, Eq)]
pub enum Newcomer {
    /// A client, whose end is that it leaves.
    Client(u64),
    /// A relay, whose end is that it goes down.
    Relay(u64),
}

impl Newcomer {
    /// Returns its number.
    pub fn id(self) -> u64
        ensures { result ≡ newcomer_number self }
    {
        match self {
            Newcomer::Client(id) | Newcomer::Relay(id) => id,
        }
    }

    /// Returns whether it is the other.
    pub(crate) fn is(self, other: Newcomer) -> bool
        ensures { result ≡ is_same other self }
    {
        match (self, other) {
            (Newcomer::Client(a), Newcomer::Client(b)) => a == b,
            (Newcomer::Relay(a), Newcomer::Relay(b)) => a == b,
            (Newcomer::Client(_), Newcomer::Relay(_)) | (Newcomer::Relay(_), Newcomer::Client(_)) =>
                false,
        }
    }
}

/// Returns the client or relay whose connection the event closes, if it closes one.
pub fn leaver_of(event: &Event) -> Option<Newcomer>
    ensures { result ≡ leaver_of event.now }
{
    match event {
        Event::Leave { id } => Some(Newcomer::Client(*id)),
        Event::RelayDown { id } => Some(Newcomer::Relay(*id)),
        Event::Arrive { .. }
        | Event::Source(_)
        | Event::Push { .. }
        | Event::SourceEnd { .. }
        | Event::Title { .. }
        | Event::Listen(_)
        | Event::Draw { .. }
        | Event::Command(_)
        | Event::RelayUp { .. }
        | Event::Clock { .. } => None,
    }
}
