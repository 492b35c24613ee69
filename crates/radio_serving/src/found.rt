//! What a worker finds of what it asked the server.

ghost use Rattle.std.specs.Prelude.{◌≡◌, ◌||◌};
ghost use Rattle.radio_serving.specs.Kinds.{found_after, left_of, nothing_found};

use crate::kind::Kind;
use radio_events::Reply;

/// What a worker has found since it last looked.
#[derive(Clone, Copy)]
pub struct Found {
    /// Whether listeners may have news.
    pub has_news: bool,
    /// Whether a client has begun to feed a mount.
    pub has_started: bool,
}

/// What is taken of what a worker has found.
#[derive(Clone, Copy, Debug, PartialEq, Eq)]
pub enum Take {
    /// That there is news.
    News,
    /// All of it.
    All,
}

impl Found {
    /// Returns that of a worker which has found nothing.
    pub(crate) fn nothing() -> Found
        ensures { result ≡ nothing_found }
    {
        Found {
            has_news: false,
            has_started: false,
        }
    }

    /// Returns what is found once an event of this kind had this reply. `fed` is whether the client of a leave may have fed a
    /// mount.
    pub(crate) fn after(self, kind: Kind, reply: &Reply, fed: bool) -> Found
        ensures { result ≡ found_after kind reply.now fed self }
    {
        match kind {
            Kind::News => self.with_news(true),
            Kind::Command => self.with_news(matches!(reply, Reply::Text(_))),
            Kind::Feeds(_) => self.with_started(matches!(reply, Reply::Feeding)),
            Kind::Leaves(_) => self.with_news(fed),
            Kind::Own => self,
        }
    }

    /// Returns what is left of it once this was taken.
    pub(crate) fn without(self, take: Take) -> Found
        ensures { result ≡ left_of take self }
    {
        match take {
            Take::News => Found {
                has_news: false,
                ..self
            },
            Take::All => Found::nothing(),
        }
    }

    /// Returns it with news, if there is some.
    fn with_news(self, has_news: bool) -> Found
        ensures { result ≡ record self { has_news = has_news || self.has_news } }
    {
        Found {
            has_news: has_news || self.has_news,
            ..self
        }
    }

    /// Returns it with a client that has begun to feed a mount, if one has.
    fn with_started(self, has_started: bool) -> Found
        ensures { result ≡ record self { has_started = has_started || self.has_started } }
    {
        Found {
            has_started: has_started || self.has_started,
            ..self
        }
    }
}
