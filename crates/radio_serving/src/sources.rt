//! Who feeds a mount.

ghost use Rattle.std.specs.Prelude.{◌≡◌, ◌==◌, length, if◌then◌else◌};
ghost use Rattle.std.specs.List.{position};
ghost use Rattle.radio_serving.specs.Kinds.{FeedsAfter, source_leaves};
ghost use Rattle.radio_serving.specs.Sources.{nobody_feeds, is_source_number, with_source, blinded, may_feed, without_source};

use crate::kind::Kind;
use radio_events::Reply;
use std::alloc::Global;
use std::marker::Model;

/// The clients who feed a mount by what was asked. In contracts they are a `FeedingClients`.
#[derive(Drop)]
pub(crate) struct Sources {
    numbers: Vec<u64>,
    /// Whether memory was refused for a number: then each client may be one of them.
    is_blind: bool,
}

impl Model for Sources {
    ghost use Rattle.radio_serving.specs.Sources.{FeedingClients};

    ghost Value = { FeedingClients };

    ghost view = { λ s. record { numbers = s.numbers.items; is_blind = s.is_blind } };
}

impl Sources {
    /// Returns none. It takes no memory.
    pub(crate) fn new(alloc: Global) -> Sources
        ensures { result ≡ nobody_feeds }
    {
        Sources {
            numbers: Vec::new(alloc),
            is_blind: false,
        }
    }

    /// Adds the client of this number. If memory is refused for that, each client may be one of them from now on. Returns whether
    /// it was not.
    pub(crate) fn add(&mut self, id: u64) -> bool
        ensures { self.new ≡ (if result then with_source id self.old else blinded self.old) }
    {
        let is_added = self.numbers.push(id).is_ok();
        if !is_added {
            self.is_blind = true;
        }
        is_added
    }

    /// Leaves out the client of this number. Returns whether it was one of them, or may have been.
    pub(crate) fn remove(&mut self, id: u64) -> bool
        ensures rest { self.new ≡ without_source id self.old }
        ensures was { result ≡ may_feed id self.old }
    {
        let Some(at) = place_of(self.numbers.as_slice(), id) else {
            return self.is_blind;
        };
        self.numbers.remove(at);
        true
    }

    /// Notes who feeds after an event of this kind had this reply. Returns whether its client leaves, and may have fed.
    pub(crate) fn note(&mut self, kind: Kind, reply: &Reply) -> bool
        ensures feeds { FeedsAfter kind reply.now self.old self.new }
        ensures leaves { result ≡ source_leaves kind self.old }
    {
        match kind {
            Kind::Feeds(id) if matches!(reply, Reply::Feeding) => {
                self.add(id);
                false
            }
            Kind::Leaves(id) => self.remove(id),
            Kind::Feeds(_) | Kind::News | Kind::Command | Kind::Own => false,
        }
    }

    /// Returns whether the client of this number is one of them, as far as memory was not refused.
    pub(crate) fn has(&self, id: u64) -> bool
        ensures { result ≡ is_source_number id self.now }
    {
        place_of(self.numbers.as_slice(), id).is_some()
    }

    /// Returns how many they are, as far as memory was not refused.
    pub(crate) fn count(&self) -> usize
        ensures { result ≡ length self.now.numbers }
    {
        self.numbers.len()
    }
}

/// Returns the first place of this number.
fn place_of(numbers: &[u64], id: u64) -> Option<usize>
    ensures { result ≡ position (λ n. n == id) numbers.now }
{
    numbers.iter().position(|number| *number == id)
}
