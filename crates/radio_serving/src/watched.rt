//! Who asks a server that others ask too, and whether that may bring something to listeners.

use crate::found::{Found, Take};
use crate::kind::kind_of;
use crate::sources::Sources;
use crate::{OutOfMemory, Server};
use radio_events::{Event, Reply, SharedServer};
use radio_values::MountName;
use std::alloc::Global;
use std::cell::Cell;
use std::marker::Model;
use std::sync::Wait;

/// A server that others ask too, as one of them asks it with a pass of its own, and whether what was asked may bring something to
/// listeners. In contracts it is its pass, and who feeds a mount by what was asked.
#[derive(Drop)]
pub struct Watched<'a, R: Wait, S: SharedServer> {
    rt: &'a R,
    server: &'a S,
    pass: S::Pass,
    sources: Sources,
    /// What was found since it was asked for last. What it becomes is decided by [`Found::after`].
    found: Cell<Found>,
}

impl<'a, R: Wait, S: SharedServer> Model for Watched<'a, R, S> {
    ghost use Rattle.radio_serving.specs.Watching.{WatchedOf};

    ghost Value = { WatchedOf S.Pass };

    ghost view = { λ w. record { server = w.pass; feeding = w.sources } };
}

impl<'a, R: Wait, S: SharedServer> Watched<'a, R, S> {
    ghost use Rattle.std.specs.Prelude.{◌≡◌, length};
    ghost use Rattle.radio_serving.specs.Sources.{is_source_number};
    ghost use Rattle.radio_serving.specs.Watching.{watched_of};

    /// Returns this server, of which nothing was asked yet with this pass. It takes no memory.
    pub fn new(alloc: Global, rt: &'a R, server: &'a S, pass: S::Pass) -> Watched<'a, R, S>
        ensures { result ≡ watched_of pass }
    {
        Watched {
            rt,
            server,
            pass,
            sources: Sources::new(alloc),
            found: Cell::new(Found::nothing()),
        }
    }

    /// Returns what was found and not taken yet, and takes this of it. There is news if a block or a title came, a source has ended,
    /// a relay has come up or gone down, or a command was done.
    pub fn take_found(&self, take: Take) -> Found {
        let found = self.found.get();
        self.found.set(found.without(take));
        found
    }

    /// Returns whether the client of this number feeds a mount by what was asked, as far as memory was not refused for its number.
    pub fn feeds(&self, id: u64) -> bool
        ensures { result ≡ is_source_number id self.now.feeding }
    {
        self.sources.has(id)
    }

    /// Returns how many clients feed a mount by what was asked, as far as memory was not refused for their numbers.
    pub fn sources(&self) -> usize
        ensures { result ≡ length self.now.feeding.numbers }
    {
        self.sources.count()
    }

    /// Returns the pass, when nothing is asked any more.
    pub fn into_pass(self) -> S::Pass
        ensures { result ≡ self.entry.server }
    {
        self.pass
    }
}

impl<'a, R: Wait, S: SharedServer> Server for Watched<'a, R, S> {
    ghost use Rattle.std.specs.Prelude.{◌≡◌, IfOk, OnErr};
    ghost use Rattle.radio_events.specs.declared.event.Event.TheVariants.{Draw};
    ghost use Rattle.radio_serving.specs.Watching.{WatchedSteps};

    ghost steps = { WatchedSteps S.steps };

    ghost refuses = { λ watched event. S.refuses watched.server event };

    /// Applies an event, and notes what it may bring. `OutOfMemory` if memory was refused; nothing has changed then.
    fn apply(&mut self, event: Event) -> Result<Reply, OutOfMemory>
        ensures ok { IfOk result (λ reply. WatchedSteps S.steps self.old event reply self.new) }
        ensures err { OnErr result (self.new ≡ self.old) }
        ensures refused { OnErr result (S.refuses self.old.server event) }
    {
        let kind = kind_of(&event);
        match self.server.apply(self.rt, &mut self.pass, event) {
            Ok(reply) => {
                let fed = self.sources.note(kind, &reply);
                self.found.set(self.found.get().after(kind, &reply, fed));
                Ok(reply)
            }
            Err(refused) => Err(refused),
        }
    }

    /// The same for a draw, which brings nothing to others, so nothing is noted of it.
    fn draw(&mut self, id: u64, room: u32) -> Result<Reply, OutOfMemory>
        ensures ok { IfOk result (λ reply. WatchedSteps S.steps self.old (Draw id room) reply self.new) }
        ensures err { OnErr result (self.new ≡ self.old) }
        ensures refused { OnErr result (S.refuses self.old.server (Draw id room)) }
    {
        self.server.draw(self.rt, &mut self.pass, id, room)
    }

    fn last_mount(&self, id: u64) -> Option<MountName> {
        self.server.last_mount(self.rt, id)
    }
}
