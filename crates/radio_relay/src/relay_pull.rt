//! The state of a relay's pull.

ghost use Rattle.std.specs.Prelude.{◌≡◌, IfOk, OnErr};
ghost use Rattle.std.specs.Option.{option_map};
ghost use Rattle.radio_events.specs.declared.event.Event.TheVariants.{Draw as DrawOf, Title as TitleOf};
ghost use Rattle.radio_relay.specs.Pulling.{MakingTakesMemory, state_after_reply, pulling_begun, event_for, event_of};

use crate::{OutOfMemory, Pull, PullItem};
use bytes::Bytes;
use radio_events::{Boxed, Event, Reply};
use radio_session::{Ending, State};
use radio_values::{MountName, Shown, Title};
use std::alloc::Global;
use std::marker::Model;

/// The pull of a relay: the mount that it feeds here, the reading of its master's answer, and its
/// number in the server once it is up.
///
/// In contracts it is a `Pulling`.
pub struct RelayPull {
    alloc: Global,
    mount: MountName,
    number: Option<u64>,
    pub(crate) pull: Pull,
}

impl Drop for RelayPull {
    fn drop(self) {
        let RelayPull {
            alloc: _,
            mount: _,
            number: _,
            pull,
        } = self;
        drop(pull);
    }
}

impl Model for RelayPull {
    ghost use Rattle.radio_relay.specs.Pulling.{Pulling};

    ghost Value = { Pulling };

    ghost view = { λ p. record { mount = p.mount; number = p.number; stage = p.pull } };
}

impl RelayPull {
    /// The pull of the relay that feeds this mount; nothing has come yet. It takes no memory now, and
    /// keeps `alloc` for later.
    pub fn new(alloc: Global, mount: MountName) -> RelayPull
        ensures { result ≡ pulling_begun mount }
    {
        RelayPull {
            alloc,
            mount,
            number: None,
            pull: Pull::new(alloc),
        }
    }

    /// The number of the relay; `None` until it is up.
    pub fn number(&self) -> Option<u64>
        ensures { result ≡ self.now.number }
    {
        self.number
    }

    /// The event by which the relay sets its mount's title; `None` until it is up.
    pub fn title(&self, text: Title) -> Option<Event>
        ensures { result ≡ option_map (λ id. TitleOf id text) self.now.number }
    {
        match self.number {
            Some(id) => Some(Event::Title { id, text }),
            None => None,
        }
    }

    /// The event of a relay on whose connection there is room; `None` until it is up.
    pub fn room(&self, room: u32) -> Option<Event>
        ensures { result ≡ option_map (λ id. DrawOf id room) self.now.number }
    {
        match self.number {
            Some(id) => Some(Event::Draw { id, room }),
            None => None,
        }
    }

    /// What an item asks for; `None` if the relay is not up, and the item does not bring it up.
    /// `OutOfMemory` if memory was refused for the event of what the head shows.
    pub(crate) fn event_for(&self, item: PullItem) -> Result<Option<Event>, OutOfMemory>
        ensures ok { IfOk result (λ event. event ≡ event_for self.now.mount self.now.number item) }
        ensures refused { OnErr result (MakingTakesMemory item) }
    {
        match self.number {
            Some(id) => Ok(Some(self.event_of(id, item)?)),
            None => self.coming_up(item),
        }
    }

    /// What an item asks for, of the relay of this number. `OutOfMemory` if memory was refused for the event of what the head shows.
    fn event_of(&self, id: u64, item: PullItem) -> Result<Event, OutOfMemory>
        ensures ok { IfOk result (λ event. event ≡ event_of self.now.mount id item) }
        ensures refused { OnErr result (MakingTakesMemory item) }
    {
        match item {
            PullItem::Up(shown) => self.comes_up(shown),
            PullItem::Sound(block) => Ok(Event::Push { id, block }),
            PullItem::Title(text) => Ok(Event::Title { id, text }),
        }
    }

    /// What an item asks for that may bring the relay up. `OutOfMemory` if memory was refused for the event of what the head shows.
    fn coming_up(&self, item: PullItem) -> Result<Option<Event>, OutOfMemory>
        ensures ok { IfOk result (λ event. event ≡ event_for self.now.mount None item) }
        ensures refused { OnErr result (MakingTakesMemory item) }
    {
        match item {
            PullItem::Up(shown) => Ok(Some(self.comes_up(shown)?)),
            PullItem::Sound(_) | PullItem::Title(_) => Ok(None),
        }
    }

    /// The relay comes up, and its stream shows this. `OutOfMemory` if memory was refused.
    fn comes_up(&self, shown: Shown) -> Result<Event, OutOfMemory>
        ensures { IfOk result (λ event. event ≡ Event.RelayUp self.now.mount shown) }
    {
        let mount = Bytes::copy_from_slice(self.alloc, self.mount.as_bytes())?;
        let shown = Boxed::new(self.alloc, shown)?;
        Ok(Event::RelayUp { mount, shown })
    }

    /// Notes the reply to its event, and returns whether its pull goes on.
    pub(crate) fn answer(&mut self, reply: &Reply) -> State
        ensures state { result ≡ (state_after_reply self.old.number reply.now).state }
        ensures number { self.new ≡ record self.old { number = (state_after_reply self.old.number reply.now).number } }
    {
        match reply {
            Reply::Arrived(id) => {
                self.number = self.number.or(Some(*id));
                State::Running
            }
            Reply::Deny(rule) | Reply::Finished(rule) => State::Shut(Ending::By(*rule)),
            Reply::Feeding
            | Reply::Seated { .. }
            | Reply::Drawn { .. }
            | Reply::Noted
            | Reply::Text(_)
            | Reply::Stray => State::Running,
        }
    }
}
