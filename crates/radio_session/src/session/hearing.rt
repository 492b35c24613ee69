//! Turns the bytes that arrive on a connection into events. Read [`Session::take`] first.

ghost use Rattle.std.specs.Prelude.{◌≡◌, ◌≤◌, [], ◌∷◌, ◌++◌, drop, length, take, true, IfOk, IsErr, OnErr};
ghost use Rattle.radio_session.specs.Hearing.{IsHeard, HearsAs, request_heard, source_heard, get_heard, body_heard, closes_with, refuses};
ghost use Rattle.radio_session.specs.Hearing.{nothing_held, going_on};
ghost use Rattle.radio_session.specs.Conversation.{IsOpen};
ghost use Rattle.radio_session.specs.Framing.{framing_of};
ghost use Rattle.radio_source.specs.Feeding.{unfed};

use crate::OutOfMemory;
use crate::session::asking::{asks_by_get, asks_to_feed};
use crate::session::feeding::{KeptBody, push_blocks};
use crate::session::framing::{body, framing_of, greeting, is_source};
use crate::session::{Closing, Hears, LastWord, Session};
use radio_events::Event;
use radio_heads::{Head, Progress, read_request_from};
use radio_policy::Rule;
use std::alloc::{AllocError, Global};
use std::mem;

impl Session {
    /// Takes bytes that have arrived, and returns the events that they mean, in order.
    ///
    /// `OutOfMemory` if memory was refused, now or to an earlier call. Then the session has failed, and there are no
    /// events.
    // rule: Bad head; Bad method; Commands by GET; Commands by a browser; Source request; Framing; Two lengths
    // rule: Bad framing; Listen request
    pub fn take(&mut self, bytes: &[u8]) -> Result<Vec<Event>, OutOfMemory>
        // the events and the conversation after them are those that the bytes mean
        ensures events { IfOk result (λ events. IsHeard self.old bytes.now (record { events = events.items; conversation = self.new })) }
        // a refused call fails the session, and a failed session refuses
        ensures fails { OnErr result (self.new.has_failed ≡ true) }
        ensures failed { self.old.has_failed ≡ true → IsErr result }
    {
        if self.has_failed {
            return Err(AllocError);
        }
        match self.hear(bytes) {
            Ok(events) => Ok(events),
            Err(refused) => {
                self.has_failed = true;
                Err(refused)
            }
        }
    }

    /// Returns the events that these bytes mean. The session has not failed.
    fn hear(&mut self, bytes: &[u8]) -> Result<Vec<Event>, OutOfMemory>
        ensures { IfOk result (λ events. IsHeard self.old bytes.now (record { events = events.items; conversation = self.new })) }
    {
        match mem::replace(&mut self.hears, Hears::Nothing) {
            Hears::Head => {
                self.hears = Hears::Head;
                self.take_head(bytes)
            }
            Hears::Body(body) => self.take_body(body, Vec::new(self.alloc), bytes),
            Hears::Nothing => Ok(Vec::new(self.alloc)),
        }
    }

    /// Takes bytes of a body, and appends their events to `events`.
    fn take_body(
        &mut self,
        body: KeptBody,
        events: Vec<Event>,
        bytes: &[u8],
    ) -> Result<Vec<Event>, OutOfMemory>
        requires { body ≡ unfed body.place }
        ensures { IfOk result
            (λ all. body_heard (nothing_held self.old) events.items body.place bytes.now ≡ record { events = all.items; conversation = self.new }) }
    {
        let mut body = body;
        let mut events = events;
        let (blocks, word) = body.read(self.alloc, bytes)?;
        push_blocks(self.id, blocks, &mut events)?;
        match word {
            None => {
                self.go_on(Hears::Body(body));
                Ok(events)
            }
            Some(word) => self.close(events, Event::SourceEnd { id: self.id }, word),
        }
    }

    /// Takes bytes of a head.
    fn take_head(&mut self, bytes: &[u8]) -> Result<Vec<Event>, OutOfMemory>
        ensures { IfOk result (λ events. HearsAs Hears.Head self.old bytes.now (record { events = events.items; conversation = self.new })) }
    {
        let seen = self.held.len();
        let mut held = mem::replace(&mut self.held, Vec::new(self.alloc));
        held.extend_from_slice(bytes)?;
        match read_request_from(held.as_slice(), seen) {
            Ok(Progress::More) => {
                self.held = held;
                Ok(Vec::new(self.alloc))
            }
            Ok(Progress::Whole(head, length)) => self.take_request(&head, behind(&held, length)),
            Err(_) => self.refuse(Rule::BadHead),
        }
    }

    /// Takes a whole head, and the bytes that follow it.
    fn take_request(&mut self, head: &Head, behind: &[u8]) -> Result<Vec<Event>, OutOfMemory>
        ensures { IfOk result
            (λ events. request_heard (nothing_held self.old) head.now behind.now ≡ record { events = events.items; conversation = self.new }) }
    {
        if is_source(head) {
            self.take_source(head, behind)
        } else if head.method() == b"GET".as_slice() {
            self.take_get(head)
        } else {
            self.refuse(Rule::BadMethod)
        }
    }

    /// Takes the head of a GET.
    fn take_get(&mut self, head: &Head) -> Result<Vec<Event>, OutOfMemory>
        ensures { IfOk result (λ events. get_heard self.old head.now ≡ record { events = events.items; conversation = self.new }) }
    {
        let event = asks_by_get(self.alloc, self.says.web, self.id, head)?;
        let mut events = Vec::new(self.alloc);
        events.push(event)?;
        self.go_on(Hears::Nothing);
        Ok(events)
    }

    /// Takes a source's head, and the first bytes of its body.
    fn take_source(&mut self, head: &Head, behind: &[u8]) -> Result<Vec<Event>, OutOfMemory>
        ensures { IfOk result
            (λ events. source_heard (nothing_held self.old) head.now behind.now (framing_of head.now)
            ≡ record { events = events.items; conversation = self.new }) }
    {
        let Some(framing) = framing_of(head) else {
            return self.refuse(Rule::BadHead);
        };
        let event = asks_to_feed(self.alloc, self.id, head)?;
        let mut events = Vec::new(self.alloc);
        events.push(event)?;
        self.says.greeting = greeting(head);
        let body = KeptBody::new(self.alloc, body(self.alloc, framing))?;
        self.take_body(body, events, behind)
    }

    /// Refuses by the connection's own rule: the client leaves, and then reads a denial that names the rule.
    fn refuse(&mut self, rule: Rule) -> Result<Vec<Event>, OutOfMemory>
        ensures { IfOk result (λ events. refuses self.old rule ≡ record { events = events.items; conversation = self.new }) }
    {
        let events = Vec::new(self.alloc);
        self.close(
            events,
            Event::Leave { id: self.id },
            LastWord::Refusal(rule),
        )
    }

    /// Appends the last event, and closes the conversation: the reply to that event brings this last word.
    fn close(
        &mut self,
        events: Vec<Event>,
        last: Event,
        word: LastWord,
    ) -> Result<Vec<Event>, OutOfMemory>
        ensures { IfOk result (λ all. closes_with self.old events.items last word ≡ record { events = all.items; conversation = self.new }) }
    {
        let mut events = events;
        let awaits = events.len();
        events.push(last)?;
        self.go_on(Hears::Nothing);
        self.says.closing = Some(Closing { awaits, word });
        Ok(events)
    }

    /// Forgets the bytes of the head, and reads the next bytes this way.
    fn go_on(&mut self, hears: Hears)
        requires { IsOpen hears }
        ensures { self.new ≡ going_on self.old hears }
    {
        self.held.clear();
        self.hears = hears;
    }
}

/// Returns the bytes from this position on.
fn behind(bytes: &[u8], end: usize) -> &[u8]
    requires { end ≤ length bytes.now }
    ensures { result.now ≡ drop end bytes.now }
{
    &bytes[end..]
}
