//! Turns replies into the bytes to write. Read [`Session::give`] first.

ghost use Rattle.std.specs.Prelude.{◌≡◌, ◌≤◌, ◌++◌, length, true, Some, option_copied, option_map, IfOk, IfSome, IsErr, OnOk, OnErr};
ghost use Rattle.radio_session.specs.Conversation.{saying_now};
ghost use Rattle.radio_session.specs.Saying.{said, texted, denied, noted, one_less, admitted, listener_admitted, drew, last_text, last_ending, greeting_text, counted_down};
ghost use Rattle.radio_answers.specs.Answers.{head_text};
ghost use Rattle.radio_session.specs.Draws.{draw, drawn, weaver_at};
ghost use Rattle.radio_values.specs.Limits.{max_title};
ghost use Rattle.radio_events.specs.declared.state.State.TheVariants.{Running, Shut};

use crate::session::weaving::{tell_draw, text_of, weaver_at};
use crate::session::{Closing, Greeting, LastWord, Session};
use crate::{OutOfMemory, WebAnswers};
use radio_answers::{
    append_answer, append_continue, append_denial, append_stream_head, append_text,
};
use radio_blocks::Pieces;
use radio_events::{Ending, Reply, ReplyText, State, StreamHead};
use radio_heads::Answer;
use radio_policy::Rule;
use std::alloc::{AllocError, Global};

impl Session {
    /// Takes the reply to an event of the client, appends its bytes to `out`, and returns whether the connection goes
    /// on.
    ///
    /// `OutOfMemory` if memory was refused, now or to an earlier call. Then the session has failed, and nothing was
    /// appended.
    // rule: Bad head; Cache control; Sandboxed streams; Answer to a denial
    pub fn give(&mut self, reply: Reply, out: &mut Vec<u8>) -> Result<State, OutOfMemory>
        ensures bytes { IfOk result (λ _. out.new.items ≡ out.old.items ++ (said self.old.says reply).bytes) }
        ensures state { IfOk result (λ state. state ≡ (said self.old.says reply).state) }
        ensures says { IfOk result (λ _. self.new ≡ saying_now self.old (said self.old.says reply).says) }
        // a refused call writes nothing and fails the session, and a failed session refuses
        ensures silent { OnErr result (out.new.items ≡ out.old.items) }
        ensures fails { OnErr result (self.new.has_failed ≡ true) }
        ensures failed { self.old.has_failed ≡ true → IsErr result }
    {
        let appended = self.tell_reply(&reply, out);
        drop(reply);
        appended
    }

    /// Does what [`Session::give`] does, for a reply that the caller keeps.
    pub fn tell_reply(&mut self, reply: &Reply, out: &mut Vec<u8>) -> Result<State, OutOfMemory>
        ensures bytes { IfOk result (λ _. out.new.items ≡ out.old.items ++ (said self.old.says reply.now).bytes) }
        ensures state { IfOk result (λ state. state ≡ (said self.old.says reply.now).state) }
        ensures says { IfOk result (λ _. self.new ≡ saying_now self.old (said self.old.says reply.now).says) }
        ensures silent { OnErr result (out.new.items ≡ out.old.items) }
        ensures fails { OnErr result (self.new.has_failed ≡ true) }
        ensures failed { self.old.has_failed ≡ true → IsErr result }
    {
        if self.has_failed {
            return Err(AllocError);
        }
        match self.say(reply, out) {
            Ok(state) => Ok(state),
            Err(refused) => {
                self.has_failed = true;
                Err(refused)
            }
        }
    }

    /// Appends the bytes of a reply. The session has not failed.
    fn say(&mut self, reply: &Reply, out: &mut Vec<u8>) -> Result<State, OutOfMemory>
        ensures bytes { IfOk result (λ _. out.new.items ≡ out.old.items ++ (said self.old.says reply.now).bytes) }
        ensures state { IfOk result (λ state. state ≡ (said self.old.says reply.now).state) }
        ensures says { IfOk result (λ _. self.new ≡ saying_now self.old (said self.old.says reply.now).says) }
        ensures silent { OnErr result (out.new.items ≡ out.old.items) }
    {
        match reply {
            Reply::Feeding => self.admit_source(out),
            Reply::Seated { interval, head } => self.admit_listener(*interval, head, out),
            Reply::Drawn { pieces, title } => self.tell_pieces(pieces, text_of(title), out),
            Reply::Noted => self.note(out),
            Reply::Text(text) => self.tell_text(text, out),
            Reply::Deny(rule) => self.deny(*rule, out),
            Reply::Finished(rule) => Ok(State::Shut(Ending::By(*rule))),
            Reply::Arrived(_) | Reply::Stray => {
                self.count();
                Ok(State::Running)
            }
        }
    }

    /// Appends the first answer to a source, and marks it as admitted.
    fn admit_source(&mut self, out: &mut Vec<u8>) -> Result<State, OutOfMemory>
        ensures bytes { IfOk result (λ _. out.new.items ≡ out.old.items ++ greeting_text self.old.says.web self.old.says.greeting) }
        ensures state { IfOk result (λ state. state ≡ Running) }
        ensures says { IfOk result (λ _. self.new ≡ saying_now self.old (admitted self.old.says)) }
        ensures silent { OnErr result (out.new.items ≡ out.old.items) }
    {
        greet(self.alloc, self.says.web, self.says.greeting, out)?;
        self.admit();
        Ok(State::Running)
    }

    /// Appends the head of a listener's stream, and marks the listener as admitted.
    fn admit_listener(
        &mut self,
        interval: Option<u32>,
        head: &StreamHead,
        out: &mut Vec<u8>,
    ) -> Result<State, OutOfMemory>
        ensures bytes { IfOk result (λ _. out.new.items ≡ out.old.items ++ head_text self.old.says.web interval head.now) }
        ensures state { IfOk result (λ state. state ≡ Running) }
        ensures says { IfOk result (λ _. self.new ≡ saying_now self.old (listener_admitted self.old.says interval)) }
        ensures silent { OnErr result (out.new.items ≡ out.old.items) }
    {
        append_stream_head(self.alloc, self.says.web, interval, head, out)?;
        self.says.weaver = weaver_at(self.alloc, interval);
        self.admit();
        Ok(State::Running)
    }

    /// Appends a listener's data, drawn while its mount had this title.
    fn tell_pieces(
        &mut self,
        pieces: &Pieces,
        title: Option<&[u8]>,
        out: &mut Vec<u8>,
    ) -> Result<State, OutOfMemory>
        requires { IfSome title (λ text. length text.now ≤ max_title) }
        ensures bytes { IfOk result (λ _. out.new.items ≡ out.old.items ++ drawn self.old.says.weaver (draw pieces.now (option_copied title.entry))) }
        ensures state { IfOk result (λ state. state ≡ Running) }
        ensures says { IfOk result (λ _. self.new ≡ saying_now self.old (drew self.old.says (draw pieces.now (option_copied title.entry)))) }
        ensures silent { OnErr result (out.new.items ≡ out.old.items) }
    {
        tell_draw(&mut self.says.weaver, pieces, title, out)?;
        self.count();
        Ok(State::Running)
    }

    /// Appends the text of a command that was done. If a source or a listener was admitted, it only shuts the
    /// connection.
    fn tell_text(&self, text: &ReplyText, out: &mut Vec<u8>) -> Result<State, OutOfMemory>
        ensures bytes { IfOk result (λ _. out.new.items ≡ out.old.items ++ (texted self.now.says text.now).bytes) }
        ensures state { IfOk result (λ state. state ≡ (texted self.now.says text.now).state) }
        ensures silent { OnErr result (out.new.items ≡ out.old.items) }
    {
        if !self.says.is_admitted {
            append_text(self.alloc, self.says.web, text, out)?;
        }
        Ok(State::Shut(Ending::Done))
    }

    /// Appends the denial by a rule of the policy. If a source or a listener was admitted, it only shuts the
    /// connection.
    fn deny(&self, rule: Rule, out: &mut Vec<u8>) -> Result<State, OutOfMemory>
        ensures bytes { IfOk result (λ _. out.new.items ≡ out.old.items ++ (denied self.now.says rule).bytes) }
        ensures state { IfOk result (λ state. state ≡ (denied self.now.says rule).state) }
        ensures silent { OnErr result (out.new.items ≡ out.old.items) }
    {
        if !self.says.is_admitted {
            append_denial(self.alloc, self.says.web, rule, out)?;
        }
        Ok(State::Shut(Ending::By(rule)))
    }

    /// Takes the reply that an event was noted. If the connection closes by its own rule and awaits no other reply,
    /// it appends its last word.
    fn note(&mut self, out: &mut Vec<u8>) -> Result<State, OutOfMemory>
        ensures bytes { IfOk result (λ _. out.new.items ≡ out.old.items ++ (noted self.old.says self.old.says.closing).bytes) }
        ensures state { IfOk result (λ state. state ≡ (noted self.old.says self.old.says.closing).state) }
        ensures says { IfOk result (λ _. self.new ≡ saying_now self.old (noted self.old.says self.old.says.closing).says) }
        ensures silent { OnErr result (out.new.items ≡ out.old.items) }
    {
        match self.says.closing {
            None => Ok(State::Running),
            Some(closing) => self.note_closing(closing, out),
        }
    }

    /// Counts one reply before the connection's own last word, or appends that word.
    fn note_closing(&mut self, closing: Closing, out: &mut Vec<u8>) -> Result<State, OutOfMemory>
        ensures bytes { IfOk result (λ _. out.new.items ≡ out.old.items ++ (noted self.old.says (Some closing)).bytes) }
        ensures state { IfOk result (λ state. state ≡ (noted self.old.says (Some closing)).state) }
        ensures says { IfOk result (λ _. self.new ≡ saying_now self.old (noted self.old.says (Some closing)).says) }
        ensures silent { OnErr result (out.new.items ≡ out.old.items) }
    {
        if closing.awaits == 0 {
            return tell_last(
                self.alloc,
                self.says.web,
                self.says.greeting,
                closing.word,
                out,
            );
        }
        self.count();
        Ok(State::Running)
    }

    /// Marks a source or a listener as admitted.
    fn admit(&mut self)
        ensures { self.new ≡ saying_now self.old (admitted self.old.says) }
    {
        self.says.is_admitted = true;
        self.count();
    }

    /// Counts one reply before the one with the last word.
    fn count(&mut self)
        ensures { self.new ≡ saying_now self.old (counted_down self.old.says) }
    {
        self.says.closing = counted(self.says.closing);
    }
}

/// Returns the closing with one reply fewer before the one with the last word.
fn counted(closing: Option<Closing>) -> Option<Closing>
    ensures { result ≡ option_map one_less closing }
{
    let Closing { awaits, word } = closing?;
    Some(Closing {
        awaits: awaits.saturating_sub(1),
        word,
    })
}

/// Appends the last word of the connection itself, and returns how it shuts.
fn tell_last(
    alloc: Global,
    web: WebAnswers,
    greeting: Greeting,
    word: LastWord,
    out: &mut Vec<u8>,
) -> Result<State, OutOfMemory>
    ensures bytes { IfOk result (λ _. out.new.items ≡ out.old.items ++ last_text web greeting word) }
    ensures state { IfOk result (λ state. state ≡ Shut (last_ending word)) }
    ensures silent { OnErr result (out.new.items ≡ out.old.items) }
{
    match word {
        LastWord::Refusal(rule) => {
            append_denial(alloc, web, rule, out)?;
            Ok(State::Shut(Ending::By(rule)))
        }
        LastWord::Complete => {
            if greeting == Greeting::Continue {
                append_answer(alloc, web, &Answer::Source, out)?;
            }
            Ok(State::Shut(Ending::Done))
        }
        LastWord::Faulty => Ok(State::Shut(Ending::BadBody)),
    }
}

/// Appends what an admitted source reads first.
fn greet(
    alloc: Global,
    web: WebAnswers,
    greeting: Greeting,
    out: &mut Vec<u8>,
) -> Result<(), OutOfMemory>
    ensures ok { OnOk result (out.new.items ≡ out.old.items ++ greeting_text web greeting) }
    ensures err { OnErr result (out.new.items ≡ out.old.items) }
{
    match greeting {
        Greeting::Welcome => append_answer(alloc, web, &Answer::Source, out),
        Greeting::Continue => append_continue(alloc, out),
    }
}
