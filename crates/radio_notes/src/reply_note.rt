//! What of a reply is noted.

ghost use Rattle.std.specs.Prelude.{◌≡◌};
ghost use Rattle.radio_notes.specs.Replies.{note_of_reply, note_of_text};

use radio_events::{Reply, ReplyText};
use radio_policy::Rule;

/// What of a reply is noted.
#[derive(Clone, Copy)]
pub enum ReplyNote {
    /// Nothing.
    Nothing,
    /// That it was done, and there is nothing to say.
    Noted,
    /// That a client feeds a mount.
    Feeding,
    /// That a client listens to a mount.
    Seated,
    /// That there is an answer.
    Text,
    /// That something of the station is shown: the page, a status or a listing.
    Shown,
    /// That it is denied, by this rule.
    Denied(Rule),
}

impl ReplyNote {
    /// Of this reply.
    pub fn of(reply: &Reply) -> ReplyNote
        ensures { result ≡ note_of_reply reply.now }
    {
        match reply {
            Reply::Noted => ReplyNote::Noted,
            Reply::Feeding => ReplyNote::Feeding,
            Reply::Seated { .. } => ReplyNote::Seated,
            Reply::Text(text) => of_text(text),
            Reply::Deny(rule) => ReplyNote::Denied(*rule),
            Reply::Arrived(_) | Reply::Drawn { .. } | Reply::Finished(_) | Reply::Stray => {
                ReplyNote::Nothing
            }
        }
    }
}

fn of_text(text: &ReplyText) -> ReplyNote
    ensures { result ≡ note_of_text text.now }
{
    match text {
        ReplyText::Done | ReplyText::Moved(_) | ReplyText::Ended(_) => ReplyNote::Text,
        ReplyText::Json(_)
        | ReplyText::Streams(_)
        | ReplyText::Public { .. }
        | ReplyText::Page { .. } => ReplyNote::Shown,
    }
}
