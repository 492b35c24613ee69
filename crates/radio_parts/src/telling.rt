//! Replies that name how many a command has moved or finished, which is known once its change is made.

ghost use Rattle.std.specs.Prelude.{◌≡◌, map};
ghost use Rattle.radio_parts.specs.Planned.{told_counts, with_counts};
ghost use Rattle.radio_events.specs.declared.reply.Reply.{Reply as ReplyOf};

use radio_events::{Reply, ReplyText};
use radio_fallback::Carried;

/// Returns the reply with these numbers of listeners moved or finished, if it names any.
pub(crate) fn with_counts(reply: Reply, counts: Carried) -> Reply
    ensures { result ≡ with_counts reply counts }
{
    match reply {
        Reply::Text(text) => Reply::Text(told_counts(text, counts)),
        other @ (Reply::Arrived(_)
        | Reply::Feeding
        | Reply::Seated { .. }
        | Reply::Drawn { .. }
        | Reply::Noted
        | Reply::Deny(_)
        | Reply::Finished(_)
        | Reply::Stray) => other,
    }
}

fn told_counts(text: ReplyText, counts: Carried) -> ReplyText
    ensures { result ≡ told_counts text counts }
{
    match text {
        ReplyText::Moved(_) => ReplyText::Moved(counts.moved),
        ReplyText::Ended(_) => ReplyText::Ended(counts.ended),
        other @ (ReplyText::Done
        | ReplyText::Json(_)
        | ReplyText::Streams(_)
        | ReplyText::Public { .. }
        | ReplyText::Page { .. }) => other,
    }
}

/// Returns each of the replies with these numbers.
pub(crate) fn all_with_counts(replies: [Reply; 3], counts: Carried) -> [Reply; 3]
    ensures { result ≡ map (λ (reply : ReplyOf). with_counts reply counts) replies }
{
    let [first, second, third] = replies;
    [
        with_counts(first, counts),
        with_counts(second, counts),
        with_counts(third, counts),
    ]
}
