//! What the server replies.

use crate::{Boxed, OutOfMemory, ReplyText};
use radio_blocks::Pieces;
use radio_policy::Rule;
use radio_values::{AllowedOrigin, Shown, Title};

/// What the head of a listener's stream says.
pub struct StreamHead {
    /// What the session shows that it hears.
    pub shown: Shown,
    /// Whose pages may read the stream (`Access-Control-Allow-Origin`), where the settings say it.
    pub allow_origin: Option<AllowedOrigin>,
}

impl Drop for StreamHead {
    fn drop(self) {
        let StreamHead {
            shown,
            allow_origin,
        } = self;
        drop(shown);
        drop(allow_origin);
    }
}

impl StreamHead {
    ghost use Rattle.std.specs.Prelude.{◌≡◌, IfOk};

    /// An equal one. `OutOfMemory` if memory was refused.
    pub fn again(&self) -> Result<StreamHead, OutOfMemory>
        ensures { IfOk result (λ head. head ≡ self.now) }
    {
        Ok(StreamHead {
            shown: self.shown.clone()?,
            allow_origin: self.allow_origin.clone()?,
        })
    }
}

/// What the server replies to an event.
#[derive(Drop)]
pub enum Reply {
    /// The client, or the relay, has this number from now on.
    Arrived(u64),
    /// The client feeds the mount from now on.
    Feeding,
    /// The client hears a mount from now on.
    Seated {
        /// After how many bytes of data it is sent a metadata block, if it asked for metadata.
        interval: Option<u32>,
        /// What else its head says.
        head: Boxed<StreamHead>,
    },
    /// The listener's next data.
    Drawn {
        /// The data.
        pieces: Pieces,
        /// The title that the source of its mount has set last, if it has set one.
        title: Option<Title>,
    },
    /// It was done, and there is nothing to say.
    Noted,
    /// The command was done, or something of the station is shown; this is the answer.
    Text(ReplyText),
    /// The policy denies it, by this rule.
    Deny(Rule),
    /// The client or relay was finished before, by this rule.
    Finished(Rule),
    /// The event does not fit the client or relay, or there is none of that number; nothing has
    /// changed.
    Stray,
}

impl Reply {
    ghost use Rattle.std.specs.Prelude.{◌≡◌, IsOk, IfOk};
    ghost use Rattle.radio_events.specs.Replies.{HoldsNoText};

    /// An equal reply. `OutOfMemory` if memory was refused.
    pub fn again(&self) -> Result<Reply, OutOfMemory>
        ensures value { IfOk result (λ reply. reply ≡ self.now) }
        // of a reply with neither data nor names, titles or listings it is never refused
        ensures frees { HoldsNoText self.now → IsOk result }
    {
        match self {
            Reply::Arrived(id) => Ok(Reply::Arrived(*id)),
            Reply::Feeding => Ok(Reply::Feeding),
            Reply::Seated { interval, head } => Ok(Reply::Seated {
                interval: *interval,
                head: Boxed::new(head.allocator(), head.again()?)?,
            }),
            Reply::Drawn { pieces, title } => Ok(Reply::Drawn {
                pieces: pieces.again()?,
                title: title.clone()?,
            }),
            Reply::Noted => Ok(Reply::Noted),
            Reply::Text(text) => Ok(Reply::Text(text.again()?)),
            Reply::Deny(rule) => Ok(Reply::Deny(*rule)),
            Reply::Finished(rule) => Ok(Reply::Finished(*rule)),
            Reply::Stray => Ok(Reply::Stray),
        }
    }
}
