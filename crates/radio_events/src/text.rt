//! What the server answers a command, and one who wants to be shown something of the station.

ghost use Rattle.std.specs.Prelude.{◌≡◌, IsOk, IfOk};
ghost use Rattle.radio_events.specs.Texts.{IsShort};
ghost use Rattle.radio_events.specs.declared.text.ReplyText.{ReplyText as TextOf};

use crate::OutOfMemory;
use bytes::Bytes;
use radio_values::AllowedOrigin;

/// What the server answers a command that it has done, or one who is shown something of the station.
#[derive(Drop)]
pub enum ReplyText {
    /// That the command was done.
    Done,
    /// How many listeners went to another mount.
    Moved(u64),
    /// How many listeners have finished by it.
    Ended(u64),
    /// A listing, in JSON (RFC 8259).
    Json(Bytes),
    /// The names of the mounts that a relay may pull, with CR LF behind each.
    Streams(Bytes),
    /// What everybody may see of the station, in JSON.
    Public {
        bytes: Bytes,
        /// Whose pages may read it, where the settings say it.
        allow_origin: Option<AllowedOrigin>,
    },
    /// The page of what is on air.
    Page {
        /// Whose pages may read it, where the settings say it.
        allow_origin: Option<AllowedOrigin>,
    },
}

impl ReplyText {
    /// An equal text. `OutOfMemory` if memory was refused.
    pub fn again(&self) -> Result<ReplyText, OutOfMemory>
        ensures value { IfOk result (λ text. text ≡ self.now) }
        // of one that is no listing it is never refused
        ensures frees { IsShort self.now → IsOk result }
    {
        match self {
            ReplyText::Done => Ok(ReplyText::Done),
            ReplyText::Moved(count) => Ok(ReplyText::Moved(*count)),
            ReplyText::Ended(count) => Ok(ReplyText::Ended(*count)),
            ReplyText::Json(bytes) => Ok(ReplyText::Json(bytes.clone()?)),
            ReplyText::Streams(bytes) => Ok(ReplyText::Streams(bytes.clone()?)),
            ReplyText::Public {
                bytes,
                allow_origin,
            } => public_again(bytes, allow_origin),
            ReplyText::Page { allow_origin } => Ok(ReplyText::Page {
                allow_origin: allow_origin.clone()?,
            }),
        }
    }
}

/// An equal text for everybody. `OutOfMemory` if memory was refused.
fn public_again(
    bytes: &Bytes,
    allow_origin: &Option<AllowedOrigin>,
) -> Result<ReplyText, OutOfMemory>
    ensures { IfOk result (λ text. text ≡ TextOf.Public bytes.now allow_origin.now) }
{
    Ok(ReplyText::Public {
        bytes: bytes.clone()?,
        allow_origin: allow_origin.clone()?,
    })
}
