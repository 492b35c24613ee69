//! What a listener draws from its mount's stream.

ghost use Rattle.std.specs.Prelude.{◌≡◌, Some, IfOk, OnOk, OnErr};
ghost use Rattle.std.specs.Option.{option_map};
ghost use Rattle.radio_parts_mount.specs.Steps.{IsDrawn, KeepsFor, portion_reply, part_hands, part_heard};

use crate::part::MountPart;
use crate::{OutOfMemory, Session};
use radio_attachments::PlaceVisit;
use radio_blocks::{Pieces, Place};
use radio_events::Reply;
use radio_values::Title;
use std::alloc::Global;

/// What a draw hands out.
#[derive(Drop)]
pub struct Portion {
    /// The data, as slices that are shared with the stream.
    pub pieces: Pieces,
    /// The title of then, if one was set.
    pub title: Option<Title>,
}

/// A draw from the session, if the mount has one, by a listener that has room for so many bytes; what it has handed out, and whether
/// memory was refused for that. The visit of a place answers nothing, so it moves nothing at each node on the way to the place.
#[derive(Drop)]
struct Draws<'a> {
    session: Option<&'a Session>,
    room: u32,
    portion: Portion,
    drawn: Result<(), OutOfMemory>,
}

impl PlaceVisit for Draws<'_> {
    type Answer = ();

    ghost use Rattle.std.specs.Option.{option_copied};
    ghost use Rattle.radio_parts_mount.specs.Steps.{IsDrawn};

    ghost visits = { λ draws place answer draws' place'. IsDrawn (option_copied draws.session) draws.room place draws.portion draws'.drawn draws'.portion place' };

    ghost goes_on = { λ draws draws' place place' answer drawn. drawn.on };

    fn visit(&mut self, place: &mut u64) {
        if let Some(session) = self.session {
            self.drawn = draw_from(session, self.room, place, &mut self.portion);
        }
    }
}

impl MountPart {
    /// Draws for the listener, which has room for so many bytes: returns the reply, with the data at its
    /// place and the title of then, and moves its place behind these data. There are none yet, and no
    /// title, if the mount waits for a session. Returns `None` if the listener is not attached here.
    /// `OutOfMemory` if memory was refused; nothing has changed then.
    pub fn draw(&mut self, alloc: Global, id: u64, room: u32) -> Result<Option<Reply>, OutOfMemory>
        ensures reply { KeepsFor id self.old → IfOk result (λ reply. reply ≡ option_map portion_reply (part_hands self.old id room)) }
        ensures ok { KeepsFor id self.old → OnOk result (self.new ≡ part_heard self.old id room) }
        ensures err { OnErr result (self.new ≡ self.old) }
    {
        let mut draws = Draws {
            session: self.session.as_ref(),
            room,
            portion: Portion {
                pieces: Pieces::new(alloc),
                title: None,
            },
            drawn: Ok(()),
        };
        match self.attachments.visit(id, &mut draws) {
            Some(()) => match draws.drawn {
                Ok(()) => Ok(Some(draws.into_reply())),
                Err(refused) => {
                    drop(draws);
                    Err(refused)
                }
            },
            None => {
                drop(draws);
                Ok(None)
            }
        }
    }
}

impl Draws<'_> {
    /// Returns the reply that has what was handed out.
    fn into_reply(self) -> Reply
        ensures { result ≡ portion_reply self.entry.portion }
    {
        let Draws { portion, .. } = self;
        let Portion { pieces, title } = portion;
        Reply::Drawn { pieces, title }
    }
}

/// Draws from the session's stream at the place, at most `room` bytes, puts them behind the portion's data, and sets the place
/// behind them. The portion gets the title of then. Nothing is handed out if the place was forgotten. `OutOfMemory` if memory
/// was refused; the place is unchanged then.
fn draw_from(
    session: &Session,
    room: u32,
    place: &mut u64,
    portion: &mut Portion,
) -> Result<(), OutOfMemory>
    ensures { IsDrawn (Some session.now) room place.old portion.old result portion.new place.new }
{
    let before = Place::new(*place);
    if before < session.stream.first() {
        return Ok(());
    }
    let after = session.stream.draw(before, room, &mut portion.pieces)?;
    portion.title = session.title.clone()?;
    *place = after.bytes_before();
    Ok(())
}
