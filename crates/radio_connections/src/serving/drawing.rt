//! What there is for a connection.

ghost use Rattle.std.specs.Prelude.{◌≡◌, ◌-◌, length, nat_le, true};
ghost use Rattle.radio_connections.specs.declared.conn.Fate.TheVariants.{Open};
ghost use Rattle.radio_connections.specs.Leaving.{Draws, DrawsFor};
ghost use Rattle.radio_connections.specs.Rooms.{draw_room, fills_room};

use crate::serving::answering::append;
use crate::serving::{ASKED_AFTER_MS, Now};
use crate::{Conn, ConnStatus, Fate, Line, Server};
use radio_blocks::Pieces;
use radio_events::Reply;

/// For how many bytes of data a listener has room in a turn.
pub const DRAW_ROOM: u32 = 65536;

/// Draws for a listener with a seat if there is news, or if it was left behind what there was before.
/// Without news it also draws if nothing was asked for it in half a second. A draw without room is
/// made then for one that has no seat: its reply says by which rule it was finished, if it was.
// rule: Drawing
pub(crate) fn draw<S: Server, L: Line>(server: &mut S, conn: &mut Conn<L>, now: Now)
    ensures { Draws S.steps now.ms now.news server.old conn.old server.new conn.new }
{
    if !conn.status.fate.is_open() {
        return;
    }
    if !is_due(conn.status, now) {
        return;
    }
    conn.status.asked_ms = now.ms;
    if conn.status.sits {
        draw_for(server, conn, DRAW_ROOM);
    } else {
        draw_for(server, conn, 0);
    }
}

/// Returns whether a draw is due at this status.
fn is_due(status: ConnStatus, now: Now) -> bool
    ensures news { status.sits ≡ true → now.news ≡ true → result ≡ true }
    ensures more { status.sits ≡ true → status.is_behind ≡ true → result ≡ true }
    ensures unasked { nat_le 500 (now.ms - status.asked_ms) ≡ true → result ≡ true }
{
    if status.sits {
        if now.news || status.is_behind {
            return true;
        }
    }
    now.is_past(status.asked_ms, ASKED_AFTER_MS)
}

/// Returns whether a draw has brought as much as it had room for, so that there may be more.
pub fn fills_room(reply: &Reply) -> bool
    ensures { result ≡ fills_room reply.now }
{
    match reply {
        Reply::Drawn { pieces, .. } => is_full(pieces),
        Reply::Arrived(_)
        | Reply::Feeding
        | Reply::Seated { .. }
        | Reply::Noted
        | Reply::Text(_)
        | Reply::Deny(_)
        | Reply::Finished(_)
        | Reply::Stray => false,
    }
}

/// Returns whether these are as many bytes as a listener has room for in a turn, or more.
#[tactic(auto, using(crate::proofs::RoomLemmas::room_left))]
fn is_full(pieces: &Pieces) -> bool
    ensures { result ≡ nat_le draw_room (length pieces.now) }
{
    let mut left = DRAW_ROOM as usize;
    'slices: for slice in pieces.slices() {
        left = left.saturating_sub(slice.len());
    }
    left == 0
}

/// Draws for the client, which has room for so many bytes, and appends the reply. The connection has ended if that shuts it, and is cut
/// off if memory is refused. The reply is data, or the rule by which the listener was finished: there is nothing to log of it yet.
// rule: Drawing; Connection without memory
fn draw_for<S: Server, L: Line>(server: &mut S, conn: &mut Conn<L>, room: u32)
    requires { conn.old.status.fate ≡ Open }
    ensures { DrawsFor S.steps room server.old conn.old server.new conn.new }
{
    let drawn = server.draw(conn.id, room);
    // the reply is large, so it is not moved out of the result
    match &drawn {
        Ok(reply) => {
            conn.status.is_behind = fills_room(reply);
            conn.status.fate = append(&mut conn.outgoing, &mut conn.session, reply, &conn.account);
            drop(drawn);
        }
        Err(_) => {
            conn.refusals.count(false);
            conn.account.note_no_memory();
            conn.status.fate = Fate::Cut;
            drop(drawn);
        }
    }
}
