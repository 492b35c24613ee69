//! Events of a connection, applied one after another.

ghost use Rattle.std.specs.Prelude.{◌≡◌, true, List, ◌&&◌, ◌||◌};
ghost use Rattle.radio_events.specs.declared.entry.Entry.{Entry as EntryOf};
ghost use Rattle.radio_session.specs.Exchanges.{is_leave};
ghost use Rattle.radio_connections.specs.Course.{is_listen, is_seated};
ghost use Rattle.radio_connections.specs.declared.conn.Fate.TheVariants.{Closed, Cut};
ghost use Rattle.radio_events.specs.Servers.{Chain};
ghost use Rattle.radio_connections.specs.Answering.{IsAppendedAs, IsAnswered, AreAnswered};

use crate::outgoing::Outgoing;
use crate::serving::drawing::fills_room;
use crate::{Conn, ConnStatus, Fate, Line, Server};
use radio_events::{Event, Reply};
use radio_notes::{Account, Log, Notice, ReplyNote};
use radio_session::{Session, State};

/// Applies an event of the connection, and appends the reply. The connection has ended if that shuts
/// it, and is cut off if memory is refused. The notice is what the log may say of the event.
// rule: Connection without memory
pub(crate) fn answer<S: Server, L: Line>(
    server: &mut S,
    conn: &mut Conn<L>,
    event: Event,
    notice: Notice,
    log: &Log,
)
    requires { conn.old.status.fate ≡ Fate.Open }
    ensures { (entries : List EntryOf) × Chain S.steps server.old entries server.new × IsAnswered event conn.old entries conn.new }
{
    let leaves = is_leave(&event);
    let listens = is_listen(&event);
    match server.apply(event) {
        Ok(reply) => {
            conn.account.log_reply(log, notice, ReplyNote::of(&reply));
            let sits = both(listens, is_seated(&reply));
            let has_more = fills_room(&reply);
            let answered = Answered {
                leaves,
                sits,
                has_more,
            };
            note(&mut conn.status, answered);
            pass_over_if(&mut conn.line, sits);
            conn.status.fate = append(&mut conn.outgoing, &mut conn.session, &reply, &conn.account);
            drop(reply);
        }
        Err(_) => {
            conn.refusals.count(leaves);
            conn.account.note_refusal(notice);
            conn.status.fate = Fate::Cut;
        }
    }
}

/// Applies the events that were read from it, one after another, up to its end.
pub(crate) fn answer_all<S: Server, L: Line>(
    server: &mut S,
    conn: &mut Conn<L>,
    events: Vec<Event>,
    log: &Log,
)
    requires { conn.old.status.fate ≡ Fate.Open }
    ensures { (entries : List EntryOf) × Chain S.steps server.old entries server.new × AreAnswered events.items conn.old entries conn.new }
{
    for event in events {
        let notice = conn.account.notice(log, conn.session.peer(), &event);
        answer(server, conn, event, notice, log);
        if !conn.status.fate.is_open() {
            return;
        }
    }
}

/// Appends a reply to what is pending, and returns what becomes of the connection by that.
pub(crate) fn append(
    outgoing: &mut Outgoing,
    session: &mut Session,
    reply: &Reply,
    account: &Account,
) -> Fate
    ensures appended { IsAppendedAs result reply.now session.old outgoing.old session.new outgoing.new }
    // it is not closed by that, and cut off only if the session fails
    ensures closed { result ≡ Closed → ⊥ }
    ensures cut { result ≡ Cut → session.new.has_failed ≡ true }
{
    match outgoing.append_reply(session, reply) {
        Ok(State::Running) => Fate::Open,
        Ok(State::Shut(ending)) => {
            account.note_ending(ending);
            Fate::Ended
        }
        Err(_) => {
            account.note_no_memory();
            Fate::Cut
        }
    }
}

/// What an event and its reply say of a client.
#[derive(Clone, Copy)]
struct Answered {
    /// Whether it has left.
    leaves: bool,
    /// Whether it was given a seat.
    sits: bool,
    /// Whether there may be more for it.
    has_more: bool,
}

/// Notes that the client has left, that it was given a seat, and that there is more for it, if so.
fn note(status: &mut ConnStatus, answered: Answered)
    ensures { status.new ≡ record status.old { has_left = answered.leaves || status.old.has_left; sits = answered.sits || status.old.sits; is_behind = answered.sits || answered.has_more } }
{
    status.is_behind = either(answered.sits, answered.has_more);
    status.has_left = either(answered.leaves, status.has_left);
    status.sits = either(answered.sits, status.sits);
}

pub(crate) fn either(a: bool, b: bool) -> bool
    ensures { result ≡ (a || b) }
{
    a || b
}

fn both(a: bool, b: bool) -> bool
    ensures { result ≡ (a && b) }
{
    a && b
}

/// A client that was given a seat sends bytes that the connection ignores.
fn pass_over_if<L: Line>(line: &mut L, sits: bool)
    ensures given { L.given line.new ≡ L.given line.old }
    ensures taken { L.taken line.new ≡ L.taken line.old }
    ensures calls { L.calls line.new ≡ L.calls line.old }
{
    if sits {
        line.pass_over();
    }
}

/// Whether the client leaves by this event.
pub(crate) fn is_leave(event: &Event) -> bool
    ensures { result ≡ is_leave event.now }
{
    matches!(event, Event::Leave { .. })
}

/// Returns whether the client asks to listen to a mount.
fn is_listen(event: &Event) -> bool
    ensures { result ≡ is_listen event.now }
{
    matches!(event, Event::Listen(_))
}

/// Whether a seat was given.
fn is_seated(reply: &Reply) -> bool
    ensures { result ≡ is_seated reply.now }
{
    matches!(reply, Reply::Seated { .. })
}
