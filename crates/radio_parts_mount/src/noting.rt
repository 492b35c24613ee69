//! What is noted in the list of a part.

ghost use Rattle.std.specs.Prelude.{◌≡◌, None, Some, List, Option, IfSome, filter, not};
ghost use Rattle.std.specs.Option.{option_map};
ghost use Rattle.radio_attachments.specs.declared.attachment.Attachment.{Attachment as AttachmentOf};
ghost use Rattle.radio_attachments.specs.Rows.{is_attached};
ghost use Rattle.radio_events.specs.Events.{client_in};
ghost use Rattle.radio_parts_mount.specs.Sessions.{Session as SessionOf, opened, with_title};
ghost use Rattle.radio_parts_mount.specs.Steps.{part_answers};
ghost use Rattle.radio_parts_mount.specs.declared.step.PartAnswer.TheVariants.{Replied};
ghost use Rattle.radio_parts_mount.specs.ByLists.{after_own, feeds, part_of, without_all, IsList};

use crate::Session;
use crate::item::Attaching;
use crate::list::PartList;
use radio_attachments::AttachmentTree;
use radio_events::{Entry, Event, Reply};
use radio_values::Title;

/// Notes that the control has detached the listener. A list is given up if the listener's number is that of the mount's source,
/// which no listener's is.
pub(crate) fn note_detached(list: &mut PartList, session: &Option<Session>, id: u64)
    ensures { (mount : _) (attachments : List AttachmentOf) → IsList list.old mount session.now attachments
        → IsList list.new mount session.now (filter (λ row. not (is_attached id row)) attachments) }
{
    if feeds(id, session) {
        list.give_up();
    } else {
        list.detach(id, false);
    }
}

/// Notes that the control has detached these.
pub(crate) fn note_all_detached(
    list: &mut PartList,
    session: &Option<Session>,
    others: AttachmentTree,
)
    ensures { (mount : _) (attachments : List AttachmentOf) → IsList list.old mount session.now attachments
        → IsList list.new mount session.now (without_all others attachments) }
{
    let mut others = others;
    'others: while let Some(boxed) = others.take_first() {
        note_detached(list, session, boxed.row().id);
        drop(boxed);
    }
}

/// Returns whether the client of this number feeds the session, if there is one.
fn feeds(id: u64, session: &Option<Session>) -> bool
    ensures { result ≡ feeds id session.now }
{
    match session {
        Some(session) => session.number == id,
        None => false,
    }
}

/// Notes that the session has begun.
pub(crate) fn note_begun(list: &mut PartList, session: &Session)
    requires { session.now ≡ opened session.now.mount session.now.number session.now.shown session.now.last_block }
    ensures { (attachments : List AttachmentOf) → IsList list.old session.now.mount None attachments
        → IsList list.new session.now.mount (Some session.now) attachments }
{
    match session.shown.clone() {
        Ok(shown) => list.attach(
            session.number,
            Attaching::Feeder {
                shown,
                moment: session.last_block,
            },
        ),
        Err(_) => list.give_up(),
    }
}

/// Notes that a command has set the title.
pub(crate) fn note_title(list: &mut PartList, title: &Option<Title>)
    ensures { (mount : _) (session : Option SessionOf) (attachments : List AttachmentOf) → IsList list.old mount session attachments
        → IsList list.new mount (option_map (with_title title.now) session) attachments }
{
    let Some(title) = title else {
        list.give_up();
        return;
    };
    match title.clone() {
        Ok(title) => list.set_title(title),
        Err(_) => list.give_up(),
    }
}

/// Notes an own event with its reply.
pub(crate) fn note_own(list: &mut PartList, moment: u64, queue: u64, event: Event, reply: &Reply)
    ensures { (mount : _) (session : Option SessionOf) (attachments : List AttachmentOf) → IsList list.old mount session attachments
        → part_answers (part_of mount session attachments) event ≡ Replied reply.now
        → IsList list.new mount (after_own queue mount moment session attachments event).session
        (after_own queue mount moment session attachments event).attachments }
{
    let Some(id) = own_client(&event) else {
        drop(event);
        list.give_up();
        return;
    };
    match reply.again() {
        Ok(reply) => list.own(id, moment, queue, Entry { event, reply }),
        Err(_) => {
            drop(event);
            list.give_up();
        }
    }
}

/// Returns the client of a block, a title or a draw.
fn own_client(event: &Event) -> Option<u64>
    ensures { IfSome result (λ id. client_in event.now ≡ Some id) }
{
    match event {
        Event::Push { id, .. } | Event::Title { id, .. } | Event::Draw { id, .. } => Some(*id),
        Event::Arrive { .. }
        | Event::Source(_)
        | Event::SourceEnd { .. }
        | Event::Listen(_)
        | Event::Command(_)
        | Event::Leave { .. }
        | Event::RelayUp { .. }
        | Event::RelayDown { .. }
        | Event::Clock { .. } => None,
    }
}

/// Notes the ends of those among these who still have a grant.
pub(crate) fn note_lagging(list: &mut PartList, lagged: &AttachmentTree)
    ensures { (mount : _) (session : Option SessionOf) (attachments : List AttachmentOf) → IsList list.old mount session attachments
        → IsList list.new mount session attachments }
{
    for _ in 0..list.grant_count() {
        note_one_lagging(list, lagged);
    }
}

/// Notes the end of the first among these who still has a grant, if there is one.
fn note_one_lagging(list: &mut PartList, lagged: &AttachmentTree)
    ensures { (mount : _) (session : Option SessionOf) (attachments : List AttachmentOf) → IsList list.old mount session attachments
        → IsList list.new mount session attachments }
{
    if let Some(id) = list.first_granted(lagged) {
        list.detach(id, true);
    }
}
