//! Whether events, and whether replies, are equal.

ghost use Rattle.std.specs.Prelude.{◌≡◌, ◌↔◌, IsTrue};
ghost use Rattle.std.specs.List.{concat};

mod commands;
mod data;
mod values;

use bytes::Bytes;
use commands::is_same_request;
use data::is_same_data;
use radio_addr::Peer;
use radio_events::{
    CommandRequest, Event, ListenRequest, MomentText, PageVisit, Reply, ReplyText, SourceRequest,
    StreamHead,
};
use radio_values::{AllowedOrigin, Shown, Title};
use values::{
    is_same_bytes, is_same_origin, is_same_pair, is_same_peer, is_same_rule, is_same_shown,
    is_same_title,
};

/// Whether the two events are equal.
pub fn is_same_event(event: &Event, other: &Event) -> bool
    ensures { IsTrue result ↔ event.now ≡ other.now }
{
    match event {
        Event::Arrive { peer } => is_arrival(other, *peer),
        Event::Source(asked) => is_source(other, asked),
        Event::Push { id, block } => is_push(other, *id, block.as_bytes()),
        Event::Title { id, text } => is_title(other, *id, text.as_slice()),
        Event::SourceEnd { id } => is_source_end(other, *id),
        Event::Listen(asked) => is_listener(other, asked),
        Event::Draw { id, room } => is_draw(other, *id, *room),
        Event::Leave { id } => is_leaving(other, *id),
        Event::Command(asked) => is_command(other, asked),
        Event::RelayUp { mount, shown } => is_relay(other, mount.as_slice(), shown),
        Event::RelayDown { id } => is_relay_end(other, *id),
        Event::Clock { ms } => is_moment(other, *ms),
    }
}

/// Whether it is an arrival from this address.
fn is_arrival(event: &Event, from: Peer) -> bool
    ensures { IsTrue result ↔ Event.Arrive from ≡ event.now }
{
    let Event::Arrive { peer } = event else {
        return false;
    };
    is_same_peer(from, *peer)
}

/// Whether it is this request to feed a mount.
fn is_source(event: &Event, wanted: &SourceRequest) -> bool
    ensures { IsTrue result ↔ Event.Source wanted.now ≡ event.now }
{
    let Event::Source(asked) = event else {
        return false;
    };
    is_same_source(wanted, asked)
}

/// Whether it is this source's block of these bytes.
fn is_push(event: &Event, source: u64, bytes: &[u8]) -> bool
    ensures { IsTrue result ↔ Event.Push source bytes.now ≡ event.now }
{
    let Event::Push { id, block } = event else {
        return false;
    };
    are_same(source, bytes, *id, block.as_bytes())
}

/// Whether it is this source's title of these bytes.
fn is_title(event: &Event, source: u64, bytes: &[u8]) -> bool
    ensures { IsTrue result ↔ Event.Title source bytes.now ≡ event.now }
{
    let Event::Title { id, text } = event else {
        return false;
    };
    are_same(source, bytes, *id, text.as_slice())
}

/// Whether it is the end of this source's session.
fn is_source_end(event: &Event, source: u64) -> bool
    ensures { IsTrue result ↔ Event.SourceEnd source ≡ event.now }
{
    matches!(event, Event::SourceEnd { id } if source == *id)
}

/// Returns whether it is this request to listen to a mount.
fn is_listener(event: &Event, wanted: &ListenRequest) -> bool
    ensures { IsTrue result ↔ Event.Listen wanted.now ≡ event.now }
{
    let Event::Listen(asked) = event else {
        return false;
    };
    is_same_listener(wanted, asked)
}

/// Whether it is this listener's draw, for so many bytes.
fn is_draw(event: &Event, listener: u64, bytes: u32) -> bool
    ensures { IsTrue result ↔ Event.Draw listener bytes ≡ event.now }
{
    matches!(event, Event::Draw { id, room } if listener == *id && bytes == *room)
}

/// Whether this client leaves by it.
fn is_leaving(event: &Event, client: u64) -> bool
    ensures { IsTrue result ↔ Event.Leave client ≡ event.now }
{
    matches!(event, Event::Leave { id } if client == *id)
}

/// Whether it is this request for a command.
fn is_command(event: &Event, wanted: &CommandRequest) -> bool
    ensures { IsTrue result ↔ Event.Command wanted.now ≡ event.now }
{
    let Event::Command(asked) = event else {
        return false;
    };
    is_same_request(wanted, asked)
}

/// Whether it is a relay that wants to feed the mount of this name, and shows this.
fn is_relay(event: &Event, name: &[u8], wanted: &Shown) -> bool
    ensures { IsTrue result ↔ Event.RelayUp name.now wanted.now ≡ event.now }
{
    let Event::RelayUp { mount, shown } = event else {
        return false;
    };
    is_same_bytes(name, mount.as_slice()) && is_same_shown(wanted, shown)
}

/// Whether this relay goes down by it.
fn is_relay_end(event: &Event, relay: u64) -> bool
    ensures { IsTrue result ↔ Event.RelayDown relay ≡ event.now }
{
    matches!(event, Event::RelayDown { id } if relay == *id)
}

/// Whether it is this moment.
fn is_moment(event: &Event, moment: u64) -> bool
    ensures { IsTrue result ↔ Event.Clock moment ≡ event.now }
{
    matches!(event, Event::Clock { ms } if moment == *ms)
}

/// Whether the two replies are equal.
pub fn is_same_reply(reply: &Reply, other: &Reply) -> bool
    ensures { IsTrue result ↔ reply.now ≡ other.now }
{
    match reply {
        Reply::Arrived(id) => matches!(other, Reply::Arrived(same) if *id == *same),
        Reply::Feeding => matches!(other, Reply::Feeding),
        Reply::Seated { interval, head } => is_seat(other, *interval, head),
        Reply::Drawn { pieces, title } => is_drawn(other, pieces.slices(), title),
        Reply::Noted => matches!(other, Reply::Noted),
        Reply::Text(text) => matches!(other, Reply::Text(same) if is_same_text(text, same)),
        Reply::Deny(rule) => matches!(other, Reply::Deny(same) if is_same_rule(*rule, *same)),
        Reply::Finished(rule) =>
            matches!(other, Reply::Finished(same) if is_same_rule(*rule, *same)),
        Reply::Stray => matches!(other, Reply::Stray),
    }
}

/// Whether it is a seat with titles at this interval, and this head.
fn is_seat(reply: &Reply, wanted: Option<u32>, begun: &StreamHead) -> bool
    ensures { IsTrue result ↔ Reply.Seated wanted begun.now ≡ reply.now }
{
    let Reply::Seated { interval, head } = reply else {
        return false;
    };
    wanted == *interval && is_same_head(begun, head)
}

/// Whether these data were drawn, with this title.
fn is_drawn(reply: &Reply, slices: &[Bytes], wanted: &Option<Title>) -> bool
    ensures { IsTrue result ↔ Reply.Drawn (concat slices.now) wanted.now ≡ reply.now }
{
    let Reply::Drawn { pieces, title } = reply else {
        return false;
    };
    is_same_data(slices, pieces.slices()) && is_same_title(wanted, title)
}

fn is_same_source(a: &SourceRequest, b: &SourceRequest) -> bool
    ensures { IsTrue result ↔ a.now ≡ b.now }
{
    a.id == b.id
        && is_same_bytes(a.mount.as_slice(), b.mount.as_slice())
        && is_same_pair(&a.pair, &b.pair)
        && is_same_shown(&a.shown, &b.shown)
}

fn is_same_listener(a: &ListenRequest, b: &ListenRequest) -> bool
    ensures { IsTrue result ↔ a.now ≡ b.now }
{
    a.id == b.id
        && a.wants_metadata == b.wants_metadata
        && is_same_bytes(a.mount.as_slice(), b.mount.as_slice())
        && is_same_pair(&a.pair, &b.pair)
        && is_same_visit(&a.visit, &b.visit)
}

fn is_same_visit(a: &PageVisit, b: &PageVisit) -> bool
    ensures { IsTrue result ↔ a.now ≡ b.now }
{
    is_same_moment(&a.server_start, &b.server_start)
        && is_same_bytes(a.host.as_slice(), b.host.as_slice())
}

fn is_same_moment(a: &Option<MomentText>, b: &Option<MomentText>) -> bool
    ensures { IsTrue result ↔ a.now ≡ b.now }
{
    match (a, b) {
        (Some(a), Some(b)) => is_same_bytes(a, b),
        (None, None) => true,
        _ => false,
    }
}

/// Whether the numbers and the bytes are the same.
fn are_same(a: u64, x: &[u8], b: u64, y: &[u8]) -> bool
    ensures { IsTrue result ↔ (a ≡ b) × (x.now ≡ y.now) }
{
    a == b && is_same_bytes(x, y)
}

fn is_same_text(a: &ReplyText, b: &ReplyText) -> bool
    ensures { IsTrue result ↔ a.now ≡ b.now }
{
    match a {
        ReplyText::Done => matches!(b, ReplyText::Done),
        ReplyText::Moved(a) => matches!(b, ReplyText::Moved(b) if *a == *b),
        ReplyText::Ended(a) => matches!(b, ReplyText::Ended(b) if *a == *b),
        ReplyText::Json(a) => {
            matches!(b, ReplyText::Json(b) if is_same_bytes(a.as_slice(), b.as_slice()))
        }
        ReplyText::Streams(a) => {
            matches!(b, ReplyText::Streams(b) if is_same_bytes(a.as_slice(), b.as_slice()))
        }
        ReplyText::Public {
            bytes,
            allow_origin,
        } => { is_public(b, bytes.as_slice(), allow_origin) }
        ReplyText::Page { allow_origin: a } => {
            matches!(b, ReplyText::Page { allow_origin: b } if is_same_origin(a, b))
        }
    }
}

/// Whether these bytes are for everybody, and pages of this origin may read them.
fn is_public(text: &ReplyText, wanted: &[u8], origin: &Option<AllowedOrigin>) -> bool
    ensures { IsTrue result ↔ ReplyText.Public wanted.now origin.now ≡ text.now }
{
    let ReplyText::Public {
        bytes,
        allow_origin,
    } = text
    else {
        return false;
    };
    is_same_bytes(wanted, bytes.as_slice()) && is_same_origin(origin, allow_origin)
}

fn is_same_head(a: &StreamHead, b: &StreamHead) -> bool
    ensures { IsTrue result ↔ a.now ≡ b.now }
{
    is_same_shown(&a.shown, &b.shown) && is_same_origin(&a.allow_origin, &b.allow_origin)
}
