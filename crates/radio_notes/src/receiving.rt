//! What is read from a connection, as its bytes come.

ghost use Rattle.std.specs.Prelude.{◌≢◌, ◌++◌, []};
ghost use Rattle.std.specs.Option.{IfSome};
ghost use Rattle.radio_notes.specs.Requests.{IsReceived, IsOfHead, IsRequestIn};

use crate::agent::agent_in;
use crate::request::Request;
use crate::request_so_far::RequestSoFar;
use radio_events::Event;
use radio_heads::{Progress, read_request};
use std::alloc::Global;

/// Returns what is read once these bytes have come behind those of a head that are held, and mean these
/// events.
// rule: Line of a client
pub(crate) fn received(alloc: Global, held: Vec<u8>, bytes: &[u8], events: &[Event]) -> RequestSoFar
    ensures { IsReceived (held.items ++ bytes.now) events.now result }
{
    if events.is_empty() {
        return hold(held, bytes);
    }
    if held.is_empty() {
        return request_in(alloc, bytes, events);
    }
    match hold(held, bytes) {
        RequestSoFar::Part(head) => request_in(alloc, head.as_slice(), events),
        RequestSoFar::Request(_) | RequestSoFar::Nothing => RequestSoFar::Nothing,
    }
}

/// More bytes of a head, of which no event is known.
fn hold(held: Vec<u8>, bytes: &[u8]) -> RequestSoFar
    ensures { IsReceived (held.items ++ bytes.now) [] result }
{
    let mut held = held;
    match held.extend_from_slice(bytes) {
        Ok(()) => RequestSoFar::Part(held),
        Err(_) => RequestSoFar::Nothing,
    }
}

/// The request of a head, which means these events.
fn request_in(alloc: Global, head: &[u8], events: &[Event]) -> RequestSoFar
    requires { events.now ≢ [] }
    ensures { IsReceived head.now events.now result }
{
    match read(alloc, head, events) {
        Some(request) => RequestSoFar::Request(request),
        None => RequestSoFar::Nothing,
    }
}

/// The request of a head, which means these events: the event of a listener has all of it but the user agent. `None` if memory
/// is refused, or the head is none.
fn read(alloc: Global, head: &[u8], events: &[Event]) -> Option<Request>
    ensures { IfSome result (λ kept. IsRequestIn head.now events.now kept) }
{
    match events.first() {
        Some(Event::Listen(asked)) => Request::of_listener(alloc, asked, agent_in(head)),
        Some(Event::Arrive { .. })
        | Some(Event::Source(_))
        | Some(Event::Push { .. })
        | Some(Event::SourceEnd { .. })
        | Some(Event::Title { .. })
        | Some(Event::Draw { .. })
        | Some(Event::Command(_))
        | Some(Event::Leave { .. })
        | Some(Event::RelayUp { .. })
        | Some(Event::RelayDown { .. })
        | Some(Event::Clock { .. })
        | None => read_again(alloc, head),
    }
}

/// The request of a head, which is read once more.
#[cold]
fn read_again(alloc: Global, head: &[u8]) -> Option<Request>
    ensures { IfSome result (λ kept. IsOfHead head.now kept) }
{
    match read_request(head) {
        Ok(Progress::Whole(head, _)) => Request::of(alloc, &head),
        Ok(Progress::More) | Err(_) => None,
    }
}
