//! The event that a request means.

ghost use Rattle.std.specs.Prelude.{◌≡◌, IfOk};
ghost use Rattle.radio_session.specs.Asking.{about_by, named_by, pair_of, value_or, shown_by, wants_metadata, path_in, query_in};
ghost use Rattle.radio_session.specs.Asking.{asks_to_feed, asks_by_get, asks_to_hear, gives_command, host_for, visit_for, is_for_commands, pair_for};

use crate::session::browsers::is_refused_pair;
use crate::session::commands::asked_in;
use crate::session::framing::is_word;
use crate::{OutOfMemory, WebAnswers};
use bytes::Bytes;
use radio_admin::{CommandKind, read_path};
use radio_creds::{Pair, basic};
use radio_events::{Asked, Boxed, CommandRequest, Event, ListenRequest, PageVisit, SourceRequest};
use radio_heads::{DEFAULT_CONTENT_TYPE, Head};
use radio_values::{About, Shown};
use std::alloc::Global;

/// The path of Icecast's status of the mounts that everybody may see.
const ICECAST_STATUS: &[u8] = b"/status-json.xsl";

/// The prefix of the paths of commands.
const COMMANDS: &[u8] = b"/admin/";

/// Returns the event of a client that asks to feed the mount of its head's path. `OutOfMemory` if memory
/// was refused.
pub(crate) fn asks_to_feed(alloc: Global, id: u64, head: &Head) -> Result<Event, OutOfMemory>
    ensures { IfOk result (λ event. event ≡ asks_to_feed id head.now) }
{
    let shown = shown_by(alloc, head)?;
    let pair = pair_of(alloc, head)?;
    let mount = path_in(alloc, head)?;
    let request = SourceRequest {
        id,
        mount,
        pair,
        shown,
    };
    Ok(Event::Source(Boxed::new(alloc, request)?))
}

/// Returns the event of a GET. It is a command if the path begins with `/admin/` or is that of the
/// status. Else it is a request to listen to the mount of the path. `OutOfMemory` if memory
/// was refused.
pub(crate) fn asks_by_get(
    alloc: Global,
    web: WebAnswers,
    id: u64,
    head: &Head,
) -> Result<Event, OutOfMemory>
    ensures { IfOk result (λ event. event ≡ asks_by_get web id head.now) }
{
    let path = path_in(alloc, head)?;
    if is_for_commands(path.as_slice()) {
        gives_command(alloc, web, id, head, &path)
    } else {
        asks_to_hear(alloc, web, id, head, path)
    }
}

/// Returns whether this is a path of commands, or the path of the status that everybody may see.
fn is_for_commands(path: &[u8]) -> bool
    ensures { result ≡ is_for_commands path.now }
{
    path.starts_with(COMMANDS) || path == CommandKind::Status.path().as_bytes()
}

/// Returns the event of a client that asks to listen to the mount of this path. `OutOfMemory` if memory
/// was refused.
fn asks_to_hear(
    alloc: Global,
    web: WebAnswers,
    id: u64,
    head: &Head,
    path: Bytes,
) -> Result<Event, OutOfMemory>
    ensures { IfOk result (λ event. event ≡ asks_to_hear web id head.now path) }
{
    let pair = pair_of(alloc, head)?;
    let visit = visit_for(alloc, web, path.as_slice(), head)?;
    let request = ListenRequest {
        id,
        mount: path,
        pair,
        wants_metadata: wants_metadata(head),
        visit,
    };
    Ok(Event::Listen(Boxed::new(alloc, request)?))
}

/// Returns what a page needs to know of a client that asks for this path: the host that it named, and when the server started.
/// `OutOfMemory` if memory was refused.
fn visit_for(
    alloc: Global,
    web: WebAnswers,
    path: &[u8],
    head: &Head,
) -> Result<PageVisit, OutOfMemory>
    ensures { IfOk result (λ visit. visit ≡ visit_for web path.now head.now) }
{
    Ok(PageVisit {
        host: Bytes::copy_from_slice(alloc, host_for(path, head))?,
        server_start: web.server_start,
    })
}

/// Returns the host by which the client calls the server, if it asks for the status, which shows full
/// addresses.
fn host_for<'b>(path: &[u8], head: &Head<'b>) -> &'b [u8]
    ensures { result.now ≡ host_for path.now head.now }
{
    if path == ICECAST_STATUS {
        value_or(b"", "Host", head)
    } else {
        b""
    }
}

/// Returns the event of a client that gives the command of this path. `OutOfMemory` if memory was refused.
fn gives_command(
    alloc: Global,
    web: WebAnswers,
    id: u64,
    head: &Head,
    path: &Bytes,
) -> Result<Event, OutOfMemory>
    ensures { IfOk result (λ event. event ≡ gives_command web id head.now path.now) }
{
    let asked = asked_in(alloc, path.as_slice(), query_in(head))?;
    let pair = pair_for(alloc, web, head, &asked)?;
    let request = CommandRequest { id, asked, pair };
    Ok(Event::Command(Boxed::new(alloc, request)?))
}

/// Returns the pair that counts for this request. There is none if it is a change that the page of another site may have sent,
/// unless the settings allow such commands. `OutOfMemory` if memory was refused.
fn pair_for(
    alloc: Global,
    web: WebAnswers,
    head: &Head,
    asked: &Asked,
) -> Result<Option<Pair>, OutOfMemory>
    ensures { IfOk result (λ pair. pair ≡ pair_for web head.now asked.now) }
{
    if is_refused_pair(web, head, asked) {
        return Ok(None);
    }
    pair_of(alloc, head)
}

/// Returns the percent-decoded path of a head's target. `OutOfMemory` if memory was refused.
fn path_in(alloc: Global, head: &Head) -> Result<Bytes, OutOfMemory>
    ensures { IfOk result (λ path. path ≡ path_in head.now) }
{
    let path = read_path(alloc, head.path())?;
    Bytes::copy_from_slice(alloc, path.as_slice())
}

/// Returns the query of a head's target, or an empty one if it has none.
fn query_in<'b>(head: &Head<'b>) -> &'b [u8]
    ensures { result.now ≡ query_in head.now }
{
    match head.query() {
        Some(query) => query,
        None => b"",
    }
}

/// Returns the user and the password of a head, if its `Authorization` has them (RFC 7617).
/// `OutOfMemory` if memory was refused.
fn pair_of(alloc: Global, head: &Head) -> Result<Option<Pair>, OutOfMemory>
    ensures { IfOk result (λ pair. pair ≡ pair_of head.now) }
{
    match head.value("Authorization") {
        Some(value) => basic(alloc, value),
        None => Ok(None),
    }
}

/// Returns what a source's head says of its stream, cleaned. `OutOfMemory` if memory was refused.
fn shown_by(alloc: Global, head: &Head) -> Result<Shown, OutOfMemory>
    ensures { IfOk result (λ shown. shown ≡ shown_by head.now) }
{
    let shown = named_by(alloc, head)?;
    Ok(shown.with_about(about_by(alloc, head)?))
}

/// Returns the type, name and genre of a source's head, cleaned. `OutOfMemory` if memory was refused.
fn named_by(alloc: Global, head: &Head) -> Result<Shown, OutOfMemory>
    ensures { IfOk result (λ shown. shown ≡ named_by head.now) }
{
    let content_type = value_or(DEFAULT_CONTENT_TYPE, "Content-Type", head);
    let name = value_or(b"", "ice-name", head);
    let genre = value_or(b"", "ice-genre", head);
    Shown::clean(alloc, content_type, name, genre)
}

/// Returns the description, URL, bit rate and audio parameters of a source's head, cleaned. `OutOfMemory` if memory was refused.
fn about_by(alloc: Global, head: &Head) -> Result<About, OutOfMemory>
    ensures { IfOk result (λ about. about ≡ about_by head.now) }
{
    let description = value_or(b"", "ice-description", head);
    let url = value_or(b"", "ice-url", head);
    let bitrate = value_or(b"", "ice-bitrate", head);
    let audio_info = value_or(b"", "ice-audio-info", head);
    About::clean(alloc, description, url, bitrate, audio_info)
}

/// Returns whether a listener wants metadata between the data (ICY convention).
fn wants_metadata(head: &Head) -> bool
    ensures { result ≡ wants_metadata head.now }
{
    is_word(head.value("Icy-MetaData"), b"1")
}

/// Returns the value of a header, or `other` if the head has no such header. An empty value counts as a value.
fn value_or<'b>(other: &'static [u8], name: &str, head: &Head<'b>) -> &'b [u8]
    ensures { result.now ≡ value_or other.now name.now head.now }
{
    match head.value(name) {
        Some(value) => value,
        None => other,
    }
}
