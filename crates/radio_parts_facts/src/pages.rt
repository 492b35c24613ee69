//! What is shown at the paths of the web site.

ghost use Rattle.std.specs.Prelude.{◌≡◌, [], codes, unwrap_or, IfOk};
ghost use Rattle.radio_listing.specs.Icecast.{icecast_text};
ghost use Rattle.radio_parts_facts.specs.Listings.{mount_rows};
ghost use Rattle.radio_parts_facts.specs.Pages.{page_at, server_as, url_for};
ghost use Rattle.radio_parts_station.specs.World.{world};

use crate::OutOfMemory;
use crate::listings::mount_rows;
use bytes::Bytes;
use radio_events::{MomentText, PageVisit, ReplyText};
use radio_listing::{ListedServer, ListedText, base_url, icecast_status};
use radio_parts_station::StationState;
use radio_parts_table::Listeners;
use radio_settings_values::WebPath;
use std::alloc::Global;

/// What is shown at the path on this visit, where these listen. `OutOfMemory` if memory was refused.
pub fn page(
    alloc: Global,
    station: &StationState<'_>,
    seats: &Listeners,
    path: WebPath,
    visit: &PageVisit,
) -> Result<ReplyText, OutOfMemory>
    ensures { IfOk result (λ text. text ≡ page_at (world station.now seats.now.seats) path visit.now) }
{
    let allow_origin = station.settings().web.allow_origin.clone()?;
    match path {
        WebPath::IcecastStatus => Ok(ReplyText::Public {
            bytes: icecast_shown(alloc, station, seats, visit)?,
            allow_origin,
        }),
        WebPath::Page => Ok(ReplyText::Page { allow_origin }),
    }
}

/// What Icecast answers at its status on this visit. `OutOfMemory` if memory was refused.
fn icecast_shown(
    alloc: Global,
    station: &StationState<'_>,
    seats: &Listeners,
    visit: &PageVisit,
) -> Result<Bytes, OutOfMemory>
    ensures { IfOk result (λ bytes. bytes ≡ icecast_text (server_as station.now.settings visit.now) (mount_rows (world station.now seats.now.seats))) }
{
    let base = url_for(alloc, station, visit.host.as_slice())?;
    let start = start_shown(&visit.server_start);
    Ok(Bytes::from_vec(status_at(alloc, station, seats, base.as_slice(), start)?)?)
}

/// What is written before a mount's name in its URL. `OutOfMemory` if memory was refused.
fn url_for(alloc: Global, station: &StationState<'_>, host: &[u8]) -> Result<Vec<u8>, OutOfMemory>
    ensures { IfOk result (λ url. url.items ≡ url_for station.now.settings host.now) }
{
    let settings = station.settings();
    match &settings.web.public_url {
        Some(url) => copy_of(alloc, url.as_bytes()),
        None => {
            let listen = &settings.listen;
            base_url(alloc, host, listen.address.as_bytes(), listen.port.get())
        }
    }
}

fn copy_of(alloc: Global, text: &[u8]) -> Result<Vec<u8>, OutOfMemory>
    ensures { IfOk result (λ copy. copy.items ≡ text.now) }
{
    let mut copy = Vec::new(alloc);
    copy.extend_from_slice(text)?;
    Ok(copy)
}

/// When the server started, which is empty if the program does not say.
fn start_shown(start: &Option<MomentText>) -> ListedText<'_>
    ensures { result ≡ unwrap_or start.now [] }
{
    match start {
        Some(start) => ListedText::of(start.as_slice()),
        None => ListedText::of(b""),
    }
}

/// Returns what Icecast answers at its status of a server that started then, with this before the names of mounts.
/// `OutOfMemory` if memory was refused.
fn status_at(
    alloc: Global,
    station: &StationState<'_>,
    seats: &Listeners,
    base: &[u8],
    start: ListedText<'_>,
) -> Result<Vec<u8>, OutOfMemory>
    ensures { IfOk result (λ bytes. bytes.items ≡ icecast_text (record { name = codes "radiod"; base_url = base.now; start = start.entry }) (mount_rows (world station.now seats.now.seats))) }
{
    let server = ListedServer {
        name: ListedText::of(b"radiod"),
        base_url: ListedText::of(base),
        start,
    };
    let rows = mount_rows(alloc, station, seats)?;
    icecast_status(alloc, &server, rows.as_slice())
}
