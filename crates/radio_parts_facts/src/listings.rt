//! What of the station a client is shown.

ghost use Rattle.std.specs.Prelude.{◌≡◌, ◌++◌, [], ◌∷◌, map, unwrap_or, IfOk, OnOk};
ghost use Rattle.std.specs.Option.{option_map};
ghost use Rattle.radio_listing.specs.Listeners.{listeners_text};
ghost use Rattle.radio_listing.specs.Public.{status_text};
ghost use Rattle.radio_seats.specs.Listed.{lent_guest};
ghost use Rattle.radio_parts_facts.specs.Listings.{about_row, shown, public_row, row_of_session, mount_rows, listener_row, listener_rows, user_of};
ghost use Rattle.radio_parts_station.specs.World.{world};
ghost use Rattle.radio_parts_table.specs.Parts.{live_in};
ghost use Rattle.radio_events.specs.declared.command.Listing.TheVariants.{Status, Stats, Mounts, Streams};
ghost use Rattle.radio_events.specs.declared.text.ReplyText.{ReplyText as TextOf};

use crate::OutOfMemory;
use bytes::Bytes;
use radio_creds::Pair;
use radio_events::{Listing, ReplyText};
use radio_listing::{
    AboutRow, ListedListener, ListedText, MountRow, PublicRow, list_clients, list_mounts, stats,
    status, stream_list,
};
use radio_parts_mount::{MountPart, Session};
use radio_parts_station::StationState;
use radio_parts_table::Listeners;
use radio_seats::LentListener;
use radio_values::{About, MountName, Title};
use std::alloc::Global;

/// How many milliseconds a second has.
const SECOND: u64 = 1000;

/// What is shown of the station, where these listen. The time grows as the number of live mounts, or of listeners where these are
/// listed. `OutOfMemory` if memory was refused.
pub fn shown(
    alloc: Global,
    station: &StationState<'_>,
    seats: &Listeners,
    listing: &Listing,
) -> Result<ReplyText, OutOfMemory>
    ensures { IfOk result (λ text. text ≡ shown (world station.now seats.now.seats) listing.now) }
{
    match listing {
        Listing::Status => status_shown(alloc, station, seats),
        Listing::Stats => stats_shown(alloc, station, seats),
        Listing::Mounts => mounts_shown(alloc, station, seats),
        Listing::Clients(mount) => json(listeners_shown(alloc, station, seats, mount)?),
        Listing::Streams => streams_shown(alloc, station, seats),
    }
}

/// What the server does as a whole. `OutOfMemory` if memory was refused.
fn stats_shown(
    alloc: Global,
    station: &StationState<'_>,
    seats: &Listeners,
) -> Result<ReplyText, OutOfMemory>
    ensures { IfOk result (λ text. text ≡ shown (world station.now seats.now.seats) Stats) }
{
    let clients = station.client_count();
    let rows = mount_rows(alloc, station, seats)?;
    json(stats(alloc, clients, rows.as_slice())?)
}

/// All live mounts. `OutOfMemory` if memory was refused.
fn mounts_shown(
    alloc: Global,
    station: &StationState<'_>,
    seats: &Listeners,
) -> Result<ReplyText, OutOfMemory>
    ensures { IfOk result (λ text. text ≡ shown (world station.now seats.now.seats) Mounts) }
{
    let rows = mount_rows(alloc, station, seats)?;
    json(list_mounts(alloc, rows.as_slice())?)
}

/// The mounts that a relay may pull. `OutOfMemory` if memory was refused.
fn streams_shown(
    alloc: Global,
    station: &StationState<'_>,
    seats: &Listeners,
) -> Result<ReplyText, OutOfMemory>
    ensures { IfOk result (λ text. text ≡ shown (world station.now seats.now.seats) Streams) }
{
    let rows = mount_rows(alloc, station, seats)?;
    streams(stream_list(alloc, rows.as_slice())?)
}

/// What everybody may see. `OutOfMemory` if memory was refused.
fn status_shown(
    alloc: Global,
    station: &StationState<'_>,
    seats: &Listeners,
) -> Result<ReplyText, OutOfMemory>
    ensures { IfOk result (λ text. text ≡ shown (world station.now seats.now.seats) Status) }
{
    let bytes = status_bytes(alloc, station, seats)?;
    Ok(ReplyText::Public {
        bytes,
        allow_origin: station.settings().web.allow_origin.clone()?,
    })
}

fn status_bytes(
    alloc: Global,
    station: &StationState<'_>,
    seats: &Listeners,
) -> Result<Bytes, OutOfMemory>
    ensures { IfOk result (λ bytes. bytes ≡ status_text (mount_rows (world station.now seats.now.seats))) }
{
    let rows = mount_rows(alloc, station, seats)?;
    Ok(Bytes::from_vec(status(alloc, rows.as_slice())?)?)
}

/// The live mounts, in the order of their names. `OutOfMemory` if memory was refused.
pub(crate) fn mount_rows<'a>(
    alloc: Global,
    station: &StationState<'a>,
    seats: &Listeners,
) -> Result<Vec<MountRow<'a>>, OutOfMemory>
    ensures { IfOk result (λ rows. rows.items ≡ mount_rows (world station.now seats.now.seats)) }
{
    let mut rows = Vec::new(alloc);
    for part in station.parts().all().iter() {
        add_mount_row(&mut rows, station, seats, part.part())?;
    }
    Ok(rows)
}

/// Adds what listings say of the part's mount, if it is live. `OutOfMemory` if memory was refused.
fn add_mount_row<'a>(
    rows: &mut Vec<MountRow<'a>>,
    station: &StationState<'a>,
    seats: &Listeners,
    part: &'a MountPart,
) -> Result<(), OutOfMemory>
    ensures { OnOk result (rows.new.items ≡ rows.old.items ++ map (row_of_session (world station.now seats.now.seats)) (live_in (part.now ∷ []))) }
{
    if let Some(session) = &part.session {
        rows.push(mount_row(station, seats, session))?;
    }
    Ok(())
}

/// Returns what listings say of a live mount.
// rule: Public status; Hidden mounts
fn mount_row<'a>(
    station: &StationState<'a>,
    seats: &Listeners,
    session: &'a Session,
) -> MountRow<'a>
    ensures { result ≡ row_of_session (world station.now seats.now.seats) session.now }
{
    let mount = session.mount.get();
    MountRow {
        public: public_row(station, seats, session),
        hidden: station.settings().options(mount).stream.hidden,
        session: session.number,
        fallback: match station.fallback_name(mount) {
            Some(fallback) => Some(ListedText::of(fallback.as_bytes())),
            None => None,
        },
    }
}

/// What everybody may see of a live mount.
fn public_row<'a>(
    station: &StationState<'_>,
    seats: &Listeners,
    session: &'a Session,
) -> PublicRow<'a>
    ensures { result ≡ public_row (world station.now seats.now.seats) session.now }
{
    let mount = session.mount.get();
    PublicRow {
        mount: ListedText::of(mount.as_bytes()),
        name: ListedText::of(session.shown.name.as_bytes()),
        genre: ListedText::of(session.shown.genre.as_bytes()),
        content_type: ListedText::of(session.shown.content_type.as_bytes()),
        title: title_shown(&session.title),
        listeners: seats.count(mount),
        about: about_row(&session.shown.about),
    }
}

/// What else its stream says of itself.
fn about_row(about: &About) -> AboutRow<'_>
    ensures { result ≡ about_row about.now }
{
    AboutRow {
        description: ListedText::of(about.description.as_bytes()),
        url: ListedText::of(about.url.as_bytes()),
        bitrate: ListedText::of(about.bitrate.as_bytes()),
        audio_info: ListedText::of(about.audio_info.as_bytes()),
    }
}

/// The listeners of the mount. `OutOfMemory` if memory was refused.
fn listeners_shown(
    alloc: Global,
    station: &StationState<'_>,
    seats: &Listeners,
    mount: &MountName,
) -> Result<Vec<u8>, OutOfMemory>
    ensures { IfOk result (λ bytes. bytes.items ≡ listeners_text mount.now (listener_rows (world station.now seats.now.seats) mount.now)) }
{
    let listeners = seats.guests_at(alloc, mount)?;
    let rows = listener_rows(alloc, station.time(), listeners.as_slice())?;
    list_clients(alloc, &ListedText::of(mount.as_bytes()), rows.as_slice())
}

/// The listeners as rows, each with how long it has listened. `OutOfMemory` if memory was refused.
fn listener_rows<'a>(
    alloc: Global,
    now: u64,
    listeners: &[LentListener<'a>],
) -> Result<Vec<ListedListener<'a>>, OutOfMemory>
    ensures { IfOk result (λ rows. rows.items ≡ map (listener_row now) (map lent_guest listeners.now)) }
{
    let mut rows = Vec::new(alloc);
    for listener in listeners {
        rows.push(listener_row(now, listener))?;
    }
    Ok(rows)
}

/// A listener, and how long it has listened.
fn listener_row<'a>(now: u64, listener: &LentListener<'a>) -> ListedListener<'a>
    ensures { result ≡ listener_row now (lent_guest listener.now) }
{
    let guest = listener.guest;
    ListedListener {
        home: ListedText::of(guest.home.get().as_bytes()),
        id: listener.id,
        peer: guest.peer,
        seconds: now.saturating_sub(guest.since) / SECOND,
        user: user_shown(&guest.pair),
    }
}

/// The user of a pair.
fn user_shown(pair: &Option<Pair>) -> Option<ListedText<'_>>
    ensures { result ≡ option_map user_of pair.now }
{
    match pair {
        Some(pair) => Some(ListedText::of(pair.user())),
        None => None,
    }
}

/// A title, which is empty where none was set.
fn title_shown(title: &Option<Title>) -> ListedText<'_>
    ensures { result ≡ unwrap_or title.now [] }
{
    match title {
        Some(title) => ListedText::of(title.as_slice()),
        None => ListedText::of(b""),
    }
}

/// A listing in JSON.
fn json(bytes: Vec<u8>) -> Result<ReplyText, OutOfMemory>
    ensures { IfOk result (λ text. text ≡ TextOf.Json bytes.items) }
{
    Ok(ReplyText::Json(Bytes::from_vec(bytes)?))
}

/// A list of streams.
fn streams(bytes: Vec<u8>) -> Result<ReplyText, OutOfMemory>
    ensures { IfOk result (λ text. text ≡ TextOf.Streams bytes.items) }
{
    Ok(ReplyText::Streams(Bytes::from_vec(bytes)?))
}
