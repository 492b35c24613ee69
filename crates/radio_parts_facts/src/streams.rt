//! What the settings make of a stream, and of a listener's.

ghost use Rattle.std.specs.Prelude.{◌≡◌, unwrap_or, IfOk};
ghost use Rattle.radio_parts_station.specs.Streams.{about_for, shown_for};
ghost use Rattle.radio_parts_facts.specs.Streams.{burst_of, interval_for, head_of};

use crate::OutOfMemory;
use radio_events::StreamHead;
use radio_parts_station::StationState;
use radio_settings_values::AboutOptions;
use radio_values::{About, Field, MountName, Shown};

/// What a stream on the mount shows, which itself shows this. `OutOfMemory` if memory was
/// refused.
// rule: Shown fields
pub fn shown_for(
    station: &StationState<'_>,
    mount: &MountName,
    shown: &Shown,
) -> Result<Shown, OutOfMemory>
    ensures { IfOk result (λ set. set ≡ shown_for station.now mount.now shown.now) }
{
    let stream = &station.settings().options(mount).stream;
    Ok(Shown {
        content_type: shown.content_type.clone()?,
        name: field_or(&stream.stream_name, &shown.name)?,
        genre: field_or(&stream.genre, &shown.genre)?,
        about: about_for(&stream.about, &shown.about)?,
    })
}

/// What else it says of itself. `OutOfMemory` if memory was refused.
fn about_for(set: &AboutOptions, about: &About) -> Result<About, OutOfMemory>
    ensures { IfOk result (λ both. both ≡ about_for set.now about.now) }
{
    Ok(About {
        description: field_or(&set.description, &about.description)?,
        url: field_or(&set.url, &about.url)?,
        bitrate: field_or(&set.bitrate, &about.bitrate)?,
        audio_info: about.audio_info.clone()?,
    })
}

/// What the head of a stream says that shows this. `OutOfMemory` if memory was refused.
pub fn head_of(station: &StationState<'_>, shown: &Shown) -> Result<StreamHead, OutOfMemory>
    ensures { IfOk result (λ head. head ≡ head_of station.now shown.now) }
{
    Ok(StreamHead {
        shown: shown.clone()?,
        allow_origin: station.settings().web.allow_origin.clone()?,
    })
}

/// How many bytes a new listener of the mount may be sent at once.
pub fn burst_of(station: &StationState<'_>, mount: &MountName) -> u64
    ensures { result ≡ burst_of station.now mount.now }
{
    let burst = station.settings().options(mount).stream.burst_size.get();
    burst.min(station.settings().limits.queue_size.get()) as u64
}

/// After how many bytes of data a listener of the mount is sent a metadata block, if it asked
/// for metadata.
pub fn interval_for(
    station: &StationState<'_>,
    mount: &MountName,
    wants_metadata: bool,
) -> Option<u32>
    ensures { result ≡ interval_for station.now mount.now wants_metadata }
{
    if wants_metadata {
        Some(
            station
                .settings()
                .options(mount)
                .stream
                .mp3_metadata_interval
                .get(),
        )
    } else {
        None
    }
}

/// The field that is set, or else the other. `OutOfMemory` if memory was refused.
fn field_or(set: &Option<Field>, other: &Field) -> Result<Field, OutOfMemory>
    ensures { IfOk result (λ field. field ≡ unwrap_or set.now other.now) }
{
    match set {
        Some(field) => field.clone(),
        None => other.clone(),
    }
}
