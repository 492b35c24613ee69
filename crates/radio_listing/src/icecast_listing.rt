//! What Icecast 2.4 answers at `/status-json.xsl`, for players' widgets and exporters that read it.
ghost use Rattle.std.specs.Prelude.{◌≡◌, ◌++◌, [], ◌∷◌, Some, map, if◌then◌else◌, codes, IfOk, OnOk};
ghost use Rattle.std.specs.Str.Lossy.{utf8_lossy};
ghost use Rattle.std.specs.String.{string_bytes};
ghost use Rattle.serde_json.specs.Data.{object, no_members, put as with_member};
ghost use Rattle.serde_json.specs.Read.{read};
ghost use Rattle.serde_json.specs.View.{view};
ghost use Rattle.radio_listing.specs.Icecast.{bitrate_data, icecast_data, icecast_text, number_written, one_or_list, source_data, with_about, with_bitrate};
ghost use Rattle.radio_listing.specs.Json.{text};
ghost use Rattle.radio_listing.specs.Objects.{members_in};
ghost use Rattle.radio_listing.specs.Public.{rows_shown};

use crate::object::{Object, one_member};
use crate::{AboutRow, ListedServer, ListedText, MountRow, OutOfMemory, PublicRow};
use radio_texts::read_number;
use serde_json::Value;
use std::alloc::Global;

/// The greatest bit rate that is written as a number.
const MAX_BITRATE: u64 = 4_294_967_295;

/// What Icecast 2.4 answers: `{"icestats":{"server_id":..,"source":..}}`, each live mount that is not hidden as
/// `{"genre":..,"listeners":N,"listenurl":..,"server_name":..,"server_type":..,"title":..}`. The source is one such object
/// for one mount, a list for several, and an empty list for none. It is compact JSON (RFC 8259), with no line end.
///
/// A text that is not empty has a member more: `server_start_iso8601` of the server, and `audio_info`, `bitrate`,
/// `server_description` and `server_url` of a mount. The bit rate is a number if it is written as one.
///
/// Where nothing is on air Icecast itself leaves `source` out, or writes a lone object that says nothing.
// rule: Icecast status
#[tactic(auto, using(crate::proofs::IcecastLemmas::icecast_quiet, crate::proofs::IcecastLemmas::icecast_shallow), unfolding(crate::specs::Icecast::icecast_text))]
pub fn icecast_status(
    alloc: Global,
    server: &ListedServer<'_>,
    rows: &[MountRow<'_>],
) -> Result<Vec<u8>, OutOfMemory>
    ensures text { IfOk result (λ bytes. bytes.items ≡ icecast_text server.now rows.now) }
    ensures reads_back { IfOk result (λ bytes. read bytes.items ≡ Some (icecast_data server.now rows.now)) }
{
    let value = icecast_value(alloc, server, rows)?;
    value.to_vec(alloc)
}

fn icecast_value(
    alloc: Global,
    server: &ListedServer<'_>,
    rows: &[MountRow<'_>],
) -> Result<Value, OutOfMemory>
    ensures { IfOk result (λ value. view value ≡ icecast_data server.now rows.now) }
{
    let source = one_or_list(sources(alloc, &server.base_url, rows)?);
    let mut stats = Object::new(alloc);
    stats.put("source", source)?;
    stats.put_text("server_id", &server.name)?;
    stats.put_text_if_any("server_start_iso8601", &server.start)?;
    one_member(alloc, "icestats", stats.into_value())
}

/// One value alone, and none or several as a list.
fn one_or_list(values: Vec<Value>) -> Value
    ensures { view result ≡ one_or_list (map view values.items) }
{
    let mut values = values;
    if values.len() == 1 {
        return values.remove(0);
    }
    Value::Array(values)
}

fn sources(
    alloc: Global,
    base: &ListedText<'_>,
    rows: &[MountRow<'_>],
) -> Result<Vec<Value>, OutOfMemory>
    ensures { IfOk result (λ values. map view values.items ≡ map (source_data base.now) (rows_shown rows.now)) }
{
    let mut values = Vec::new(alloc);
    for row in rows {
        push_source(alloc, &mut values, base, row)?;
    }
    Ok(values)
}

/// Appends a mount as everybody sees it: nothing where it is hidden.
fn push_source(
    alloc: Global,
    values: &mut Vec<Value>,
    base: &ListedText<'_>,
    row: &MountRow<'_>,
) -> Result<(), OutOfMemory>
    ensures { OnOk result (map view values.new.items
        ≡ map view values.old.items ++ (if row.now.hidden then [] else source_data base.now row.now.public ∷ [])) }
{
    if row.hidden {
        return Ok(());
    }
    let value = source_value(alloc, base, &row.public)?;
    values.push(value)?;
    Ok(())
}

fn source_value(
    alloc: Global,
    base: &ListedText<'_>,
    row: &PublicRow<'_>,
) -> Result<Value, OutOfMemory>
    ensures { IfOk result (λ value. view value ≡ source_data base.now row.now) }
{
    let mut source = Object::new(alloc);
    fill_source(&mut source, base, row)?;
    Ok(source.into_value())
}

/// The members of a mount.
fn fill_source(
    source: &mut Object,
    base: &ListedText<'_>,
    row: &PublicRow<'_>,
) -> Result<(), OutOfMemory>
    requires { members_in source.old ≡ no_members }
    ensures { OnOk result (object (members_in source.new) ≡ source_data base.now row.now) }
{
    source.put_text("genre", &row.genre)?;
    source.put_count("listeners", row.listeners)?;
    put_url(source, base, &row.mount)?;
    source.put_text("server_name", &row.name)?;
    source.put_text("server_type", &row.content_type)?;
    source.put_text("title", &row.title)?;
    put_about(source, &row.about)
}

/// What else its stream says of itself.
fn put_about(source: &mut Object, about: &AboutRow<'_>) -> Result<(), OutOfMemory>
    ensures { OnOk result (members_in source.new ≡ with_about about.now (members_in source.old)) }
{
    source.put_text_if_any("server_description", &about.description)?;
    source.put_text_if_any("server_url", &about.url)?;
    put_bitrate(source, &about.bitrate)?;
    source.put_text_if_any("audio_info", &about.audio_info)
}

fn put_bitrate(source: &mut Object, bitrate: &ListedText<'_>) -> Result<(), OutOfMemory>
    ensures { OnOk result (members_in source.new ≡ with_bitrate bitrate.now (members_in source.old)) }
{
    if bitrate.as_bytes().is_empty() {
        return Ok(());
    }
    let value = bitrate_value(source.alloc, bitrate)?;
    source.put("bitrate", value)
}

/// A bit rate as a number if it is written as one, else as a text.
fn bitrate_value(alloc: Global, bitrate: &ListedText<'_>) -> Result<Value, OutOfMemory>
    ensures { IfOk result (λ value. view value ≡ bitrate_data bitrate.now) }
{
    match number_written(alloc, bitrate.as_bytes())? {
        Some(number) => Ok(Value::from(number)),
        None => Ok(Value::String(bitrate.shown(alloc)?)),
    }
}

/// The number that is written so, if one is: with no sign, and no zero in front.
fn number_written(alloc: Global, text: &[u8]) -> Result<Option<u64>, OutOfMemory>
    ensures { IfOk result (λ number. number ≡ number_written text.now) }
{
    let Some(number) = read_number(text, 10, MAX_BITRATE) else {
        return Ok(None);
    };
    if number.to_string(alloc)?.as_bytes() == text {
        Ok(Some(number))
    } else {
        Ok(None)
    }
}

/// Adds the URL at which a mount is heard.
fn put_url(
    source: &mut Object,
    base: &ListedText<'_>,
    mount: &ListedText<'_>,
) -> Result<(), OutOfMemory>
    ensures { OnOk result (members_in source.new ≡ with_member (codes "listenurl") (text (base.now ++ mount.now)) (members_in source.old)) }
{
    let url = shown_url(source.alloc, base, mount)?;
    source.put("listenurl", Value::String(url))
}

/// The base URL with the mount's name behind it.
fn shown_url(
    alloc: Global,
    base: &ListedText<'_>,
    mount: &ListedText<'_>,
) -> Result<String, OutOfMemory>
    ensures { IfOk result (λ url. string_bytes url ≡ utf8_lossy (base.now ++ mount.now)) }
{
    let mut bytes = Vec::new(alloc);
    bytes.extend_from_slice(base.as_bytes())?;
    bytes.extend_from_slice(mount.as_bytes())?;
    String::from_utf8_lossy(alloc, &bytes)
}
