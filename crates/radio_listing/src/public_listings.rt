//! Listings for everybody and for relays: hidden mounts are left out.
ghost use Rattle.std.specs.Prelude.{◌≡◌, ◌++◌, [], ◌∷◌, Some, map, if◌then◌else◌, IfOk, OnOk};
ghost use Rattle.serde_json.specs.Read.{read};
ghost use Rattle.serde_json.specs.View.{view};
ghost use Rattle.radio_listing.specs.Public.{public_data, rows_shown, status_data, status_text, stream_line, stream_text};

use crate::object::{Object, one_member};
use crate::{MountRow, OutOfMemory, PublicRow};
use serde_json::Value;
use std::alloc::Global;

/// The listing for everybody: `{"mounts":[..]}`, each live mount that is not hidden as
/// `{"genre":..,"listeners":N,"mount":..,"name":..,"title":..,"type":..}`. It is compact JSON (RFC 8259), with no line
/// end behind it.
// rule: Public status
#[tactic(auto, using(crate::proofs::PublicLemmas::status_quiet, crate::proofs::PublicLemmas::status_shallow), unfolding(crate::specs::Public::status_text))]
pub fn status(alloc: Global, rows: &[MountRow<'_>]) -> Result<Vec<u8>, OutOfMemory>
    ensures text { IfOk result (λ bytes. bytes.items ≡ status_text rows.now) }
    ensures reads_back { IfOk result (λ bytes. read bytes.items ≡ Some (status_data rows.now)) }
{
    let value = status_value(alloc, rows)?;
    value.to_vec(alloc)
}

fn status_value(alloc: Global, rows: &[MountRow<'_>]) -> Result<Value, OutOfMemory>
    ensures { IfOk result (λ value. view value ≡ status_data rows.now) }
{
    let mounts = public_values(alloc, rows)?;
    one_member(alloc, "mounts", Value::Array(mounts))
}

fn public_values(alloc: Global, rows: &[MountRow<'_>]) -> Result<Vec<Value>, OutOfMemory>
    ensures { IfOk result (λ values. map view values.items ≡ map public_data (rows_shown rows.now)) }
{
    let mut values = Vec::new(alloc);
    for row in rows {
        push_shown(alloc, &mut values, row)?;
    }
    Ok(values)
}

/// Appends what everybody may see of a mount: nothing where it is hidden.
fn push_shown(alloc: Global, values: &mut Vec<Value>, row: &MountRow<'_>) -> Result<(), OutOfMemory>
    ensures { OnOk result (map view values.new.items
        ≡ map view values.old.items ++ (if row.now.hidden then [] else public_data row.now.public ∷ [])) }
{
    if row.hidden {
        return Ok(());
    }
    let value = public_value(alloc, &row.public)?;
    values.push(value)?;
    Ok(())
}

fn public_value(alloc: Global, row: &PublicRow<'_>) -> Result<Value, OutOfMemory>
    ensures { IfOk result (λ value. view value ≡ public_data row.now) }
{
    let mut shown = Object::new(alloc);
    shown.put_public(row)?;
    Ok(shown.into_value())
}

/// The listing for relays: the name of each live mount that is not hidden, with CR LF behind each.
// rule: List of streams
#[tactic(auto, unfolding(crate::specs::Public::stream_text))]
pub fn stream_list(alloc: Global, rows: &[MountRow<'_>]) -> Result<Vec<u8>, OutOfMemory>
    ensures { IfOk result (λ bytes. bytes.items ≡ stream_text rows.now) }
{
    let mut bytes = Vec::new(alloc);
    for row in rows {
        push_line(&mut bytes, row)?;
    }
    Ok(bytes)
}

fn push_line(bytes: &mut Vec<u8>, mount: &MountRow<'_>) -> Result<(), OutOfMemory>
    ensures { OnOk result (bytes.new.items ≡ bytes.old.items ++ (if mount.now.hidden then [] else stream_line mount.now.public)) }
{
    if mount.hidden {
        return Ok(());
    }
    bytes.extend_from_slice(mount.public.mount.as_bytes())?;
    bytes.extend_from_slice(b"\r\n")?;
    Ok(())
}
