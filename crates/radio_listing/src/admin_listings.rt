//! Listings of mounts for operators: hidden mounts are among them.
ghost use Rattle.std.specs.Prelude.{◌≡◌, Some, map, codes, IfOk, OnOk};
ghost use Rattle.serde_json.specs.Data.{put as with_member};
ghost use Rattle.serde_json.specs.Read.{read};
ghost use Rattle.serde_json.specs.View.{view};
ghost use Rattle.radio_listing.specs.Json.{list};
ghost use Rattle.radio_listing.specs.Objects.{members_in};
ghost use Rattle.radio_listing.specs.Admin.{all_listeners, mount_row, mounts_data, mounts_text, stats_data, stats_row, stats_text};

use crate::object::{Object, one_member};
use crate::{MountRow, OutOfMemory};
use serde_json::Value;
use std::alloc::Global;

/// What the server does as a whole: `{"clients":N,"listeners":N,"mounts":[..],"sources":N}`, each live mount as
/// `{"genre":..,"hidden":..,"listeners":N,"mount":..,"name":..,"session":N,"title":..,"type":..}`.
///
/// `clients` are all that have arrived and not left, who asks among them; the outer `listeners` is the sum over the mounts,
/// to the largest number of 64 bits, and `sources` is their number. It is compact JSON (RFC 8259), with no line end.
// rule: Admin stats
#[tactic(auto, using(crate::proofs::AdminLemmas::stats_quiet, crate::proofs::AdminLemmas::stats_shallow), unfolding(crate::specs::Admin::stats_text))]
pub fn stats(alloc: Global, clients: u64, rows: &[MountRow<'_>]) -> Result<Vec<u8>, OutOfMemory>
    ensures text { IfOk result (λ bytes. bytes.items ≡ stats_text clients rows.now) }
    ensures reads_back { IfOk result (λ bytes. read bytes.items ≡ Some (stats_data clients rows.now)) }
{
    let value = stats_value(alloc, clients, rows)?;
    value.to_vec(alloc)
}

fn stats_value(alloc: Global, clients: u64, rows: &[MountRow<'_>]) -> Result<Value, OutOfMemory>
    ensures { IfOk result (λ value. view value ≡ stats_data clients rows.now) }
{
    let mut stats = Object::new(alloc);
    stats.put_count("clients", clients)?;
    stats.put_count("listeners", all_listeners(rows))?;
    put_mounts(&mut stats, rows)?;
    stats.put_count("sources", rows.len() as u64)?;
    Ok(stats.into_value())
}

/// The live mounts.
fn put_mounts(stats: &mut Object, rows: &[MountRow<'_>]) -> Result<(), OutOfMemory>
    ensures { OnOk result (members_in stats.new ≡ with_member (codes "mounts") (list (map stats_row rows.now)) (members_in stats.old)) }
{
    let mounts = stats_rows(stats.alloc, rows)?;
    stats.put("mounts", Value::Array(mounts))
}

fn stats_rows(alloc: Global, rows: &[MountRow<'_>]) -> Result<Vec<Value>, OutOfMemory>
    ensures { IfOk result (λ values. map view values.items ≡ map stats_row rows.now) }
{
    let mut values = Vec::new(alloc);
    for row in rows {
        values.push(stats_row(alloc, row)?)?;
    }
    Ok(values)
}

fn stats_row(alloc: Global, row: &MountRow<'_>) -> Result<Value, OutOfMemory>
    ensures { IfOk result (λ value. view value ≡ stats_row row.now) }
{
    let mut stats = Object::new(alloc);
    stats.put_public(&row.public)?;
    stats.put_flag("hidden", row.hidden)?;
    stats.put_count("session", row.session)?;
    Ok(stats.into_value())
}

/// How many listen at all the mounts, to the largest number of 64 bits.
#[tactic(auto, unfolding(crate::specs::Admin::all_listeners))]
fn all_listeners(rows: &[MountRow<'_>]) -> u64
    ensures { result ≡ all_listeners rows.now }
{
    let mut listeners = 0u64;
    for row in rows {
        listeners = listeners.saturating_add(row.public.listeners);
    }
    listeners
}

/// The live mounts: `{"mounts":[..]}`, each as `{"fallback":..,"hidden":..,"listeners":N,"mount":..}`, where a fallback
/// that there is not is `""`. It is compact JSON (RFC 8259), with no line end.
// rule: List of mounts
#[tactic(auto, using(crate::proofs::AdminLemmas::mounts_quiet, crate::proofs::AdminLemmas::mounts_shallow), unfolding(crate::specs::Admin::mounts_text))]
pub fn list_mounts(alloc: Global, rows: &[MountRow<'_>]) -> Result<Vec<u8>, OutOfMemory>
    ensures text { IfOk result (λ bytes. bytes.items ≡ mounts_text rows.now) }
    ensures reads_back { IfOk result (λ bytes. read bytes.items ≡ Some (mounts_data rows.now)) }
{
    let value = mounts_value(alloc, rows)?;
    value.to_vec(alloc)
}

fn mounts_value(alloc: Global, rows: &[MountRow<'_>]) -> Result<Value, OutOfMemory>
    ensures { IfOk result (λ value. view value ≡ mounts_data rows.now) }
{
    let mounts = mount_rows(alloc, rows)?;
    one_member(alloc, "mounts", Value::Array(mounts))
}

fn mount_rows(alloc: Global, rows: &[MountRow<'_>]) -> Result<Vec<Value>, OutOfMemory>
    ensures { IfOk result (λ values. map view values.items ≡ map mount_row rows.now) }
{
    let mut values = Vec::new(alloc);
    for row in rows {
        values.push(mount_row(alloc, row)?)?;
    }
    Ok(values)
}

fn mount_row(alloc: Global, row: &MountRow<'_>) -> Result<Value, OutOfMemory>
    ensures { IfOk result (λ value. view value ≡ mount_row row.now) }
{
    let mut mount = Object::new(alloc);
    mount.put_text_or_empty("fallback", &row.fallback)?;
    mount.put_flag("hidden", row.hidden)?;
    mount.put_count("listeners", row.public.listeners)?;
    mount.put_text("mount", &row.public.mount)?;
    Ok(mount.into_value())
}
