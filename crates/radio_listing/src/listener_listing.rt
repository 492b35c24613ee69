//! The listing of a mount's listeners.
ghost use Rattle.std.specs.Prelude.{◌≡◌, Some, map, codes, IfOk, OnOk};
ghost use Rattle.std.specs.String.{string_bytes};
ghost use Rattle.serde_json.specs.Data.{object, string, no_members, put as with_member};
ghost use Rattle.serde_json.specs.Read.{read};
ghost use Rattle.serde_json.specs.View.{view};
ghost use Rattle.radio_addr.specs.Writing.{written};
ghost use Rattle.radio_listing.specs.Objects.{members_in};
ghost use Rattle.radio_listing.specs.Listeners.{listener_data, listeners_data, listeners_text};

use crate::object::Object;
use crate::{ListedListener, ListedText, OutOfMemory};
use radio_addr::Peer;
use serde_json::Value;
use std::alloc::Global;

/// The listeners at a mount: `{"listeners":[..],"mount":..}`, each as
/// `{"home":..,"id":N,"mount":..,"peer":..,"seconds":N,"user":..}`. A peer is a dotted quad, or eight groups in lower
/// hexadecimal with no needless zeros, never shortened; the user is `""` without a pair. No password is shown. It is
/// compact JSON (RFC 8259), with no line end.
// rule: List of clients
#[tactic(auto, using(crate::proofs::ListenerLemmas::listeners_quiet, crate::proofs::ListenerLemmas::listeners_shallow), unfolding(crate::specs::Listeners::listeners_text))]
pub fn list_clients(
    alloc: Global,
    mount: &ListedText<'_>,
    rows: &[ListedListener<'_>],
) -> Result<Vec<u8>, OutOfMemory>
    ensures text { IfOk result (λ bytes. bytes.items ≡ listeners_text mount.now rows.now) }
    ensures reads_back { IfOk result (λ bytes. read bytes.items ≡ Some (listeners_data mount.now rows.now)) }
{
    let value = listeners_value(alloc, mount, rows)?;
    value.to_vec(alloc)
}

fn listeners_value(
    alloc: Global,
    mount: &ListedText<'_>,
    rows: &[ListedListener<'_>],
) -> Result<Value, OutOfMemory>
    ensures { IfOk result (λ value. view value ≡ listeners_data mount.now rows.now) }
{
    let mut shown = Object::new(alloc);
    shown.put(
        "listeners",
        Value::Array(listener_values(alloc, mount, rows)?),
    )?;
    shown.put_text("mount", mount)?;
    Ok(shown.into_value())
}

fn listener_values(
    alloc: Global,
    mount: &ListedText<'_>,
    rows: &[ListedListener<'_>],
) -> Result<Vec<Value>, OutOfMemory>
    ensures { IfOk result (λ values. map view values.items ≡ map (listener_data mount.now) rows.now) }
{
    let mut values = Vec::new(alloc);
    for row in rows {
        values.push(listener_value(alloc, mount, row)?)?;
    }
    Ok(values)
}

fn listener_value(
    alloc: Global,
    mount: &ListedText<'_>,
    row: &ListedListener<'_>,
) -> Result<Value, OutOfMemory>
    ensures { IfOk result (λ value. view value ≡ listener_data mount.now row.now) }
{
    let mut listener = Object::new(alloc);
    fill_listener(&mut listener, mount, row)?;
    Ok(listener.into_value())
}

/// The members of a listener.
fn fill_listener(
    listener: &mut Object,
    mount: &ListedText<'_>,
    row: &ListedListener<'_>,
) -> Result<(), OutOfMemory>
    requires { members_in listener.old ≡ no_members }
    ensures { OnOk result (object (members_in listener.new) ≡ listener_data mount.now row.now) }
{
    listener.put_text("home", &row.home)?;
    listener.put_count("id", row.id)?;
    listener.put_text("mount", mount)?;
    put_peer(listener, row.peer)?;
    listener.put_count("seconds", row.seconds)?;
    listener.put_text_or_empty("user", &row.user)
}

/// The address that a listener came from.
fn put_peer(listener: &mut Object, peer: Peer) -> Result<(), OutOfMemory>
    ensures { OnOk result (members_in listener.new ≡ with_member (codes "peer") (string (written peer)) (members_in listener.old)) }
{
    let peer = shown_peer(listener.alloc, peer)?;
    listener.put("peer", Value::String(peer))
}

fn shown_peer(alloc: Global, peer: Peer) -> Result<String, OutOfMemory>
    ensures { IfOk result (λ text. string_bytes text ≡ written peer) }
{
    format!(in alloc; "{peer}")
}
