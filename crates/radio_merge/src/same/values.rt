//! Whether what events and replies are made of is equal: names, bytes, addresses, pairs, shown fields.

ghost use Rattle.std.specs.Prelude.{◌≡◌, ◌↔◌, IsTrue};

use radio_addr::Peer;
use radio_creds::Pair;
use radio_policy::Rule;
use radio_values::{About, AllowedOrigin, MountName, Shown, Title};

pub(crate) fn is_same_name(a: &MountName, b: &MountName) -> bool
    ensures { IsTrue result ↔ a.now ≡ b.now }
{
    is_same_bytes(a.as_bytes(), b.as_bytes())
}

pub(crate) fn is_same_mount(a: &Option<MountName>, b: &Option<MountName>) -> bool
    ensures { IsTrue result ↔ a.now ≡ b.now }
{
    match (a, b) {
        (Some(a), Some(b)) => is_same_name(a, b),
        (None, None) => true,
        _ => false,
    }
}

pub(crate) fn is_same_bytes(a: &[u8], b: &[u8]) -> bool
    ensures { IsTrue result ↔ a.now ≡ b.now }
{
    a == b
}

pub(crate) fn is_same_peer(a: Peer, b: Peer) -> bool
    ensures { IsTrue result ↔ a ≡ b }
{
    a == b
}

pub(crate) fn is_same_rule(a: Rule, b: Rule) -> bool
    ensures { IsTrue result ↔ a ≡ b }
{
    a == b
}

pub(crate) fn is_same_origin(a: &Option<AllowedOrigin>, b: &Option<AllowedOrigin>) -> bool
    ensures { IsTrue result ↔ a.now ≡ b.now }
{
    match (a, b) {
        (Some(a), Some(b)) => is_same_bytes(a.as_bytes(), b.as_bytes()),
        (None, None) => true,
        _ => false,
    }
}

pub(crate) fn is_same_pair(a: &Option<Pair>, b: &Option<Pair>) -> bool
    ensures { IsTrue result ↔ a.now ≡ b.now }
{
    match (a, b) {
        (Some(a), Some(b)) => {
            is_same_bytes(a.user(), b.user()) && is_same_bytes(a.password(), b.password())
        }
        (None, None) => true,
        _ => false,
    }
}

pub(crate) fn is_same_shown(a: &Shown, b: &Shown) -> bool
    ensures { IsTrue result ↔ a.now ≡ b.now }
{
    is_same_bytes(a.content_type.as_bytes(), b.content_type.as_bytes())
        && is_same_bytes(a.name.as_bytes(), b.name.as_bytes())
        && is_same_bytes(a.genre.as_bytes(), b.genre.as_bytes())
        && is_same_about(&a.about, &b.about)
}

fn is_same_about(a: &About, b: &About) -> bool
    ensures { IsTrue result ↔ a.now ≡ b.now }
{
    is_same_bytes(a.description.as_bytes(), b.description.as_bytes())
        && is_same_bytes(a.url.as_bytes(), b.url.as_bytes())
        && is_same_bytes(a.bitrate.as_bytes(), b.bitrate.as_bytes())
        && is_same_bytes(a.audio_info.as_bytes(), b.audio_info.as_bytes())
}

pub(crate) fn is_same_title(a: &Option<Title>, b: &Option<Title>) -> bool
    ensures { IsTrue result ↔ a.now ≡ b.now }
{
    match (a, b) {
        (Some(a), Some(b)) => is_same_bytes(a.as_slice(), b.as_slice()),
        (None, None) => true,
        _ => false,
    }
}
