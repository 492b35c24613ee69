//! What is looked up for a client that arrives, feeds a mount, delivers a block or wants to hear a
//! mount.

ghost use Rattle.std.specs.Prelude.{◌≡◌, true, false, length, MatchOption};
ghost use Rattle.std.specs.Option.{option_copied};
ghost use Rattle.radio_parts_station.specs.Facts.{arrive_facts, source_facts_at, relay_facts_at, push_facts, listen_facts_at, walks_to, is_limit_reached, is_in_settings, is_known, names_mount};

use radio_access::{is_refused_type, is_source_pair};
use radio_addr::Peer;
use radio_blocks::Block;
use radio_creds::Pair;
use radio_events::SourceRequest;
use radio_fallback::{Landing, Walk};
use radio_parts_station::StationState;
use radio_parts_table::Listeners;
use radio_policy::{ArriveFacts, ListenFacts, PushFacts, RelayFacts, SourceFacts};
use radio_settings_values::Settings;
use radio_values::{MountName, Shown};

/// The mount that a path names; `None` if it names none, or is one of the web site's.
// rule: Bad mount
pub fn mount_named(station: &StationState<'_>, path: &[u8]) -> Option<MountName>
    ensures { MatchOption result (names_mount station.now.settings path.now ≡ false)
        (λ mount. (names_mount station.now.settings path.now ≡ true) × (mount ≡ path.now)) }
{
    let mount = MountName::read(path)?;
    if station.settings().web.has(path) {
        return None;
    }
    Some(mount)
}

/// What is looked up for a connection that arrives from this address.
// rule: Order for a connection
pub fn arrive_facts(station: &StationState<'_>, peer: Peer) -> ArriveFacts
    ensures { result ≡ arrive_facts station.now peer }
{
    let lists = station.lists();
    ArriveFacts {
        address_is_denied: lists.is_denied(peer),
        address_is_allowed: lists.is_allowed(peer),
        clients_are_full: is_full(
            station.client_count(),
            station.settings().limits.clients.get(),
        ),
        number_is_spent: station.last_number() == u64::MAX,
    }
}

/// What is looked up for a source that wants to feed the mount.
// rule: Order for a source; Mount in use
pub fn source_facts(
    station: &StationState<'_>,
    mount: &MountName,
    asked: &SourceRequest,
) -> SourceFacts
    ensures { result ≡ source_facts_at station.now mount.now asked.now }
{
    SourceFacts {
        is_source_pair: is_source_pair(station.settings(), mount, asked.pair.as_ref()),
        sources_are_full: sources_are_full(station),
        mount_is_live: station.session(mount).is_some(),
        type_is_refused: is_refused_type(asked.shown.content_type.as_bytes()),
    }
}

/// What is looked up for a relay that wants to feed the mount, and shows this.
// rule: Order for a relay
pub fn relay_facts(station: &StationState<'_>, mount: &MountName, shown: &Shown) -> RelayFacts
    ensures { result ≡ relay_facts_at station.now mount.now shown.now }
{
    RelayFacts {
        sources_are_full: sources_are_full(station),
        mount_is_live: station.session(mount).is_some(),
        type_is_refused: is_refused_type(shown.content_type.as_bytes()),
        number_is_spent: station.last_number() == u64::MAX,
    }
}

/// What is looked up for a source that delivers a block on the mount.
pub fn push_facts(station: &StationState<'_>, mount: &MountName, block: &Block) -> PushFacts
    ensures { result ≡ push_facts station.now mount.now block.now }
{
    PushFacts {
        number_is_spent: station.is_spent_by(mount, block.len() as u64),
    }
}

/// Returns what is looked up for a listener that sends this pair, or none, and wants to hear the
/// mount, and where its walk from there ends. A digest is made for each mount with users at which
/// the walk looks for a seat: two at the most.
// rule: Order for a listener; Fallback of a mount
pub fn listen_facts(
    station: &StationState<'_>,
    seats: &Listeners,
    mount: &MountName,
    pair: Option<&Pair>,
) -> (ListenFacts, Landing)
    ensures facts { result.0 ≡ listen_facts_at station.now seats.now.seats mount.now (option_copied pair.entry) }
    ensures landing { result.1 ≡ walks_to station.now seats.now.seats mount.now (option_copied pair.entry) }
{
    let Walk { first, landing } = station.walk_from(seats, mount, pair);
    let facts = ListenFacts {
        mount_is_known: is_known(station, mount),
        users_accept: first.users_accept,
        user_is_twice: first.user_is_twice,
        walk_stops: landing.stop(),
    };
    (facts, landing)
}

/// Whether the settings know the mount, or it is live.
fn is_known(station: &StationState<'_>, mount: &MountName) -> bool
    ensures { result ≡ is_known station.now mount.now }
{
    is_in_settings(station.settings(), mount) || station.session(mount).is_some()
}

/// Whether there are as many sessions as there may be.
fn sources_are_full(station: &StationState<'_>) -> bool
    ensures { result ≡ is_limit_reached (length station.now.live) station.now.settings.limits.sources }
{
    is_full(
        station.live_count(),
        station.settings().limits.sources.get(),
    )
}

/// Whether there are as many as there may be.
fn is_full(count: u64, limit: u32) -> bool
    ensures { result ≡ is_limit_reached count limit }
{
    count >= u64::from(limit)
}

/// Whether the settings have a table for the mount, or a relay that feeds it.
fn is_in_settings(settings: &Settings, mount: &MountName) -> bool
    ensures { result ≡ is_in_settings settings.now mount.now }
{
    settings.mounts.get(mount).is_some() || settings.relays.get(mount).is_some()
}
