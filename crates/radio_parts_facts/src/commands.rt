//! What is looked up for a client that gives a command.

ghost use Rattle.std.specs.Prelude.{◌≡◌, []};
ghost use Rattle.std.specs.Option.{option_copied};
ghost use Rattle.std.specs.Str.{bytes_eq};
ghost use Rattle.radio_parts_station.specs.World.{world};
ghost use Rattle.radio_parts_facts.specs.CommandFacts.{opened_by, opener_in, opens, opens_as_source, is_live, is_listener_at, needs_of, facts_for, access_to, facts_to_list, facts_asked};

use radio_access::{is_admin_pair, is_named_source_pair, is_relay_pair};
use radio_creds::Pair;
use radio_events::{Asked, Command, Listing, OpenedBy};
use radio_parts_station::StationState;
use radio_parts_table::Listeners;
use radio_policy::{CommandAccess, CommandFacts, CommandNeeds, DestinationFacts, Opener};
use radio_settings_values::Settings;
use radio_values::MountName;

/// Returns what is looked up, in the station and among the listeners, for a client that sends this
/// pair, or none, and whose path and arguments ask for this. `None` if the path names no command.
// rule: Order for a command; No destination; Same mount; No client; No users; No user
pub fn command_facts(
    station: &StationState<'_>,
    seats: &Listeners,
    asked: &Asked,
    pair: Option<&Pair>,
) -> Option<CommandFacts>
    ensures { result ≡ facts_asked (world station.now seats.now.seats) asked.now (option_copied pair.entry) }
{
    match asked {
        Asked::NoCommand => None,
        Asked::MissingArgument(by) => { Some(facts_for(station, by, CommandNeeds::Argument, pair)) }
        Asked::Listing(listing) => Some(facts_to_list(station, listing, pair)),
        Asked::Command(command) => {
            let needs = needs_of(station, seats, command);
            Some(facts_for(station, &opened_by(command), needs, pair))
        }
    }
}

fn facts_for(
    station: &StationState<'_>,
    by: &OpenedBy,
    needs: CommandNeeds,
    pair: Option<&Pair>,
) -> CommandFacts
    ensures { result ≡ facts_for (world station.now []) by.now needs (option_copied pair.entry) }
{
    CommandFacts {
        access: CommandAccess::Pair {
            opener: opener_in(by),
            is_sent: opens(station.settings(), by, pair),
        },
        needs,
    }
}

fn facts_to_list(station: &StationState<'_>, listing: &Listing, pair: Option<&Pair>) -> CommandFacts
    ensures { result ≡ facts_to_list (world station.now []) listing.now (option_copied pair.entry) }
{
    CommandFacts {
        access: access_to(station.settings(), listing, pair),
        needs: match listing {
            Listing::Clients(mount) => CommandNeeds::Mount {
                is_live: has_session(station, mount),
            },
            Listing::Status | Listing::Stats | Listing::Mounts | Listing::Streams => {
                CommandNeeds::Nothing
            }
        },
    }
}

/// What the command needs, and whether it is there.
fn needs_of(station: &StationState<'_>, seats: &Listeners, command: &Command) -> CommandNeeds
    ensures { result ≡ needs_of (world station.now seats.now.seats) command.now }
{
    match command {
        Command::MoveClients { mount, destination } => {
            CommandNeeds::Destination(destination_facts(station, mount, destination))
        }
        Command::KillClient { mount, listener } => CommandNeeds::Client {
            mount_is_live: has_session(station, mount),
            sits_there: sits_at(seats, mount, *listener),
        },
        Command::KillSource { mount }
        | Command::SetTitle { mount, .. }
        | Command::SetFallback { mount, .. } => CommandNeeds::Mount {
            is_live: has_session(station, mount),
        },
        Command::AddUser { mount, .. } => CommandNeeds::Users {
            has_users: station.lists().has_users(mount),
        },
        Command::DeleteUser { mount, user } => CommandNeeds::User {
            has_users: station.lists().has_users(mount),
            is_listed: station.lists().has_user(mount, user.as_slice()),
        },
    }
}

/// Whether the mount is live.
fn has_session(station: &StationState<'_>, mount: &MountName) -> bool
    ensures { result ≡ is_live station.now mount.now }
{
    station.session(mount).is_some()
}

fn destination_facts(
    station: &StationState<'_>,
    mount: &MountName,
    destination: &MountName,
) -> DestinationFacts
    ensures { CommandNeeds.Destination result ≡ CommandNeeds.Destination (record {
      mount_is_live = is_live station.now mount.now;
      destination_is_live = is_live station.now destination.now;
      is_same_mount = bytes_eq mount.now destination.now;
    }) }
{
    DestinationFacts {
        mount_is_live: has_session(station, mount),
        destination_is_live: has_session(station, destination),
        is_same_mount: *mount == *destination,
    }
}

/// Who may see the listing: everybody the status, and relays the list of streams; all else is the
/// admin's alone.
fn access_to(settings: &Settings, listing: &Listing, pair: Option<&Pair>) -> CommandAccess
    ensures { result ≡ access_to settings.now listing.now (option_copied pair.entry) }
{
    match listing {
        Listing::Status => CommandAccess::Everybody,
        Listing::Streams => CommandAccess::Pair {
            opener: Opener::Relay,
            is_sent: is_admin_pair(settings, pair) || is_relay_pair(settings, pair),
        },
        Listing::Stats | Listing::Mounts | Listing::Clients(_) => CommandAccess::Pair {
            opener: Opener::Admin,
            is_sent: is_admin_pair(settings, pair),
        },
    }
}

/// Returns whose pair opens the command, in addition to the admin's. The source of a mount too may
/// set its title and its fallback.
fn opened_by(command: &Command) -> OpenedBy
    ensures { result ≡ opened_by command.now }
{
    match command {
        Command::MoveClients { .. }
        | Command::KillClient { .. }
        | Command::KillSource { .. }
        | Command::AddUser { .. }
        | Command::DeleteUser { .. } => OpenedBy::Admin,
        Command::SetTitle { mount, .. } | Command::SetFallback { mount, .. } => {
            OpenedBy::Source(Some(*mount))
        }
    }
}

fn opener_in(by: &OpenedBy) -> Opener
    ensures { result ≡ opener_in by.now }
{
    match by {
        OpenedBy::Admin => Opener::Admin,
        OpenedBy::Source(_) => Opener::Source,
    }
}

/// Whether the pair opens it; that of the admin opens all.
fn opens(settings: &Settings, by: &OpenedBy, pair: Option<&Pair>) -> bool
    ensures { result ≡ opens settings.now by.now (option_copied pair.entry) }
{
    is_admin_pair(settings, pair) || opens_as_source(settings, by, pair)
}

/// Whether the pair of the mount's source opens it, and is the one that was sent.
fn opens_as_source(settings: &Settings, by: &OpenedBy, pair: Option<&Pair>) -> bool
    ensures { result ≡ opens_as_source settings.now by.now (option_copied pair.entry) }
{
    match by {
        OpenedBy::Admin => false,
        OpenedBy::Source(mount) => is_named_source_pair(settings, mount.as_ref(), pair),
    }
}

/// Whether the listener of this number sits at the mount.
fn sits_at(seats: &Listeners, mount: &MountName, id: u64) -> bool
    ensures { result ≡ is_listener_at seats.now.seats mount.now id }
{
    match seats.seat(id) {
        Some(seat) => *seat.mount == *mount,
        None => false,
    }
}
