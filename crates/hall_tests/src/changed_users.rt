//! A hall whose users change before its passes are settled. The history is a run from the users of the opening.

ghost use Rattle.std.specs.Prelude.{◌≡◌, ◌^◌};
ghost use Rattle.radio_parts_station.specs.World.{opening};

use bytes::Bytes;
use radio_access::Lists;
use radio_book::{Entry, Kept, Origin, PASSES, Pass};
use radio_creds::{Users, basic};
use radio_events::{Asked, Boxed, Command, Event, ListenRequest, OutOfMemory, PageVisit, Reply};
use radio_hall::settle;
use radio_locks::Hall;
use radio_settings_values::Settings;
use radio_values::MountName;
use std::alloc::{AllocError, AllocGlobal, Global};
use std::marker::Brand;
use std::sync::Wait;
use std::sync::ledger::Blank;
use test_calls::{arrival, command_event, number_given, settings, source_event};

/// The user `ann` with the password `abc`.
const ANN: &[u8] = b"ann:900150983cd24fb0d6963f7d28e17f72\n";

/// What she sends.
const HER_PAIR: &[u8] = b"Basic YW5uOmFiYw==";

/// What the user `bob` sends, with the password `abc`.
const HIS_PAIR: &[u8] = b"Basic Ym9iOmFiYw==";

/// What a client asks for after it has arrived.
#[derive(Clone, Copy)]
enum Asks {
    /// To feed the mount.
    Feeds,
    /// To listen, with this pair.
    Listens(&'static [u8]),
    /// That `ann` is let in no more.
    DeletesHer,
    /// That `bob` is let in.
    AddsHim,
}

/// What clients ask for, one after another: she is let in, and no more once she is deleted; he is let in once he is added.
const ASKED: &[Asks] = &[
    Asks::Feeds,
    Asks::Listens(HIS_PAIR),
    Asks::Listens(HER_PAIR),
    Asks::DeletesHer,
    Asks::Listens(HER_PAIR),
    Asks::AddsHim,
    Asks::Listens(HIS_PAIR),
];

impl Asks {
    /// The request of the client of this number, at this mount.
    fn event(self, alloc: Global, id: u64, mount: MountName) -> Result<Event, OutOfMemory> {
        match self {
            Asks::Feeds => source_event(alloc, id, mount.as_str()),
            Asks::Listens(pair) => listening(alloc, id, mount, pair),
            Asks::DeletesHer => {
                let user = Bytes::from_static(b"ann");
                command_event(
                    alloc,
                    id,
                    Asked::Command(Command::DeleteUser { mount, user }),
                )
            }
            Asks::AddsHim => {
                let user = Bytes::from_static(b"bob");
                let password = Bytes::from_static(b"abc");
                command_event(
                    alloc,
                    id,
                    Asked::Command(Command::AddUser {
                        mount,
                        user,
                        password,
                    }),
                )
            }
        }
    }
}

/// The request of the client of this number to listen to the mount, with this pair.
fn listening(alloc: Global, id: u64, mount: MountName, pair: &[u8]) -> Result<Event, OutOfMemory> {
    let request = ListenRequest {
        id,
        mount: Bytes::copy_from_slice(alloc, mount.as_bytes())?,
        pair: basic(alloc, pair)?,
        wants_metadata: false,
        visit: PageVisit {
            host: Bytes::from_static(b""),
            server_start: None,
        },
    };
    Ok(Event::Listen(Boxed::new(alloc, request)?))
}

/// A client arrives and asks for this.
fn ask<H: Origin, R: Wait>(
    rt: &R,
    alloc: Global,
    hall: &Hall<Kept, H>,
    pass: &mut Pass<Kept, H>,
    mount: MountName,
    asks: Asks,
) -> Result<(), OutOfMemory> {
    let arrived = hall.apply(rt, pass, arrival())?.into_reply();
    let id = number_given(&arrived);
    drop(arrived);
    let receipt = hall.apply(rt, pass, asks.event(alloc, id, mount)?)?;
    drop(receipt);
    Ok(())
}

/// All clients come, one after another.
fn ask_all<H: Origin, R: Wait>(
    rt: &R,
    alloc: Global,
    hall: &Hall<Kept, H>,
    pass: &mut Pass<Kept, H>,
    mount: MountName,
) -> Result<(), OutOfMemory> {
    for asks in ASKED {
        ask(rt, alloc, hall, pass, mount, *asks)?;
    }
    Ok(())
}

/// How many replies let a listener in.
fn let_in(history: &[Entry]) -> usize {
    let mut count = 0usize;
    for entry in history {
        if matches!(entry.reply, Reply::Seated { .. }) {
            count = count.saturating_add(1);
        }
    }
    count
}

/// Whether all was asked through one pass, which settles as that history.
fn settles_to_that<H: Origin, R: Wait>(
    rt: &R,
    alloc: Global,
    hall: Hall<Kept, H>,
    mount: MountName,
) -> Result<bool, OutOfMemory> {
    let mut passes = Vec::new(alloc);
    let Some(mut pass) = hall.pass(rt) else {
        return Ok(false);
    };
    ask_all(rt, alloc, &hall, &mut pass, mount)?;
    passes.push(pass)?;
    match settle(alloc, hall, passes) {
        Ok(history) => {
            let history = history.as_slice();
            Ok(history.len() == 2 * ASKED.len() && let_in(history) == 2)
        }
        Err(_) => Ok(false),
    }
}

/// The same of a hall of these settings and lists.
fn goes_well<H: Origin, R: Wait>(
    rt: &R,
    alloc: Global,
    settings: Settings,
    lists: Lists,
    blank: Blank,
    mount: MountName,
) -> bool
    requires opening { H.opening ≡ opening settings lists }
    requires ledger { (blank.name ≡ H.name) × (blank.parts ≡ H.parts) × (blank.parts ≡ 2 ^ 32) }
{
    let Ok(hall) = Hall::<Kept, H>::new(alloc, settings, lists, blank) else {
        return false;
    };
    matches!(settles_to_that(rt, alloc, hall, mount), Ok(true))
}

/// Lists that have her as the one user of the mount.
fn her_lists(alloc: Global, mount: MountName) -> Result<Lists, OutOfMemory> {
    let mut lists = Lists::new(alloc);
    lists.set_users(mount, Users::read(alloc, ANN)?)?;
    Ok(lists)
}

/// Whether it goes well at a hall with her as the one user of the mount.
fn went_well<R: Wait>(rt: &R, alloc: Global, mount: MountName) -> Result<bool, OutOfMemory> {
    let lists = her_lists(alloc, mount)?;
    match settings(alloc, "") {
        Ok(settings) => {
            let blank = Blank::new(PASSES);
            Ok(goes_well::<Brand, R>(rt, alloc, settings, lists, blank, mount))
        }
        Err(_) => {
            drop(lists);
            Err(AllocError)
        }
    }
}

fn is_settled<R: AllocGlobal + Wait>(rt: &R) -> bool {
    match MountName::read(b"/a") {
        Some(mount) => matches!(went_well(rt, rt.alloc(), mount), Ok(true)),
        None => false,
    }
}

/// A listener whose user is deleted later stays let in, and one whose user is added later stays turned away before.
// rule: Settled history; Change of users
#[test]
fn changed_users_settle(rt: HostRuntime) {
    assert!(rt; is_settled(&rt));
}
