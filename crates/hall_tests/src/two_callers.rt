//! Two callers of one hall, with a pass and a mount each, and then all passes settled.

use crate::halls::{PassCaller, Visit, is_well_visited, takes_pass};
use radio_access::Lists;
use radio_book::{Entry, Kept, Origin, Pass};
use radio_events::{Reply, ReplyText};
use radio_locks::Hall;
use radio_merge::{ControlLine, Family, MergeFault, Stamp, merge};
use radio_settings::SettingsFault;
use std::alloc::Global;
use std::sync::Wait;
use std::thread::Threads;
use test_calls::{CALLS, DRAWS, serve, settings};

/// What a listing has of a mount whose last title is `Night`.
const NIGHT: &[u8] = b"\"title\":\"Night\"";

/// The 100 calls of a caller with a mount of its own. Where memory is refused, the history lacks some
/// of them.
fn serve_path<H: Origin, R: Wait>(
    rt: &R,
    alloc: Global,
    hall: &Hall<Kept, H>,
    pass: &mut Pass<Kept, H>,
    path: &str,
) {
    let mut caller = PassCaller { rt, hall, pass };
    serve(alloc, &mut caller, path);
}

/// Two callers, with a pass each, one after the other.
fn serve_both<H: Origin, R: Wait>(
    rt: &R,
    alloc: Global,
    hall: &Hall<Kept, H>,
    first: &mut Pass<Kept, H>,
    second: &mut Pass<Kept, H>,
) {
    serve_path(rt, alloc, hall, first, "/a");
    serve_path(rt, alloc, hall, second, "/b");
}

/// Their passes are added. Whether they had one each.
pub fn are_served<H: Origin + Send + Sync, R: Threads + Wait + Sync>(
    rt: &R,
    alloc: Global,
    hall: &Hall<Kept, H>,
    passes: &mut Vec<Pass<Kept, H>>,
) -> bool {
    let are_two = takes_pass(rt, hall, passes) && takes_pass(rt, hall, passes);
    if let [first, second] = passes.as_mut_slice() {
        serve_both(rt, alloc, hall, first, second);
    }
    are_two
}

/// Whether it is the history of two callers: it has their draws, and the status twice, and a core
/// replies all of it again, byte for byte.
pub fn is_of_two(alloc: Global, history: &[Entry]) -> bool {
    history.len() == 2 * CALLS
        && count(history, Wanted::Drawn) == 2 * DRAWS
        && count(history, Wanted::Status) == 2
        && replays(alloc, history)
}

/// Whether a core replies all of it again, from the opening state: it is merged, as one list.
fn replays(alloc: Global, history: &[Entry]) -> bool {
    match merged_alone(alloc, history) {
        Ok(Ok(again)) => again.len() == history.len(),
        Ok(Err(_)) | Err(_) => false,
    }
}

/// What a merge answers of a history that is the control's list alone, and one pass.
fn merged_alone(
    alloc: Global,
    history: &[Entry],
) -> Result<Result<Vec<Entry>, MergeFault>, SettingsFault> {
    let mut control = Vec::new(alloc);
    let mut pass = Vec::new(alloc);
    for entry in history {
        control.push(ControlLine::Made(copy_of(entry)?))?;
        let serial = control.len() as u64;
        pass.push(Stamp { list: 0, serial })?;
    }
    let mut passes = Vec::new(alloc);
    passes.push(pass)?;
    let mounts = Vec::new(alloc);
    let family = Family { control, mounts };
    let settings = settings(alloc, "")?;
    Ok(merge(
        alloc,
        settings,
        Lists::new(alloc),
        &family,
        passes.as_slice(),
    ))
}

fn copy_of(entry: &Entry) -> Result<Entry, SettingsFault> {
    let event = entry.event.again()?;
    let reply = entry.reply.again()?;
    Ok(Entry { event, reply })
}

/// What is looked for in a history.
#[derive(Clone, Copy)]
enum Wanted {
    /// Data and a title for a listener.
    Drawn,
    /// The status, with the last title.
    Status,
}

impl Wanted {
    fn is(self, reply: &Reply) -> bool {
        match self {
            Wanted::Drawn => is_drawn(reply),
            Wanted::Status => is_status(reply),
        }
    }
}

/// In how many entries it is replied.
fn count(history: &[Entry], wanted: Wanted) -> usize {
    let mut count = 0usize;
    for entry in history {
        if wanted.is(&entry.reply) {
            count = count.saturating_add(1);
        }
    }
    count
}

/// Whether a client is shown a listing that has the last title.
fn is_status(reply: &Reply) -> bool {
    match reply {
        Reply::Text(ReplyText::Public { bytes, .. }) => has_night(bytes.as_slice()),
        _ => false,
    }
}

fn has_night(text: &[u8]) -> bool {
    text.windows(NIGHT.len()).any(|part| part == NIGHT)
}

/// Whether a listener gets data and a title.
fn is_drawn(reply: &Reply) -> bool {
    match reply {
        Reply::Drawn { pieces, title } => title.is_some() && !pieces.slices().is_empty(),
        _ => false,
    }
}

// rule: Legal history; Receipts; Settled history; History adds up; Admin stats
#[test]
fn two_callers(rt: HostRuntime) {
    assert!(rt; is_well_visited(&rt, "", Visit::TwoCallers));
}

// rule: Faults of settling
#[test]
fn a_pass_is_left_out(rt: HostRuntime) {
    assert!(rt; is_well_visited(&rt, "", Visit::LeftOut));
}

#[test]
fn an_unused_hall(rt: HostRuntime) {
    assert!(rt; is_well_visited(&rt, "", Visit::Unused));
}
