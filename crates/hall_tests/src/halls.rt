//! A hall that stores its entries, what is done there, and all passes settled then.

ghost use Rattle.std.specs.Prelude.{◌≡◌, ◌^◌};
ghost use Rattle.radio_access.specs.Lists.{no_lists};
ghost use Rattle.radio_parts_station.specs.World.{opening};

use crate::kept_rows::{KeptRow, is_row_played};
use crate::moving::{Together, are_together};
use crate::over_a_hall::{is_lock_free, is_title_heard};
use crate::two_callers::{are_served, is_of_two};
use crate::workers;
use crate::workers::Rush;
use radio_access::Lists;
use radio_book::{Entry, Kept, Origin, PASSES, Pass};
use radio_events::{Event, Reply};
use radio_hall::{SettleFault, settle};
use radio_locks::{Hall, OutOfMemory};
use radio_serving::{Server, Watched};
use radio_settings::SettingsFault;
use radio_settings_values::Settings;
use radio_values::MountName;
use std::alloc::Global;
use std::marker::Brand;
use std::sync::Wait;
use std::sync::ledger::Blank;
use std::thread::Threads;
use std::time::Clock;
use test_calls::{Callee, number_given, settings};

/// A caller of a hall, through a pass.
#[derive(Drop)]
pub struct PassCaller<'a, R: Wait, H: Origin> {
    pub rt: &'a R,
    pub hall: &'a Hall<Kept, H>,
    pub pass: &'a mut Pass<Kept, H>,
}

impl<'a, R: Wait, H: Origin> Callee for PassCaller<'a, R, H> {
    fn call(&mut self, event: Event) -> Option<u64> {
        match self.hall.apply(self.rt, self.pass, event) {
            Ok(receipt) => {
                let number = number_given(receipt.reply());
                drop(receipt);
                Some(number)
            }
            Err(_) => None,
        }
    }
}

/// A caller of a hall, which a worker asks at a station: a name with one lifetime.
#[derive(Drop)]
pub struct HallCaller<'a, R: Wait, H: Origin> {
    watched: Watched<'a, R, Hall<Kept, H>>,
}

impl<'a, R: Wait, H: Origin> HallCaller<'a, R, H> {
    /// A caller of this hall, with this pass.
    pub fn new(
        alloc: Global,
        rt: &'a R,
        hall: &'a Hall<Kept, H>,
        pass: Pass<Kept, H>,
    ) -> HallCaller<'a, R, H> {
        HallCaller {
            watched: Watched::new(alloc, rt, hall, pass),
        }
    }

    /// Its pass, when it calls no more.
    pub fn into_pass(self) -> Pass<Kept, H> {
        self.watched.into_pass()
    }
}

impl<'a, R: Wait, H: Origin> Server for HallCaller<'a, R, H> {
    ghost steps = { λ from event reply to. Unit {0} };

    ghost refuses = { λ from event. Unit {0} };

    fn apply(&mut self, event: Event) -> Result<Reply, OutOfMemory> {
        self.watched.apply(event)
    }

    fn last_mount(&self, id: u64) -> Option<MountName> {
        self.watched.last_mount(id)
    }
}

/// What is done at a hall.
#[derive(Clone, Copy)]
pub enum Visit {
    /// Two threads make their calls, with a pass each.
    TwoCallers,
    /// The same, and only one of the passes is given to be settled.
    LeftOut,
    /// A pass is taken, and no caller uses it.
    Unused,
    /// A source is served, another caller sets a title, and a listener gets it.
    Titling,
    /// A source and a listener are served through a gate that knocks.
    Knocking,
    /// Connections that are slow or fail are served.
    Row(KeptRow),
    /// Workers in threads of their own serve all connections that come.
    Rush(Rush),
    /// Several callers meet.
    Together(Together),
}

impl Visit {
    /// Settles the passes of this hall. Whether they are settled as they are to be.
    fn settles<H: Origin>(
        self,
        alloc: Global,
        hall: Hall<Kept, H>,
        passes: Vec<Pass<Kept, H>>,
    ) -> bool {
        let settled = settle(alloc, hall, passes);
        let is_settled = self.is_settled(alloc, &settled);
        drop(settled);
        is_settled
    }

    /// Whether that is what the passes are to be settled as.
    fn is_settled(self, alloc: Global, settled: &Result<Vec<Entry>, SettleFault>) -> bool {
        match settled {
            Ok(history) => self.leaves(alloc, history.as_slice()),
            Err(fault) => self.is_left_out() && *fault == LEFT_OUT,
        }
    }

    /// Returns whether the visit leaves that history. A title that a listener gets has two arrivals, their two
    /// requests, a block, a title, and a draw.
    fn leaves(self, alloc: Global, history: &[Entry]) -> bool {
        match self {
            Visit::TwoCallers => is_of_two(alloc, history),
            Visit::LeftOut => false,
            Visit::Unused => history.is_empty(),
            Visit::Titling => history.len() == 7,
            Visit::Knocking => true,
            Visit::Row(kept) => kept.leaves(history),
            Visit::Rush(rush) => rush.leaves(history),
            Visit::Together(_) => true,
        }
    }

    fn is_left_out(self) -> bool {
        matches!(self, Visit::LeftOut)
    }
}

/// What is wrong with one pass of two.
const LEFT_OUT: SettleFault = SettleFault::Count {
    book: 200,
    passes: 100,
};

/// Does it, and adds the passes. Whether it went as it is to go.
fn visit_with<H: Origin + Send + Sync, R: Threads + Wait + Clock + Sync>(
    rt: &R,
    alloc: Global,
    hall: &Hall<Kept, H>,
    passes: &mut Vec<Pass<Kept, H>>,
    visit: Visit,
) -> bool {
    match visit {
        Visit::Rush(rush) => workers::are_served(rt, alloc, hall, passes, rush),
        Visit::Together(together) => are_together(rt, alloc, hall, passes, together),
        other => visit_by_calls(rt, alloc, hall, passes, other),
    }
}

/// The same of a visit without workers' threads; no other goes so.
fn visit_by_calls<H: Origin + Send + Sync, R: Threads + Wait + Sync>(
    rt: &R,
    alloc: Global,
    hall: &Hall<Kept, H>,
    passes: &mut Vec<Pass<Kept, H>>,
    visit: Visit,
) -> bool {
    match visit {
        Visit::TwoCallers => are_served(rt, alloc, hall, passes),
        Visit::LeftOut => leaves_one_out(rt, alloc, hall, passes),
        other => visit_alone(rt, alloc, hall, passes, other),
    }
}

/// The same of a visit that wants one thread alone; no other goes so.
fn visit_alone<H: Origin, R: Wait>(
    rt: &R,
    alloc: Global,
    hall: &Hall<Kept, H>,
    passes: &mut Vec<Pass<Kept, H>>,
    visit: Visit,
) -> bool {
    match visit {
        Visit::Unused => takes_pass(rt, hall, passes),
        Visit::Titling => is_title_heard(rt, alloc, hall, passes),
        Visit::Knocking => is_lock_free(rt, alloc, hall, passes),
        Visit::Row(kept) => is_row_played(rt, alloc, hall, passes, kept),
        Visit::TwoCallers | Visit::LeftOut | Visit::Rush(_) | Visit::Together(_) => false,
    }
}

/// Two threads make their calls, and of their passes only the first is added. Whether the calls were made.
fn leaves_one_out<H: Origin + Send + Sync, R: Threads + Wait + Sync>(
    rt: &R,
    alloc: Global,
    hall: &Hall<Kept, H>,
    passes: &mut Vec<Pass<Kept, H>>,
) -> bool {
    let are_served = are_served(rt, alloc, hall, passes);
    passes.truncate(1);
    are_served
}

/// Takes a pass, and adds it. Whether there was one, and memory for it.
pub fn takes_pass<H: Origin, R: Wait>(
    rt: &R,
    hall: &Hall<Kept, H>,
    passes: &mut Vec<Pass<Kept, H>>,
) -> bool {
    match hall.pass(rt) {
        Some(pass) => passes.push(pass).is_ok(),
        None => false,
    }
}

/// The visit at a hall of these settings. Whether it went as it is to go.
fn goes_well<H: Origin + Send + Sync, R: Threads + Wait + Clock + Sync>(
    rt: &R,
    alloc: Global,
    settings: Settings,
    blank: Blank,
    visit: Visit,
) -> bool
    requires opening { H.opening ≡ opening settings no_lists }
    requires ledger { (blank.name ≡ H.name) × (blank.parts ≡ H.parts) × (blank.parts ≡ 2 ^ 32) }
{
    let Ok(hall) = Hall::<Kept, H>::new(alloc, settings, Lists::new(alloc), blank) else {
        return false;
    };
    let mut passes = Vec::new(alloc);
    let went = visit_with(rt, alloc, &hall, &mut passes, visit);
    visit.settles(alloc, hall, passes) && went
}

fn went_well<R: Threads + Wait + Clock + Sync>(
    rt: &R,
    alloc: Global,
    more: &str,
    visit: Visit,
) -> Result<bool, SettingsFault> {
    let settings = settings(alloc, more)?;
    let blank = Blank::new(PASSES);
    Ok(goes_well::<Brand, R>(rt, alloc, settings, blank, visit))
}

/// Whether at a hall with these settings more the visit goes as it is to go.
pub fn is_well_visited<R: AllocGlobal + Threads + Wait + Clock + Sync>(
    rt: &R,
    more: &str,
    visit: Visit,
) -> bool {
    match went_well(rt, rt.alloc(), more, visit) {
        Ok(went) => went,
        Err(_) => false,
    }
}
