//! Two workers over one hall, and the history to which their passes settle.

ghost use Rattle.std.specs.Prelude.{◌≡◌, ◌-◌, ◌^◌, ◌<◌, All, IfOk, OnOk};
ghost use Rattle.radio_access.specs.Lists.{no_lists};
ghost use Rattle.radio_workers.specs.Passes.{all_parts};
ghost use Rattle.radio_parts_station.specs.World.{opening};

use crate::connections::{CONNECTIONS, Connections, peer_of};
use crate::dice::Dice;
use crate::hearing::is_all_as_it_came;
use crate::line::DicedLine;
use radio_access::Lists;
use radio_addr::Peer;
use radio_book::{Kept, Origin, PASSES, Pass};
use radio_hall::settle;
use radio_locks::{Hall, OutOfMemory};
use radio_notes::Log;
use radio_serving::{OpenGate, Turn, WebAnswers};
use radio_settings::{SettingsFault, read_settings};
use radio_settings_values::Settings;
use radio_workers::{
    Intake, IntakePass, Seen, TurnSource, TurnStart, WorkerSlot, Workplace, add_slot, run_workers,
};
use std::alloc::Global;
use std::marker::Brand;
use std::sync::Wait;
use std::sync::ledger::Blank;
use std::thread;
use std::thread::Threads;
use std::time::{Clock, Duration};

/// The settings of a station. A listener begins up to 700 bytes behind.
const SETTINGS: &str =
    "source-password = \"hackme\"\nadmin-password = \"letmein\"\n[limits]\nsources = 4\nburst-size = 700\n";

/// How many turns each worker makes, a millisecond each.
const TURNS: u64 = 300;

/// Decides when a worker's turns begin: one in each millisecond, before which it takes one connection.
#[derive(Drop)]
struct DicedTurns<'a, R: Wait + Clock> {
    rt: &'a R,
    alloc: Global,
    connections: &'a Connections,
    seed: u64,
    ms: u64,
}

impl<'a, R: Wait + Clock> TurnSource<usize, DicedLine<'a, R>> for DicedTurns<'a, R> {
    fn next(&mut self, _log: &Log) -> Option<TurnStart> {
        thread::sleep(self.rt, Duration::from_millis(1));
        self.ms = self.ms.saturating_add(1);
        Some(TurnStart {
            turn: Turn {
                ms: self.ms,
                news: true,
                clock_ms: 0,
            },
            newcomers: 1,
        })
    }

    fn open(&mut self, newcomer: usize) -> Option<(DicedLine<'a, R>, Peer)> {
        let connections = self.connections;
        let Some(plan) = connections.plans.get(newcomer) else {
            return None;
        };
        let Some(tape) = connections.tapes.get(newcomer) else {
            return None;
        };
        let dice = Dice::new(self.seed, newcomer);
        Some((
            DicedLine::new(self.rt, self.alloc, plan, tape, dice),
            peer_of(newcomer),
        ))
    }

    fn most_lingering(&mut self, lingering: usize) -> usize {
        lingering
    }

    fn begins_round(&mut self, has_news: bool, brings: bool) -> bool {
        has_news || brings
    }

    fn note(&mut self, _seen: Seen, log: &Log) {
        drop(log.take());
    }
}

/// Slots of workers at a station.
type Slots<'a, R, H> = Vec<WorkerSlot<Pass<Kept, H>, usize, DicedTurns<'a, R>>>;

/// Adds a slot for a worker. `OutOfMemory` if memory was refused.
fn add_worker<'a, H: Origin, R: Wait + Clock>(
    rt: &'a R,
    alloc: Global,
    hall: &Hall<Kept, H>,
    connections: &'a Connections,
    intake: &Intake<usize>,
    intake_pass: &mut IntakePass<usize>,
    slots: &mut Slots<'a, R, H>,
    seed: u64,
) -> Result<(), OutOfMemory>
    requires own { intake_pass.old.intake ≡ intake.now }
    requires parts { 1 < intake_pass.old.parts }
    requires slots { All (λ slot. slot.intake_pass.intake ≡ intake.now) slots.old.items }
    ensures own { intake_pass.new.intake ≡ intake.now }
    ensures parts { OnOk result (intake_pass.new.parts ≡ intake_pass.old.parts - 1) }
    ensures slots { OnOk result (All (λ slot. slot.intake_pass.intake ≡ intake.now) slots.new.items) }
{
    let turns = DicedTurns {
        rt,
        alloc,
        connections,
        seed,
        ms: 0,
    };
    add_slot(slots, intake, intake_pass, hall.pass(rt), turns)
}

/// Returns slots for two workers. `OutOfMemory` if memory was refused.
fn slots_for<'a, H: Origin, R: Wait + Clock>(
    rt: &'a R,
    alloc: Global,
    hall: &Hall<Kept, H>,
    connections: &'a Connections,
    intake: &Intake<usize>,
    intake_pass: &mut IntakePass<usize>,
    seed: u64,
) -> Result<Slots<'a, R, H>, OutOfMemory>
    requires own { intake_pass.old.intake ≡ intake.now }
    requires parts { intake_pass.old.parts ≡ all_parts }
    ensures own { intake_pass.new.intake ≡ intake.now }
    ensures slots { IfOk result (λ slots. All (λ slot. slot.intake_pass.intake ≡ intake.now) slots.items) }
{
    let mut slots = Vec::new(alloc);
    add_worker(
        rt,
        alloc,
        hall,
        connections,
        intake,
        intake_pass,
        &mut slots,
        seed,
    )?;
    add_worker(
        rt,
        alloc,
        hall,
        connections,
        intake,
        intake_pass,
        &mut slots,
        seed,
    )?;
    Ok(slots)
}

/// All connections wait to be taken. Returns whether there was room for them.
fn fill<R: Wait>(rt: &R, intake: &Intake<usize>, intake_pass: &mut IntakePass<usize>) -> bool
    requires own { intake_pass.old.intake ≡ intake.now }
    ensures own { intake_pass.new.intake ≡ intake.now }
    ensures parts { intake_pass.new.parts ≡ intake_pass.old.parts }
{
    'numbers: for number in 0..CONNECTIONS {
        if intake.put(rt, intake_pass, number).is_err() {
            return false;
        }
    }
    true
}

/// Runs the workers at these slots.
fn work<'a, H: Origin + Send + Sync, R: Threads + Wait + Clock + Sync>(
    rt: &'a R,
    alloc: Global,
    hall: &Hall<Kept, H>,
    intake: &Intake<usize>,
    slots: &mut [WorkerSlot<Pass<Kept, H>, usize, DicedTurns<'a, R>>],
)
    requires slots { All (λ slot. slot.intake_pass.intake ≡ intake.now) slots.old }
{
    let gate = OpenGate;
    let place = Workplace {
        server: hall,
        intake,
        gate: &gate,
        web: WebAnswers::none(),
        log_polls: true,
        patience_s: 10,
        turns: TURNS,
    };
    run_workers::<R, Hall<Kept, H>, usize, DicedLine<'a, R>, DicedTurns<'a, R>, OpenGate>(
        rt, alloc, &place, slots,
    );
    drop(place);
}

/// Adds the passes of these workers. Returns whether each has had its back.
fn add_passes<R: Wait + Clock, H: Origin>(
    slots: Slots<'_, R, H>,
    passes: &mut Vec<Pass<Kept, H>>,
) -> bool {
    let mut are_added = true;
    for slot in slots {
        let WorkerSlot { pass, .. } = slot;
        let is_added = match pass {
            Some(pass) => passes.push(pass).is_ok(),
            None => false,
        };
        are_added = are_added && is_added;
    }
    are_added
}

/// Serves these connections by two workers at the hall, and adds their passes. Returns whether all were taken.
fn are_served<H: Origin + Send + Sync, R: Threads + Wait + Clock + Sync>(
    rt: &R,
    alloc: Global,
    hall: &Hall<Kept, H>,
    connections: &Connections,
    seed: u64,
    passes: &mut Vec<Pass<Kept, H>>,
) -> bool {
    let Ok((intake, mut intake_pass)) = Intake::new(alloc) else {
        return false;
    };
    let Ok(mut slots) = slots_for(
        rt,
        alloc,
        hall,
        connections,
        &intake,
        &mut intake_pass,
        seed,
    ) else {
        return false;
    };
    let is_filled = fill(rt, &intake, &mut intake_pass);
    work(rt, alloc, hall, &intake, slots.as_mut_slice());
    let is_empty = intake.take(rt, &mut intake_pass).is_none();
    add_passes(slots, passes) && is_filled && is_empty
}

/// Serves these connections at a hall of these settings. Returns whether the history is as the lines gave and took.
fn is_told_as_it_came<H: Origin + Send + Sync, R: Threads + Wait + Clock + Sync>(
    rt: &R,
    alloc: Global,
    settings: Settings,
    blank: Blank,
    seed: u64,
) -> bool
    requires opening { H.opening ≡ opening settings no_lists }
    requires ledger { (blank.name ≡ H.name) × (blank.parts ≡ H.parts) × (blank.parts ≡ 2 ^ 32) }
{
    let Ok(hall) = Hall::<Kept, H>::new(alloc, settings, Lists::new(alloc), blank) else {
        return false;
    };
    let Ok(connections) = Connections::new(alloc, seed) else {
        drop(hall);
        return false;
    };
    let mut passes = Vec::new(alloc);
    let are_served = are_served(rt, alloc, &hall, &connections, seed, &mut passes);
    match settle(alloc, hall, passes) {
        Ok(history) => {
            let is_as_it_came = is_all_as_it_came(rt, alloc, history.as_slice(), &connections);
            drop(history);
            are_served && is_as_it_came
        }
        Err(_) => false,
    }
}

/// Serves a station of this seed.
fn goes<R: Threads + Wait + Clock + Sync>(
    rt: &R,
    alloc: Global,
    seed: u64,
) -> Result<bool, SettingsFault> {
    let settings = read_settings(alloc, SETTINGS)?;
    let blank = Blank::new(PASSES);
    Ok(is_told_as_it_came::<Brand, R>(rt, alloc, settings, blank, seed))
}

/// Returns whether listeners at a station of this seed get what came.
fn hears<R: AllocGlobal + Threads + Wait + Clock + Sync>(rt: &R, seed: u64) -> bool {
    match goes(rt, rt.alloc(), seed) {
        Ok(hears) => hears,
        Err(_) => false,
    }
}

/// Each source delivers what its line gave, in its order. Each listener draws a slice of what its mount's source delivered, and its
/// line takes a front of that.
// rule: Settled history; Order of calls
#[test]
fn listeners_hear_slices(rt: HostRuntime) {
    assert!(rt; hears(&rt, 1) && hears(&rt, 2) && hears(&rt, 3));
}
