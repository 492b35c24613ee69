//! Seats of workers that take lines in memory, turn after turn.

ghost use Rattle.std.specs.Prelude.{◌≡◌, ◌-◌, ◌<◌, All, IfOk, OnOk};
ghost use Rattle.radio_workers.specs.Passes.{all_parts};

use radio_addr::Peer;
use radio_book::{Kept, Origin, Pass};
use radio_locks::Hall;
use radio_notes::Log;
use radio_serving::Turn;
use radio_workers::{
    Intake, IntakePass, OutOfMemory, Seen, TurnSource, TurnStart, WorkerSlot, add_slot,
};
use std::alloc::Global;
use std::sync::Wait;
use test_stations::{Manners, MemoryLine};

/// Decides when a worker's turns begin: there is one in each millisecond, and it takes one waiting connection before
/// each.
#[derive(Drop)]
pub struct MemoryPost {
    alloc: Global,
    ms: u64,
}

impl TurnSource<Manners, MemoryLine> for MemoryPost {
    fn next(&mut self, _log: &Log) -> Option<TurnStart> {
        self.ms = self.ms.saturating_add(1);
        Some(TurnStart {
            turn: Turn {
                ms: self.ms,
                news: true,
                clock_ms: 0,
            },
            newcomers: 1,
        })
    }

    fn open(&mut self, coming: Manners) -> Option<(MemoryLine, Peer)> {
        Some((
            MemoryLine::new(self.alloc, coming),
            Peer::of_v4(0x7f00_0001),
        ))
    }

    fn most_lingering(&mut self, lingering: usize) -> usize {
        lingering
    }

    fn begins_round(&mut self, has_news: bool, brings: bool) -> bool {
        has_news || brings
    }

    fn note(&mut self, _seen: Seen, log: &Log) {
        drop(log.take());
    }
}

/// Seats of workers over lines in memory.
pub type Seats<H> = Vec<WorkerSlot<Pass<Kept, H>, Manners, MemoryPost>>;

/// Adds seats for two workers.
fn add_two<H: Origin, R: Wait>(
    rt: &R,
    alloc: Global,
    hall: &Hall<Kept, H>,
    intake: &Intake<Manners>,
    pass: &mut IntakePass<Manners>,
    seats: &mut Seats<H>,
) -> Result<(), OutOfMemory>
    requires own { pass.old.intake ≡ intake.now }
    requires parts { 2 < pass.old.parts }
    requires seats { All (λ seat. seat.intake_pass.intake ≡ intake.now) seats.old.items }
    ensures own { pass.new.intake ≡ intake.now }
    ensures parts { OnOk result (pass.new.parts ≡ pass.old.parts - 2) }
    ensures seats { OnOk result (All (λ seat. seat.intake_pass.intake ≡ intake.now) seats.new.items) }
{
    add_slot(
        seats,
        intake,
        pass,
        hall.pass(rt),
        MemoryPost { alloc, ms: 0 },
    )?;
    add_slot(
        seats,
        intake,
        pass,
        hall.pass(rt),
        MemoryPost { alloc, ms: 0 },
    )
}

/// Adds seats for two workers, or for four.
fn add_workers<H: Origin, R: Wait>(
    rt: &R,
    alloc: Global,
    hall: &Hall<Kept, H>,
    intake: &Intake<Manners>,
    pass: &mut IntakePass<Manners>,
    seats: &mut Seats<H>,
    are_four: bool,
) -> Result<(), OutOfMemory>
    requires own { pass.old.intake ≡ intake.now }
    requires parts { pass.old.parts ≡ all_parts }
    requires seats { All (λ seat. seat.intake_pass.intake ≡ intake.now) seats.old.items }
    ensures own { pass.new.intake ≡ intake.now }
    ensures seats { OnOk result (All (λ seat. seat.intake_pass.intake ≡ intake.now) seats.new.items) }
{
    add_two(rt, alloc, hall, intake, pass, seats)?;
    if !are_four {
        return Ok(());
    }
    add_two(rt, alloc, hall, intake, pass, seats)
}

/// Seats for two workers, or for four.
pub fn seats_for<H: Origin, R: Wait>(
    rt: &R,
    alloc: Global,
    hall: &Hall<Kept, H>,
    intake: &Intake<Manners>,
    pass: &mut IntakePass<Manners>,
    are_four: bool,
) -> Result<Seats<H>, OutOfMemory>
    requires own { pass.old.intake ≡ intake.now }
    requires parts { pass.old.parts ≡ all_parts }
    ensures own { pass.new.intake ≡ intake.now }
    ensures seats { IfOk result (λ seats. All (λ seat. seat.intake_pass.intake ≡ intake.now) seats.items) }
{
    let mut seats = Vec::new(alloc);
    add_workers(rt, alloc, hall, intake, pass, &mut seats, are_four)?;
    Ok(seats)
}

/// Adds the passes of these workers. Whether each has had its back.
pub fn add_passes<H: Origin>(seats: Seats<H>, passes: &mut Vec<Pass<Kept, H>>) -> bool {
    let mut are_added = true;
    for seat in seats {
        if !add_pass(seat, passes) {
            are_added = false;
        }
    }
    are_added
}

fn add_pass<H: Origin>(
    seat: WorkerSlot<Pass<Kept, H>, Manners, MemoryPost>,
    passes: &mut Vec<Pass<Kept, H>>,
) -> bool {
    let WorkerSlot { pass, .. } = seat;
    match pass {
        Some(pass) => passes.push(pass).is_ok(),
        None => false,
    }
}
