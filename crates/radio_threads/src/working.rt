//! The threads of a server: who accepts, who works, and who keeps relays running.

ghost use Rattle.std.specs.Prelude.{◌≡◌, ◌+◌, ◌≤◌, ◌<◌, ℕ, All, length, slice_index_or};
ghost use Rattle.radio_workers.specs.Passes.{all_parts};
ghost use Rattle.radio_workers.specs.TakenConnections.{HasTakenMore};

use crate::ServeFault;
use crate::listening::ServedStation;
use mio::net::TcpStream;
use radio_events::SharedServer;
use radio_lines::{Network, SocketLine, Sockets};
use radio_pullers::{has_relays, keep_relays};
use radio_serving::OpenGate;
use radio_sockets::{Accepted, Acceptor, SocketTurns, slots_of};
use radio_workers::{Intake, IntakePass, WorkerSlot, Workplace, run_workers};
use std::sync::Wait;
use std::thread::{Threads, join_mut};
use std::time::Clock;

/// The acceptor puts connections into this intake by its pass, and workers with these sockets take them out by theirs,
/// until all stop. Its fault, and whether there was memory for the workers' slots.
pub(crate) fn work_together<R, N, S>(
    station: &ServedStation<'_, R, N, S>,
    intake: &Intake<Accepted>,
    intake_pass: &mut IntakePass<Accepted>,
    pass: &mut IntakePass<Accepted>,
    sockets: &mut Vec<Sockets>,
    acceptor: &mut Acceptor,
) -> (ServeFault, bool)
where
    R: Clock + Threads + Wait + Sync,
    N: Network + Sync,
    S: SharedServer + Sync,
    S::Pass: Send,
    requires intake_pass { intake_pass.old.intake ≡ intake.now }
    requires own { pass.old.intake ≡ intake.now }
    requires parts { all_parts ≤ pass.old.parts + 1 }
    ensures intake_pass { intake_pass.new.intake ≡ intake.now }
    ensures own { pass.new.intake ≡ intake.now }
{
    join_mut(
        station.rt,
        &mut || -> ServeFault
            requires { intake_pass.now.intake ≡ intake.now }
            ensures { intake_pass.exit.now.intake ≡ intake.entry.now }
        { accept(station, intake, intake_pass, acceptor) },
        &mut || -> bool
            requires { (pass.now.intake ≡ intake.now) × (all_parts ≤ pass.now.parts + 1) }
            ensures { pass.exit.now.intake ≡ intake.entry.now }
        { work_with(station, intake, pass, sockets) },
    )
}

/// The acceptor puts connections into this intake by its pass, until all stop. Its fault.
fn accept<R, N, S>(
    station: &ServedStation<'_, R, N, S>,
    intake: &Intake<Accepted>,
    intake_pass: &mut IntakePass<Accepted>,
    acceptor: &mut Acceptor,
) -> ServeFault
where
    R: Clock + Wait,
    N: Network,
    requires { intake_pass.old.intake ≡ intake.now }
    ensures { intake_pass.new.intake ≡ intake.now }
{
    acceptor.work(station.rt, station.shared, intake, intake_pass)
}

/// Runs the workers with these sockets until all are to stop. Returns whether there was memory for their slots: if not,
/// nothing runs, and all are to stop.
fn work_with<R, N, S>(
    station: &ServedStation<'_, R, N, S>,
    intake: &Intake<Accepted>,
    pass: &mut IntakePass<Accepted>,
    sockets: &mut Vec<Sockets>,
) -> bool
where
    R: Clock + Threads + Wait + Sync,
    N: Network + Sync,
    S: SharedServer + Sync,
    S::Pass: Send,
    requires own { pass.old.intake ≡ intake.now }
    requires parts { all_parts ≤ pass.old.parts + 1 }
    ensures { pass.new.intake ≡ intake.now }
{
    match slots_of(
        station.rt,
        station.server,
        station.shared,
        intake,
        pass,
        sockets,
    ) {
        Ok(mut slots) => {
            run_beside_relays(station, intake, slots.as_mut_slice());
            true
        }
        Err(_) => {
            station.shared.stop();
            false
        }
    }
}

/// Runs workers at these slots until all are to stop, and keeps relays running meanwhile, if the settings wish some.
fn run_beside_relays<R, N, S>(
    station: &ServedStation<'_, R, N, S>,
    intake: &Intake<Accepted>,
    slots: &mut [WorkerSlot<S::Pass, Accepted, SocketTurns<'_, R>>],
)
where
    R: Clock + Threads + Wait + Sync,
    N: Network + Sync,
    S: SharedServer + Sync,
    S::Pass: Send,
    requires { All (λ slot. slot.intake_pass.intake ≡ intake.now) slots.old }
    // the note of each goes on from before with what was taken at its slot
    ensures { (i : ℕ) (d : _) → i < length slots.old → HasTakenMore (slice_index_or slots.old i d).intake_pass (slice_index_or slots.new i d).intake_pass }
{
    if !has_relays(station.settings) {
        return run_at(station, intake, slots);
    }
    join_mut(
        station.rt,
        &mut || {
            keep_relays(
                station.rt,
                station.net,
                station.server,
                station.shared,
                station.settings,
            )
        },
        &mut ||
            requires { All (λ slot. slot.intake_pass.intake ≡ intake.now) slots.now }
            ensures { (i : ℕ) (d : _) → i < length slots.entry.now
                → HasTakenMore (slice_index_or slots.entry.now i d).intake_pass (slice_index_or slots.exit.now i d).intake_pass }
        { run_at(station, intake, slots) },
    );
}

/// Workers at these slots work, until all are to stop.
fn run_at<R, N, S>(
    station: &ServedStation<'_, R, N, S>,
    intake: &Intake<Accepted>,
    slots: &mut [WorkerSlot<S::Pass, Accepted, SocketTurns<'_, R>>],
)
where
    R: Clock + Threads + Wait + Sync,
    N: Network + Sync,
    S: SharedServer + Sync,
    S::Pass: Send,
    requires { All (λ slot. slot.intake_pass.intake ≡ intake.now) slots.old }
    // the note of each goes on from before with what was taken at its slot
    ensures { (i : ℕ) (d : _) → i < length slots.old → HasTakenMore (slice_index_or slots.old i d).intake_pass (slice_index_or slots.new i d).intake_pass }
{
    let place = Workplace {
        server: station.server,
        intake,
        gate: &OpenGate,
        web: station.service.web,
        log_polls: station.service.log_polls,
        patience_s: station.service.patience_s,
        turns: u64::MAX,
    };
    run_workers::<R, S, Accepted, SocketLine<TcpStream>, SocketTurns<'_, R>, OpenGate>(
        station.rt,
        station.shared.alloc(),
        &place,
        slots,
    );
}
