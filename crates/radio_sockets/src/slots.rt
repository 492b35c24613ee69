//! The workers' slots, before they begin.

ghost use Rattle.std.specs.Prelude.{◌≡◌, ◌+◌, ◌-◌, ◌≤◌, ◌<◌, All, IfOk, IfSome, OnOk, take, vec_len};
ghost use Rattle.radio_workers.specs.Passes.{all_parts};

use crate::listening_socket::Accepted;
use crate::socket_turns::SocketTurns;
use crate::{OutOfMemory, ServeFault};
use radio_board::{Shared, WorkerDesk};
use radio_events::SharedServer;
use radio_lines::{Network, Sockets};
use radio_workers::{Intake, IntakePass, WorkerSlot, add_slot};
use std::alloc::Global;
use std::sync::Wait;
use std::time::Clock;

/// How many workers there are at most.
const MOST_WORKERS: u32 = 64;

/// Returns the sockets and the desks of so many workers. A worker is left out if the system reports nothing of its
/// sockets; `Accept` if all are.
pub fn open_desks<N: Network>(
    net: &N,
    alloc: Global,
    workers: u32,
) -> Result<(Vec<Sockets>, Vec<WorkerDesk>), ServeFault>
    ensures pairs { IfOk result (λ opened. vec_len opened.0 ≡ vec_len opened.1) }
    ensures some { IfOk result (λ opened. 0 < vec_len opened.1) }
{
    let mut sockets = Vec::new(alloc);
    let mut desks = Vec::new(alloc);
    'workers: for _ in 0..workers {
        if add_desk(net, alloc, &mut sockets, &mut desks).is_err() {
            return Err(ServeFault::OutOfMemory);
        }
    }
    if desks.is_empty() {
        return Err(ServeFault::Accept);
    }
    Ok((sockets, desks))
}

/// Adds the sockets and the desk of one more worker, if the system reports its sockets. `OutOfMemory` if memory was
/// refused.
fn add_desk<N: Network>(
    net: &N,
    alloc: Global,
    sockets: &mut Vec<Sockets>,
    desks: &mut Vec<WorkerDesk>,
) -> Result<(), OutOfMemory>
    requires { vec_len sockets.old ≡ vec_len desks.old }
    ensures { OnOk result (vec_len sockets.new ≡ vec_len desks.new) }
{
    if let Ok((own, waker)) = Sockets::new(net, alloc)? {
        sockets.push(own)?;
        desks.push(WorkerDesk::new(waker))?;
    }
    Ok(())
}

/// Returns slots for the workers with these sockets, over this server, or `OutOfMemory` if memory was refused.
pub fn slots_of<'a, R: Clock + Wait, S: SharedServer>(
    rt: &'a R,
    server: &S,
    shared: &'a Shared,
    intake: &Intake<Accepted>,
    pass: &mut IntakePass<Accepted>,
    sockets: &mut Vec<Sockets>,
) -> Result<Vec<WorkerSlot<S::Pass, Accepted, SocketTurns<'a, R>>>, OutOfMemory>
    requires own { pass.old.intake ≡ intake.now }
    requires parts { all_parts ≤ pass.old.parts + 1 }
    ensures own { pass.new.intake ≡ intake.now }
    ensures slots { IfOk result (λ slots. All (λ slot. slot.intake_pass.intake ≡ intake.now) slots.items) }
{
    let mut slots = Vec::new(shared.alloc());
    fill_slots(rt, server, shared, intake, pass, sockets, &mut slots)?;
    Ok(slots)
}

/// Adds those slots.
fn fill_slots<'a, R: Clock + Wait, S: SharedServer>(
    rt: &'a R,
    server: &S,
    shared: &'a Shared,
    intake: &Intake<Accepted>,
    pass: &mut IntakePass<Accepted>,
    sockets: &mut Vec<Sockets>,
    slots: &mut Vec<WorkerSlot<S::Pass, Accepted, SocketTurns<'a, R>>>,
) -> Result<(), OutOfMemory>
    requires own { pass.old.intake ≡ intake.now }
    requires parts { all_parts ≤ pass.old.parts + 1 }
    requires slots { All (λ slot. slot.intake_pass.intake ≡ intake.now) slots.old.items }
    ensures own { pass.new.intake ≡ intake.now }
    ensures slots { OnOk result (All (λ slot. slot.intake_pass.intake ≡ intake.now) slots.new.items) }
{
    'slots: for taken in 0..MOST_WORKERS {
        let Some(turn_source) = next_turn_source(rt, shared, sockets) else {
            return Ok(());
        };
        add_slot(slots, intake, pass, server.pass(rt), turn_source)?;
    }
    Ok(())
}

/// The turn source of the worker with the last of these sockets, if there are any.
fn next_turn_source<'a, R: Clock + Wait>(
    rt: &'a R,
    shared: &'a Shared,
    sockets: &mut Vec<Sockets>,
) -> Option<SocketTurns<'a, R>>
    ensures number { IfSome result (λ turn_source. turn_source.number ≡ vec_len sockets.new) }
    ensures rest { sockets.new.items ≡ take (vec_len sockets.old - 1) sockets.old.items }
{
    let own = sockets.pop()?;
    let number = sockets.len();
    let desk = shared.desk(number)?;
    Some(SocketTurns::new(rt, shared, desk, number, own))
}
