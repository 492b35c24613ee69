//! Intakes with ample memory, of one thread and of two. A line is a number here.

ghost use Rattle.std.specs.Prelude.{◌≡◌, ◌-◌};
ghost use Rattle.radio_workers.specs.Passes.{all_parts};

use radio_workers::{Intake, IntakePass, ROOM};
use std::alloc::Global;
use std::sync::Wait;
use std::thread::{Threads, join, yield_now};

/// More lines than an intake has room for.
const MANY: u64 = 5000;

// Puts lines from 0 on, until one is handed back: that one.
fn put_until_full<R: Wait>(rt: &R, intake: &Intake<u64>, pass: &mut IntakePass<u64>) -> Option<u64>
    requires { pass.old.intake ≡ intake.now }
    ensures { (pass.new.intake ≡ intake.now) × (pass.new.parts ≡ pass.old.parts) }
{
    for line in 0..MANY {
        if let Err(handed) = intake.put(rt, pass, line) {
            return Some(handed);
        }
    }
    None
}

// Takes lines, which are to come from 0 on, until none is left: how many came.
fn take_until_empty<R: Wait>(rt: &R, intake: &Intake<u64>, pass: &mut IntakePass<u64>) -> u64
    requires { pass.old.intake ≡ intake.now }
    ensures { (pass.new.intake ≡ intake.now) × (pass.new.parts ≡ pass.old.parts) }
{
    for line in 0..MANY {
        if intake.take(rt, pass) != Some(line) {
            return line;
        }
    }
    MANY
}

// Which line is handed back, how many are left then, how many come, and how many are left then.
fn fill_and_empty<R: Wait>(
    rt: &R,
    intake: &Intake<u64>,
    pass: &mut IntakePass<u64>,
) -> (Option<u64>, usize, u64, usize)
    requires { (pass.old.intake ≡ intake.now) × (pass.old.parts ≡ all_parts) }
{
    let handed = put_until_full(rt, intake, pass);
    let full = intake.tally(rt, pass);
    let came = take_until_empty(rt, intake, pass);
    (handed, full, came, intake.tally(rt, pass))
}

fn is_filled_and_emptied<R: Wait>(rt: &R, alloc: Global) -> bool {
    match Intake::new(alloc) {
        Ok((intake, mut pass)) => {
            fill_and_empty(rt, &intake, &mut pass) == (Some(1024), ROOM, 1024, 0)
        }
        Err(_) => false,
    }
}

#[test]
fn the_1025th_is_handed_back(rt: HostRuntime) {
    assert!(rt; is_filled_and_emptied(&rt, rt.alloc()));
}

// Puts many lines, and tries again where one is handed back.
fn put_many<R: Wait>(rt: &R, intake: &Intake<u64>, mut pass: IntakePass<u64>) -> IntakePass<u64>
    requires { pass.intake ≡ intake.now }
    ensures { (result.intake ≡ intake.now) × (result.parts ≡ pass.parts) }
{
    let mut line = 0;
    for _ in rt.forever() {
        if line >= MANY {
            break;
        }
        match intake.put(rt, &mut pass, line) {
            Ok(()) => line += 1,
            Err(_) => yield_now(),
        }
    }
    pass
}

// Takes as many lines, and tries again if there is none; their sum.
fn take_many<R: Wait>(
    rt: &R,
    intake: &Intake<u64>,
    mut pass: IntakePass<u64>,
) -> (IntakePass<u64>, u64)
    requires { pass.intake ≡ intake.now }
    ensures { (result.0.intake ≡ intake.now) × (result.0.parts ≡ pass.parts) }
{
    let mut count = 0;
    let mut sum = 0u64;
    for _ in rt.forever() {
        if count >= MANY {
            break;
        }
        match intake.take(rt, &mut pass) {
            Some(line) => {
                count += 1;
                sum = sum.wrapping_add(line);
            }
            None => yield_now(),
        }
    }
    (pass, sum)
}

// One thread puts, and another takes: the sum of what was taken, and how many are left then.
fn hand_over<R: Threads + Wait + Sync>(
    rt: &R,
    intake: &Intake<u64>,
    mut pass: IntakePass<u64>,
) -> (u64, usize)
    requires { (pass.intake ≡ intake.now) × (pass.parts ≡ all_parts) }
{
    let other = intake.split(&mut pass);
    let (mut pass, (other, sum)) = join(
        rt,
        move ||
            requires { (pass.intake ≡ intake.now) × (pass.parts ≡ all_parts - 1) }
            ensures { (result.intake ≡ intake.entry.now) × (result.parts ≡ all_parts - 1) }
        { put_many(rt, intake, pass) },
        move ||
            requires { (other.intake ≡ intake.now) × (other.parts ≡ 1) }
            ensures { (result.0.intake ≡ intake.entry.now) × (result.0.parts ≡ 1) }
        { take_many(rt, intake, other) },
    );
    intake.join(&mut pass, other);
    (sum, intake.tally(rt, &mut pass))
}

fn is_handed_over<R: Threads + Wait + Sync>(rt: &R, alloc: Global) -> bool {
    match Intake::new(alloc) {
        Ok((intake, pass)) => hand_over(rt, &intake, pass) == (12_497_500, 0),
        Err(_) => false,
    }
}

#[test]
fn from_thread_to_thread(rt: HostRuntime) {
    assert!(rt; is_handed_over(&rt, rt.alloc()));
}
