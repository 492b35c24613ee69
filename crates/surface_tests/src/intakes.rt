//! The queue of new connections, and when connections are accepted. A connection is a number here.

ghost use Rattle.std.specs.Prelude.{◌≡◌, ⊤};
ghost use Rattle.radio_hall.specs.Words.{all_parts};

use radio_hall::{AcceptResult, AcceptTry, Accepts, Entrance, Intake, IntakePass, accept_next};
use std::alloc::{AllocGlobal, Global};
use std::sync::Wait;

/// Whether a connection is put through one pass and taken through another, and none is left.
fn is_handed_on<R: Wait>(rt: &R, intake: &Intake<u64>, pass: &mut IntakePass<u64>) -> bool
    requires { (pass.old.intake ≡ intake.now) × (pass.old.parts ≡ all_parts) }
{
    let mut other = intake.split(pass);
    let is_put = intake.put(rt, &mut other, 7).is_ok();
    let is_taken = intake.take(rt, pass) == Some(7);
    intake.join(pass, other);
    is_put && is_taken && intake.take(rt, pass).is_none()
}

/// Whether the one that is put is counted.
fn is_counted<R: Wait>(rt: &R, intake: &Intake<u64>, pass: &mut IntakePass<u64>) -> bool
    requires { (pass.old.intake ≡ intake.now) × (pass.old.parts ≡ all_parts) }
{
    let is_put = intake.put(rt, pass, 8).is_ok();
    is_put && intake.tally(rt, pass) == 1
}

fn is_used<R: Wait>(rt: &R, alloc: Global) -> bool {
    match Intake::new(alloc) {
        Ok((intake, mut pass)) => is_handed_on(rt, &intake, &mut pass),
        Err(_) => false,
    }
}

fn is_tallied<R: Wait>(rt: &R, alloc: Global) -> bool {
    match Intake::new(alloc) {
        Ok((intake, mut pass)) => is_counted(rt, &intake, &mut pass),
        Err(_) => false,
    }
}

#[test]
fn connections_that_wait(rt: HostRuntime) {
    assert!(rt; is_used(&rt, rt.alloc()));
    assert!(rt; is_tallied(&rt, rt.alloc()));
}

/// An entrance through which one connection comes.
#[derive(Drop)]
struct One;

impl Entrance<u64> for One {
    ghost accepts = { λ _ _ _. ⊤ };

    fn accept(&mut self) -> AcceptResult<u64> {
        AcceptResult::One(9)
    }
}

/// Notes so many failures in a row. Whether the acceptor goes on after each of them.
fn fails(accepts: &mut Accepts, times: u64) -> bool {
    for _ in 0..times {
        if !accepts.note(AcceptTry::Failed, 0) {
            return false;
        }
    }
    true
}

/// 99 failures, a connection, 99 failures: it goes on. One more: it does not.
#[test]
fn failures_in_a_row(rt: HostRuntime) {
    let mut accepts = Accepts::new();
    assert!(rt; fails(&mut accepts, 99));
    assert!(rt; accepts.note(AcceptTry::Accepted, 0));
    assert!(rt; matches!(accept_next(&mut One, &mut accepts, 1000), Ok(Some(9))));
    assert!(rt; fails(&mut accepts, 99));
    assert!(rt; !accepts.note(AcceptTry::Failed, 0));
}
