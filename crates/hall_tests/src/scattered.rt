//! Calls as dice have them, by several threads at once: they settle.

use radio_events::{Event, SharedServer};
use std::alloc::Global;
use std::sync::Wait;
use std::thread::{Threads, for_each_mut};
use test_calls::{Callee, number_given, scatter};

/// A caller of a server that threads share.
#[derive(Drop)]
struct Sharing<'a, R: Wait, S: SharedServer> {
    rt: &'a R,
    server: &'a S,
    pass: &'a mut S::Pass,
}

impl<R: Wait, S: SharedServer> Callee for Sharing<'_, R, S> {
    fn call(&mut self, event: Event) -> Option<u64> {
        match self.server.apply(self.rt, self.pass, event) {
            Ok(reply) => {
                let number = number_given(&reply);
                drop(reply);
                Some(number)
            }
            Err(_) => None,
        }
    }
}

/// How many calls each thread makes.
const CALLS: u64 = 1500;

fn scatter_by<R: Wait, S: SharedServer>(
    rt: &R,
    alloc: Global,
    server: &S,
    pass: &mut S::Pass,
    seed: u64,
) {
    let mut caller = Sharing { rt, server, pass };
    let _ = scatter(alloc, &mut caller, seed, CALLS);
}

/// With what the dice of this thread begin.
fn seed_of(number: usize, sets_fallbacks: bool) -> u64 {
    let seed = number as u64;
    if sets_fallbacks && number == 0 {
        7
    } else {
        seed.saturating_mul(2)
    }
}

/// A thread for each of the passes makes its calls; of one of them commands set fallbacks too, if that is so.
pub fn scatter_together<R, S>(
    rt: &R,
    alloc: Global,
    server: &S,
    passes: &mut [S::Pass],
    sets_fallbacks: bool,
)
where
    R: Threads + Wait + Sync,
    S: SharedServer + Sync,
    S::Pass: Send,
{
    let count = passes.len();
    if count == 0 {
        return;
    }
    for_each_mut(
        rt,
        passes,
        count,
        &|number, pass| scatter_by(rt, alloc, server, pass, seed_of(number, sets_fallbacks)),
    );
}
