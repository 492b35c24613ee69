//! What a worker has found is found once.

use radio_events::{Event, Reply, SharedServer};
use radio_serving::{Found, OutOfMemory, Server, Take, Watched};
use radio_values::MountName;
use std::alloc::Global;
use std::sync::Wait;

/// A server that has noted everything.
#[derive(Drop)]
struct Noting {
    alloc: Global,
}

impl SharedServer for Noting {
    type Pass = ();

    ghost steps = { λ from event reply to. Unit {0} };

    ghost refuses = { λ from event. Unit {0} };

    fn pass<R: Wait>(&self, _rt: &R) -> Option<()> {
        Some(())
    }

    fn apply<R: Wait>(&self, _rt: &R, _pass: &mut (), event: Event) -> Result<Reply, OutOfMemory> {
        drop(event);
        Ok(Reply::Noted)
    }

    fn last_mount<R: Wait>(&self, _rt: &R, _id: u64) -> Option<MountName> {
        None
    }

    fn wanted<R: Wait>(&self, _rt: &R) -> Result<Vec<MountName>, OutOfMemory> {
        Ok(Vec::new(self.alloc))
    }
}

/// What is found of the end of a source, when this is taken first; and what is found then.
fn found_twice<R: Wait>(rt: &R, alloc: Global, take: Take) -> Option<(Found, Found)> {
    let noting = Noting { alloc };
    let mut watched = Watched::new(alloc, rt, &noting, ());
    match watched.apply(Event::SourceEnd { id: 1 }) {
        Ok(reply) => {
            drop(reply);
            let first = watched.take_found(take);
            Some((first, watched.take_found(Take::All)))
        }
        Err(_) => None,
    }
}

/// Whether there is news the first time, and none the second.
fn is_found_once<R: Wait>(rt: &R, alloc: Global, take: Take) -> bool {
    match found_twice(rt, alloc, take) {
        Some((first, second)) => first.has_news && !second.has_news,
        None => false,
    }
}

#[test]
fn what_is_taken_is_gone(rt: HostRuntime) {
    assert!(rt; is_found_once(&rt, rt.alloc(), Take::News));
    assert!(rt; is_found_once(&rt, rt.alloc(), Take::All));
}
