//! What happens at a station, step by step.

use crate::memory_line::{Look, Manners};
use crate::station::{NO_MEDDLING, Station, make_station};
use radio_serving::Server;
use std::alloc::Global;

/// What happens at a station, or what is to be seen there.
#[derive(Clone, Copy)]
pub enum Step {
    /// A connection comes with a line of these manners, at this millisecond.
    Comes(Manners, u64),
    /// Turns with news: the first at this millisecond, each so many after the one before it, and so
    /// many.
    Turns(u64, u64, u64),
    /// The same without news.
    Quiet(u64, u64, u64),
    /// The connections are those of these clients, and no others.
    Clients(&'static [u64]),
    /// The line of the connection at this place shows that.
    Shows(usize, Look),
}

impl<S: Server + Drop> Station<S> {
    /// Takes each of the steps in turn. Returns whether all could be taken, and what is to be seen is seen.
    pub fn plays(&mut self, steps: &[Step]) -> bool {
        for step in steps {
            if !self.takes(*step) {
                return false;
            }
        }
        true
    }

    fn takes(&mut self, step: Step) -> bool {
        match step {
            Step::Comes(manners, ms) => self.comes(manners, ms),
            Step::Turns(from_ms, step_ms, count) => {
                self.turns(from_ms, step_ms, count, true);
                true
            }
            Step::Quiet(from_ms, step_ms, count) => {
                self.turns(from_ms, step_ms, count, false);
                true
            }
            Step::Clients(ids) => self.is_of(ids),
            Step::Shows(at, look) => self.shows(at, look),
        }
    }
}

/// Returns whether a station over a core of these settings plays these steps.
pub fn are_played(alloc: Global, more: &str, steps: &[Step]) -> bool {
    match make_station(alloc, more, NO_MEDDLING) {
        Ok(mut station) => {
            let played = station.plays(steps);
            drop(station);
            played
        }
        Err(_) => false,
    }
}
