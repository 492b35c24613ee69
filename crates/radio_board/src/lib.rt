//! What the threads of a station share.
//!
//! - [`Shared`]: each worker's [`WorkerDesk`], the moment up to which all have read, how fast sources are read, whether all stop,
//!   and the queue of the log. [`Limits`] bounds it.
//! - [`WorkerState`]: what a worker does, as others see it; [`Step`]: what changes it. [`no_news_is_lost`], [`rounds_are_spaced`],
//!   [`ends_wait_for_listeners`], [`newcomers_are_served`]: laws, which run no code.
//! - [`NewsPause`]: when a worker draws for its listeners; [`NewsFor`]: for whose. [`rest_for`]: how a worker waits ([`IdleWait`]).
//! - [`ServedTime`]: a clock that counts what was served. [`is_served`]: whether a worker makes turns. [`least_loaded`]: which
//!   worker takes a newcomer.
//!
//! What is shared is shared by reference, in atomics and under the log's lock: no clause says what another thread has
//! reported.
#![tactic(auto)]

mod choice;
mod idle_wait;
mod laws;
mod marks;
mod news;
mod pace;
mod report;
mod served;
mod shared;
mod sums;
mod worker_desk;
mod worker_state;

pub use choice::{Chosen, least_loaded};
pub use idle_wait::{IdleWait, MOST_REST_MS, rest_for};
pub use laws::{ends_wait_for_listeners, newcomers_are_served, no_news_is_lost, rounds_are_spaced};
pub use marks::{Mark, Marks};
pub use news::{NewsFor, NewsPause};
pub use report::{Report, TurnDone};
pub use served::{ServedTime, is_served};
pub use shared::{Limits, NewsCounts, Shared};
pub use worker_desk::{NotedMoment, WorkerDesk};
pub use worker_state::{Step, WorkerState};

/// What a call answers if memory was refused.
pub type OutOfMemory = std::alloc::AllocError;
