//! Connections to masters, over lines: the pull of a relay, and the list of streams for a slave.
//!
//! - [`MountPull`]: a relay's connection. [`MountPull::turn`] writes its request, reads once, and has what came applied
//!   as events.
//! - [`ListPull`]: a slave's connection. [`ListPull::turn`] writes its request and reads once, until the list is whole.
//! - [`read_list_answer`]: the list in a master's answer.
//! - [`keep_first`]: how much of a list is relayed; [`ListLog`] says when that is not all of it.
//! - [`in_turn`]: which relays may be tried now, of those that wait for a place.
//! - [`RelayServer`]: a server, as a relay asks it, and what the log says of that ([`RelayLog`], [`RelayEnd`]);
//!   [`note_failure`] decides when a failure is logged.
//!
//! It opens no connection, knows no clock, and waits for nothing.
#![tactic(auto)]

mod asked;
mod asking;
mod failing;
mod list_answer;
mod list_log;
mod list_pull;
mod listed;
mod mount_pull;
mod relay_course;
mod relay_end;
mod relay_log;
mod turns;

pub use asked::RelayServer;
pub use failing::{Failing, LOGGED_AGAIN_MS, note_failure};
pub use list_answer::{MAX_LIST, MasterListFault, read_list_answer};
pub use list_log::ListLog;
pub use list_pull::ListPull;
pub use listed::{MOST_LISTED, keep_first};
pub use mount_pull::{MountPull, PullTurn};
pub use relay_end::RelayEnd;
pub use relay_log::{PullEnd, RelayLog};
pub use turns::{WaitingRelay, in_turn};

/// What a call answers if memory was refused.
pub type OutOfMemory = std::alloc::AllocError;
