//! Lists of what happened, which are stored or not.
//!
//! - [`Chronicle`]: whether entries are stored, [`Kept`] or [`Unkept`].
//! - [`Notes`]: the list that stores them; [`Stamp`]: a place in such a list; [`ControlLine`]: a line of the control's.
//! - [`step_twice_here`], [`twice`]: what a mount's part does by itself, and events, for those who note them: each reply and
//!   event is there as often as it is needed.
//! - [`histories_add_up`]: what a history counts up to.
//! - [`Origin`]: which server a list belongs to; only contracts speak of it.
#![tactic(auto)]

mod chronicle;
mod copies;
mod laws;
mod line;
mod notes;
mod origin;
mod own_steps;
mod stamp;

pub use chronicle::{Chronicle, Kept, Unkept};
pub use copies::twice;
pub use laws::histories_add_up;
pub use line::ControlLine;
pub use notes::Notes;
pub use origin::Origin;
pub use own_steps::{Twice, is_own, items_here, step_here, step_twice_here};
pub use radio_events::Entry;
pub use stamp::Stamp;

/// The error of a call if memory was refused. Nothing has changed then.
pub type OutOfMemory = std::alloc::AllocError;
