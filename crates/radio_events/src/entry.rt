//! What a history is made of.

use crate::{Event, Reply};

/// One event, and what the server replied.
#[derive(Drop)]
pub struct Entry {
    /// What happened.
    pub event: Event,
    /// What the server replied.
    pub reply: Reply,
}
