//! One listener at one mount.

/// A listener that is attached to a mount.
#[derive(Clone, Copy)]
pub struct Attachment {
    /// The listener's number.
    pub id: u64,
    /// The place up to which it has heard the mount's stream, in bytes.
    pub place: u64,
}
