//! The listeners that are attached to a mount, and how far each has heard its stream.
//!
//! - [`Attachment`]: one listener at one mount.
//! - [`AttachmentTree`]: the attachments of a mount, found by the listener's number.
//! - [`BoxedAttachment`]: an attachment with its memory, which moves it from one tree to another
//!   without an allocation.
//! - [`PlaceVisit`], [`AttachmentTest`]: what reads attachments in their places.
#![tactic(auto)]

mod attachment;
mod branch;
mod tree;
mod visit;

pub use attachment::Attachment;
pub use branch::BoxedAttachment;
pub use tree::AttachmentTree;
pub use visit::{AttachmentTest, PlaceVisit};

/// What a call returns if memory was refused. Nothing has changed then.
pub type OutOfMemory = std::alloc::AllocError;
