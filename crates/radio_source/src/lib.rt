//! The bodies in which sources send their data, however they are cut into pieces.
//!
//! A [`Body`] is plain, sized or chunked (RFC 9112, sections 6 and 7.1). Each piece that comes is fed to it, and it
//! answers with [`Blocks`]: the data of that piece, and whether the body's end came in it; or with a [`BodyFault`].
//!
//! - [`laws`] says what is true of all bodies: that cuts do not matter, and what the data of each kind are. The
//!   chunked bodies of the standard's grammar are read as the data of their chunks.
#![tactic(auto)]

mod body;
mod chunk_line;
mod fault;
pub mod laws;
mod position;

pub use body::{Blocks, Body};
pub use fault::BodyFault;
pub use position::{MAX_CHUNK_LINE, MAX_TRAILERS};

/// No memory was left.
pub type OutOfMemory = std::alloc::AllocError;
