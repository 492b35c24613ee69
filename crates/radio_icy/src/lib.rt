//! ICY metadata: titles woven into a stream of sound, and taken out of it.
//!
//! A stream with metadata has a *block* after each *interval* of sound, whose bytes the header `icy-metaint` counts.
//! A block is one length byte n and 16 n bytes: the text `StreamTitle='T';` of the title T, and zero bytes that fill
//! its last 16. Where there is nothing new to say, n is 0.
//!
//! - [`Weaver`] puts a stream's titles into its sound, for one listener.
//! - [`Unweaver`] takes sound and texts out of such a stream, as [`Item`]s, however the stream is cut.
//! - [`title_of`] finds the title in a block's text.
//! - A [`Title`], and what makes texts from outside fit to be sent, are those of `radio_values`.
//! - [`laws`] says what is true of all streams, and of their texts.
#![tactic(auto)]

mod block;
mod items;
pub mod laws;
mod texts;
mod title;
mod unweaver;
mod weaver;

pub use items::Item;
pub use radio_values::{MAX_FIELD, MAX_TITLE, Title, clean_field, clean_title};
pub use title::title_of;
pub use unweaver::Unweaver;
pub use weaver::Weaver;

/// The error of each call that takes memory: there was none.
pub type OutOfMemory = std::alloc::AllocError;
