//! The answers that the server writes to clients, in bytes, with what the settings add to each.
//!
//! - [`WebAnswers`]: what the settings say of answers, and of commands that browsers give.
//! - [`append_answer`]: an answer of the server as the settings say. [`append_text`]: that to a command or a listing.
//!   [`append_denial`]: that which names a rule. [`append_stream_head`]: what a listener reads before the stream.
//!   [`append_continue`]: that a source may send its body.
//! - [`metadata_interval`]: after how many bytes of data the stream has a metadata block.
//! - [`page`]: the page of what is on air, which a browser opens at `/`. [`POLICY`] is what a browser allows it.
//!
//! Each call appends the whole answer, or nothing if memory is refused.
#![tactic(auto)]

mod answers;
mod texts;
mod web_answers;
mod web_page;

pub use answers::{
    append_answer, append_continue, append_denial, append_stream_head, metadata_interval,
};
pub use texts::append_text;
pub use web_answers::WebAnswers;
pub use web_page::{PAGE, POLICY, page};

/// Memory was refused.
pub type OutOfMemory = std::alloc::AllocError;
