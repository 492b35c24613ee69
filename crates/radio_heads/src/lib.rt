//! Heads of HTTP/1 requests and answers, read and written exactly.
//!
//! A head is a start line, header lines and an empty line (RFC 9112, section 2.1). Reading borrows
//! the bytes that have come and allocates nothing; a caller keeps those bytes and reads again when
//! more have come.
//!
//! - [`read_request`], [`read_response`]: the head that some bytes begin with, and its length.
//! - [`read_request_from`], [`read_response_from`]: the same, where it is known how many of the
//!   first bytes hold no end of a head.
//! - [`write_answer`]: the text of each answer that the server gives. Its headers have values from outside as
//!   [`FieldValue`]s, which hold no line end.
//! - [`write_web_answer`]: the text of each answer that the pages of web sites read.
//! - [`add_headers`]: the text of an answer with the headers that the settings add to it.
//!
//! Laws for callers, which run no code:
//!
//! - [`readings_agree`]: two readings of the same bytes are equal, or both are faults.
//! - [`settled`]: once a reading is not `More`, more bytes change nothing.
//! - [`fronts_are_unfinished`]: what gives `More` gave `More` before its last bytes came.
//! - [`heads_are_found`]: no head of the grammar is lost.
//! - [`answers_read_back`], [`web_answers_read_back`], [`additions_read_back`]: what is written is read back.
//! - [`unsaid_origins_change_nothing`]: answers for web sites are the others', where nothing is said of origins.
#![tactic(auto)]

mod additions;
mod answer;
mod field_value;
mod head;
mod headers;
mod laws;
mod outcome;
mod reading;
mod response;
mod search;
mod web_answer;
mod writing;

pub use additions::{Additions, add_headers};
pub use answer::{AboutHeaders, Answer, TextKind, Welcome};
pub use field_value::FieldValue;
pub use head::Head;
pub use headers::{DEFAULT_CONTENT_TYPE, MAX_HEADERS};
pub use laws::{
    additions_read_back, answers_read_back, fronts_are_unfinished, heads_are_found,
    heads_lie_within, readings_agree, settled, unsaid_origins_change_nothing,
    web_answers_read_back,
};
pub use outcome::{HeadFault, Progress};
pub use reading::{read_request, read_request_from, read_response, read_response_from};
pub use response::{ResponseHead, Version};
pub use search::MAX_HEAD;
pub use web_answer::{WebAnswer, write_web_answer};
pub use writing::write_answer;

/// No memory was left.
pub type OutOfMemory = std::alloc::AllocError;
