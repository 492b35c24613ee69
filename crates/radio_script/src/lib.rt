//! Plays scripts with any performer: the lines of a script are deliveries, and the result is a transcript. Read
//! [`play_with`] first.
//!
//! - Reading a line of a script: [`read_delivery`], and [`unescape`] for its bytes.
//! - Writing a line of a transcript: [`push_answer`], and [`push_escaped`] for its bytes.
//! - How large a script may be: [`MAX_LINES`], [`MAX_LINE`].
//! - Faults: [`PlayFault`] of a script, [`RunFault`] of a list of deliveries, [`PerformFault`] of one delivery.
//! - Devices that count their calls and their failures: [`Counted`], [`CountedRead`] and [`CountedWrite`].
//!   A [`Tally`] makes one of any reader or writer. A [`BufferedTally`] is a reader of which a byte costs little.
//! - Reading a line from any device: [`read_line`], and [`next_byte`] for one byte. Writing a whole text to one:
//!   [`write_whole`].
//! - Performing deliveries: [`Performer`].
//! - The loops over deliveries: [`play_with`], from a reader to a writer, and [`run_with`], over a
//!   list.
//! - Laws, which run no code: [`escapes_read_back`], [`texts_are_spelled`], [`transcripts_are_read_one_way`],
//!   [`scripts_have_one_transcript`] and [`transcripts_go_on_as_they_began`].
#![tactic(auto)]

mod buffered_tally;
mod delivery;
mod devices;
mod escapes;
mod faults;
mod laws;
mod limits;
mod line_laws;
mod performer;
mod playing;
mod reading;
mod running;
mod tally;
mod transcript_lines;
mod writing;

pub use buffered_tally::BufferedTally;
pub use delivery::{Delivery, Input, read_delivery};
pub use devices::{Counted, CountedRead, CountedWrite};
pub use escapes::{push_escaped, unescape};
pub use faults::{PerformFault, PlayFault, RunFault};
pub use laws::{scripts_have_one_transcript, transcripts_go_on_as_they_began};
pub use limits::{MAX_LINE, MAX_LINES};
pub use line_laws::{escapes_read_back, texts_are_spelled, transcripts_are_read_one_way};
pub use performer::Performer;
pub use playing::play_with;
pub use reading::{LineRead, next_byte, read_line};
pub use running::run_with;
pub use tally::Tally;
pub use transcript_lines::push_answer;
pub use writing::write_whole;

/// The error of a call if memory was refused.
pub type OutOfMemory = std::alloc::AllocError;
