//! Lines of the log that the program itself writes.

ghost use Rattle.std.specs.Prelude.{◌≡◌, ℕ, IfOk, IfSome, List, Option, Some, length};
ghost use Rattle.std.specs.String.{string_bytes};
ghost use Rattle.radio_startup.specs.Sayings.{HasFact, start_fact};
ghost use Rattle.radio_startup.specs.Warnings.{warnings_of};

use crate::OutOfMemory;
use crate::limits::limit_named;
use crate::warnings::warnings_of;
use radio_log::{Fact, Moment, Note, QuotedText, line};
use radio_review::UnknownKey;
use radio_settings_values::Settings;
use std::alloc::{AllocGlobal, Global};
use std::fmt::Display;
use std::fs::Files;
use std::time::Clock;

/// The version of the program (Semantic Versioning 2.0.0). It is written here alone: `--version`, the log's first line
/// and the packages that scripts make read it.
pub const VERSION: &str = "0.9.0";

/// The name of the limit of descriptors (Linux, `proc(5)`).
const LINE_OF_DESCRIPTORS: &str = "Max open files";

/// Takes the log's lines that the program itself writes.
pub trait Notices {
    /// Adds the line of a fact to the log. If memory is refused, there is none.
    fn add(&self, fact: Fact<'_>);
}

/// A line of the log and its moment.
#[derive(Drop)]
pub struct Dated {
    /// The line, with its LF.
    pub line: Vec<u8>,
    /// The moment, in seconds after the beginning of 1970.
    pub seconds: u64,
}

/// Returns the line of a fact, of this moment; `None` if memory is refused.
pub fn line_now<R: Clock + AllocGlobal>(rt: &R, fact: Fact<'_>) -> Option<Dated>
    ensures { IfSome result (λ dated. HasFact fact.entry dated) }
{
    let seconds = seconds_now(rt);
    let note = Note {
        moment: Moment::at(seconds),
        fact,
    };
    match line(rt.alloc(), &note) {
        Ok(line) => Some(Dated { line, seconds }),
        Err(_) => None,
    }
}

/// Returns this moment; `None` if the clock does not know it.
pub fn moment_now<R: Clock>(rt: &R) -> Option<Moment> {
    match rt.since_1970() {
        Ok(since) => Some(Moment::at(since.as_secs())),
        Err(_) => None,
    }
}

/// Returns how many seconds have passed since 1970; 0 if the clock does not know.
fn seconds_now<R: Clock>(rt: &R) -> u64 {
    match rt.since_1970() {
        Ok(since) => since.as_secs(),
        Err(_) => 0,
    }
}

/// Logs that the program listens at this address.
pub fn log_start<N: Notices>(notices: &N, address: &str) {
    notices.add(started(VERSION, address));
}

/// The program of this version listens at this address.
fn started<'a>(version: &'a str, address: &'a str) -> Fact<'a>
    ensures { result ≡ start_fact version.now address.now }
{
    Fact::Started {
        version: QuotedText::of(version.as_bytes()),
        address: QuotedText::of(address.as_bytes()),
    }
}

/// Adds a line to the log for each warning of these settings, and of keys of them that are passed over. Returns how many there
/// are. `OutOfMemory` if memory is refused for them: then there is no line.
pub fn warn<R: Files + AllocGlobal, N: Notices>(
    rt: &R,
    notices: &N,
    settings: &Settings,
    unknown: &[UnknownKey],
) -> Result<usize, OutOfMemory>
    // as many as there are by how many descriptors the system allows
    ensures { IfOk result (λ count. (descriptors : Option ℕ) × (count ≡ length (warnings_of settings.now unknown.now descriptors))) }
{
    let descriptors = limit_named(rt, LINE_OF_DESCRIPTORS);
    let warnings = warnings_of(rt.alloc(), settings, unknown, descriptors)?;
    let count = warnings.len();
    for warning in warnings {
        notices.add(Fact::Warning(warning));
    }
    Ok(count)
}

/// Returns the text of this; `None` if memory is refused.
pub fn words_of<T: Display>(alloc: Global, said: &T) -> Option<String>
    ensures { (text : List ℕ) → T.output said.now ≡ Some text → IfSome result (λ words. string_bytes words ≡ text) }
{
    match format!(in alloc; "{said}") {
        Ok(words) => Some(words),
        Err(_) => None,
    }
}
