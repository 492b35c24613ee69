//! What the head of a master's answer says of the stream behind it.
ghost use Rattle.std.specs.Prelude.{◌≡◌, ◌≤◌, IfOk, IfSome};
ghost use Rattle.radio_texts.specs.Numbers.{number_of};
ghost use Rattle.radio_relay.specs.Answer.{about_in_response, interval_in, interval_of, max_interval, named_in_response, shown_in_response, response_value_or};

use crate::{OutOfMemory, PullFault};
use radio_heads::{DEFAULT_CONTENT_TYPE, ResponseHead};
use radio_texts::read_number;
use radio_values::{About, Shown};
use std::alloc::Global;

/// The longest metadata interval that a master may name, in bytes.
pub const MAX_INTERVAL: u64 = 16_777_216;

/// Returns how many bytes of sound lie between two metadata blocks (ICY convention, `icy-metaint`). `None` if the
/// stream has no metadata. The error is the first fault of the head.
pub fn interval_in(head: &ResponseHead) -> Result<Option<usize>, PullFault>
    ensures value { result ≡ interval_in head.now }
    ensures some { IfOk result (λ interval. IfSome interval (λ n. 1 ≤ n)) }
{
    let status = head.status();
    if status != 200 {
        return Err(PullFault::Status(status));
    }
    if head.value("Transfer-Encoding").is_some() {
        return Err(PullFault::BadHead);
    }
    match head.value("icy-metaint") {
        Some(text) => interval_of(text),
        None => Ok(None),
    }
}

fn interval_of(text: &[u8]) -> Result<Option<usize>, PullFault>
    ensures value { result ≡ interval_of (number_of 10 max_interval text.now) }
    ensures some { IfOk result (λ interval. IfSome interval (λ n. 1 ≤ n)) }
{
    match read_number(text, 10, MAX_INTERVAL) {
        Some(n) if n > 0 => Ok(Some(n as usize)),
        _ => Err(PullFault::BadMetaint),
    }
}

/// What the head shows of the stream, cleaned. `OutOfMemory` if memory was refused.
pub fn shown_by(alloc: Global, head: &ResponseHead) -> Result<Shown, OutOfMemory>
    ensures { IfOk result (λ shown. shown ≡ shown_in_response head.now) }
{
    let shown = named_by(alloc, head)?;
    Ok(shown.with_about(about_by(alloc, head)?))
}

/// Its type, name and genre, cleaned. `OutOfMemory` if memory was refused.
fn named_by(alloc: Global, head: &ResponseHead) -> Result<Shown, OutOfMemory>
    ensures { IfOk result (λ shown. shown ≡ named_in_response head.now) }
{
    let content_type = value_or(DEFAULT_CONTENT_TYPE, "Content-Type", head);
    let name = value_or(b"", "icy-name", head);
    let genre = value_or(b"", "icy-genre", head);
    Shown::clean(alloc, content_type, name, genre)
}

/// What else it shows of the stream, cleaned. `OutOfMemory` if memory was refused.
fn about_by(alloc: Global, head: &ResponseHead) -> Result<About, OutOfMemory>
    ensures { IfOk result (λ about. about ≡ about_in_response head.now) }
{
    let description = value_or(b"", "icy-description", head);
    let url = value_or(b"", "icy-url", head);
    let bitrate = value_or(b"", "icy-br", head);
    About::clean(alloc, description, url, bitrate, b"")
}

/// The value of a header, or the other if there is no such header; an empty value is one.
fn value_or<'b>(other: &'static [u8], name: &str, head: &ResponseHead<'b>) -> &'b [u8]
    ensures { result.now ≡ response_value_or other.now name.now head.now }
{
    match head.value(name) {
        Some(value) => value,
        None => other,
    }
}
