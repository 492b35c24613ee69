//! The texts of the answers.
ghost use Rattle.std.specs.Prelude.{◌≡◌, [], ◌++◌, codes, decimal, length, IfOk, OnOk};
ghost use Rattle.radio_heads.specs.Answer.{about_lines, answer_text, line, header_line, shown_line, interval_line, challenge_line, status_line};
ghost use Rattle.radio_heads.specs.Answer.{listener_text, sized_head, sized_text, denial_text, content_type, status_number};
ghost use Rattle.radio_heads.specs.Laws.{HasFieldTexts, IsCleanAbout, IsCleanWelcome};

use crate::OutOfMemory;
use crate::answer::{AboutHeaders, Answer, TextKind, Welcome};
use crate::field_value::FieldValue;
use crate::web_answer::write_stream;
use http::StatusCode;
use radio_policy::Status;
use std::alloc::Global;

/// The text of an answer, byte for byte, with its body where it has one.
///
/// The only error is `OutOfMemory`.
// rule: Answers are read back
#[tactic(auto, using(crate::proofs::WebLemmas::stream_unsaid))]
pub fn write_answer(alloc: Global, answer: &Answer) -> Result<Vec<u8>, OutOfMemory>
    ensures text { IfOk result (λ text. text.items ≡ answer_text answer.now) }
    // no value from outside, in any answer that can be made, ends a header's line
    ensures one_line { HasFieldTexts answer.now }
{
    match answer {
        Answer::Listener(welcome) => write_stream(alloc, welcome, &None),
        Answer::Source => write_bare(alloc, "HTTP/1.0", StatusCode::OK),
        Answer::Continue => write_bare(alloc, "HTTP/1.1", StatusCode::CONTINUE),
        Answer::Denial { status, rule } => write_denial(alloc, *status, rule),
        Answer::Text { kind, body } => write_sized(alloc, StatusCode::OK, *kind, body),
    }
}

/// No value of it ends a line: it says what the types of the values hold, and does nothing.
pub(crate) fn end_no_line(welcome: &Welcome)
    ensures { IsCleanWelcome welcome.now }
{
    let _type = welcome.content_type.as_bytes();
    let _name = welcome.name.as_bytes();
    let _genre = welcome.genre.as_bytes();
    about_ends_no_line(&welcome.about);
}

fn about_ends_no_line(about: &AboutHeaders)
    ensures { IsCleanAbout about.now }
{
    let _description = about.description.as_bytes();
    let _url = about.url.as_bytes();
    let _bitrate = about.bitrate.as_bytes();
}

/// Adds the headers about the stream.
pub(crate) fn push_stream(text: &mut Vec<u8>, welcome: &Welcome) -> Result<(), OutOfMemory>
    ensures { OnOk result (text.new.items ≡ text.old.items
        ++ header_line (codes "Content-Type") welcome.now.content_type
        ++ shown_line (codes "icy-name") welcome.now.name
        ++ shown_line (codes "icy-genre") welcome.now.genre
        ++ about_lines welcome.now.about) }
{
    push_value(text, "Content-Type", &welcome.content_type)?;
    push_shown(text, "icy-name", &welcome.name)?;
    push_shown(text, "icy-genre", &welcome.genre)?;
    push_about(text, &welcome.about)
}

/// The headers of what else it says of itself.
fn push_about(text: &mut Vec<u8>, about: &AboutHeaders) -> Result<(), OutOfMemory>
    ensures { OnOk result (text.new.items ≡ text.old.items ++ about_lines about.now) }
{
    push_shown(text, "icy-description", &about.description)?;
    push_shown(text, "icy-url", &about.url)?;
    push_shown(text, "icy-br", &about.bitrate)
}

/// The last header, and the empty line.
pub(crate) fn push_end(text: &mut Vec<u8>) -> Result<(), OutOfMemory>
    ensures { OnOk result (text.new.items
        ≡ text.old.items ++ header_line (codes "Connection") (codes "close") ++ line []) }
{
    push_header(text, "Connection", b"close")?;
    push_line(text, b"")
}

fn write_bare(alloc: Global, version: &str, status: StatusCode) -> Result<Vec<u8>, OutOfMemory>
    ensures { IfOk result (λ text. text.items ≡ status_line version.now status ++ line []) }
{
    let mut text = Vec::new(alloc);
    push_status(alloc, &mut text, version, status)?;
    push_line(&mut text, b"")?;
    Ok(text)
}

fn write_denial(alloc: Global, status: Status, rule: &str) -> Result<Vec<u8>, OutOfMemory>
    ensures { IfOk result (λ text. text.items ≡ denial_text status rule.now) }
{
    let body = format!(in alloc; "denied: {rule}\n")?;
    let code = status_code(status);
    write_sized(alloc, code, TextKind::Plain, body.as_bytes())
}

fn status_code(status: Status) -> StatusCode
    ensures { result ≡ status_number status }
{
    match status {
        Status::BadRequest => StatusCode::BAD_REQUEST,
        Status::Unauthorized => StatusCode::UNAUTHORIZED,
        Status::Forbidden => StatusCode::FORBIDDEN,
        Status::NotFound => StatusCode::NOT_FOUND,
    }
}

fn write_sized(
    alloc: Global,
    status: StatusCode,
    kind: TextKind,
    body: &[u8],
) -> Result<Vec<u8>, OutOfMemory>
    ensures { IfOk result (λ text. text.items ≡ sized_text status (content_type kind) body.now) }
{
    let mut text = write_sized_head(alloc, status, kind, body.len())?;
    text.extend_from_slice(body)?;
    Ok(text)
}

fn write_sized_head(
    alloc: Global,
    status: StatusCode,
    kind: TextKind,
    size: usize,
) -> Result<Vec<u8>, OutOfMemory>
    ensures { IfOk result (λ text. text.items ≡ sized_head status (content_type kind) size) }
{
    let mut text = Vec::new(alloc);
    push_status(alloc, &mut text, "HTTP/1.0", status)?;
    push_header(&mut text, "Content-Type", kind.content_type())?;
    push_number(alloc, &mut text, "Content-Length", size)?;
    push_challenge(&mut text, status)?;
    push_end(&mut text)?;
    Ok(text)
}

#[tactic(auto, unfolding(crate::specs::Answer::status_line))]
pub(crate) fn push_status(
    alloc: Global,
    text: &mut Vec<u8>,
    version: &str,
    status: StatusCode,
) -> Result<(), OutOfMemory>
    ensures { OnOk result (text.new.items ≡ text.old.items ++ status_line version.now status) }
{
    text.extend_from_slice(version.as_bytes())?;
    text.extend_from_slice(b" ")?;
    push_line(text, status.to_string(alloc)?.as_bytes())
}

/// Adds a header if its value is not empty.
fn push_shown(text: &mut Vec<u8>, name: &str, value: &FieldValue) -> Result<(), OutOfMemory>
    ensures { OnOk result (text.new.items ≡ text.old.items ++ shown_line name.now value.now) }
{
    if value.as_bytes().is_empty() {
        return Ok(());
    }
    push_value(text, name, value)
}

/// A header whose value comes from outside.
pub(crate) fn push_value(
    text: &mut Vec<u8>,
    name: &str,
    value: &FieldValue,
) -> Result<(), OutOfMemory>
    ensures { OnOk result (text.new.items ≡ text.old.items ++ header_line name.now value.now) }
{
    push_header(text, name, value.as_bytes())
}

pub(crate) fn push_interval(
    alloc: Global,
    text: &mut Vec<u8>,
    interval: Option<u32>,
) -> Result<(), OutOfMemory>
    ensures { OnOk result (text.new.items ≡ text.old.items ++ interval_line interval) }
{
    match interval {
        Some(bytes) => push_number(alloc, text, "icy-metaint", bytes as usize),
        None => Ok(()),
    }
}

fn push_challenge(text: &mut Vec<u8>, status: StatusCode) -> Result<(), OutOfMemory>
    ensures { OnOk result (text.new.items ≡ text.old.items ++ challenge_line status) }
{
    if status.as_u16() == 401 {
        return push_header(text, "WWW-Authenticate", b"Basic realm=\"radio\"");
    }
    Ok(())
}

pub(crate) fn push_number(
    alloc: Global,
    text: &mut Vec<u8>,
    name: &str,
    value: usize,
) -> Result<(), OutOfMemory>
    ensures { OnOk result (text.new.items ≡ text.old.items ++ header_line name.now (decimal value)) }
{
    push_header(text, name, value.to_string(alloc)?.as_bytes())
}

pub(crate) fn push_header(text: &mut Vec<u8>, name: &str, value: &[u8]) -> Result<(), OutOfMemory>
    ensures { OnOk result (text.new.items ≡ text.old.items ++ header_line name.now value.now) }
{
    text.extend_from_slice(name.as_bytes())?;
    text.extend_from_slice(b": ")?;
    push_line(text, value)
}

fn push_line(text: &mut Vec<u8>, content: &[u8]) -> Result<(), OutOfMemory>
    ensures { OnOk result (text.new.items ≡ text.old.items ++ line content.now) }
{
    text.extend_from_slice(content)?;
    text.extend_from_slice(b"\r\n")
}
