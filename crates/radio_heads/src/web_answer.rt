//! Answers that the pages of web sites read, and their texts.
ghost use Rattle.std.specs.Prelude.{◌≡◌, [], ◌++◌, codes, IfOk, OnOk};
ghost use Rattle.radio_heads.specs.Answer.{content_type, header_line, line};
ghost use Rattle.radio_heads.specs.FieldValue.{IsFieldText};
ghost use Rattle.radio_heads.specs.WebAnswer.{origin_line, page_start, page_text, shared_text, stream_head_text, stream_start, text_start, web_answer_text, HasWebFieldTexts, IsCleanOrigin};
ghost use Rattle.radio_heads.specs.Laws.{IsCleanWelcome};

use crate::OutOfMemory;
use crate::answer::{TextKind, Welcome};
use crate::field_value::FieldValue;
use crate::writing::{
    end_no_line, push_end, push_header, push_interval, push_number, push_status, push_stream,
    push_value,
};
use http::StatusCode;
use std::alloc::Global;

/// An answer that the script of a page may read, where `Access-Control-Allow-Origin` names the page's origin (the Fetch
/// standard, section 3.3.3). Its texts are written as they are; no value of a header can hold a line end, by its type.
#[derive(Drop)]
pub enum WebAnswer<'a> {
    /// A listener is admitted (200), and the stream's bytes follow.
    Stream(Welcome<'a>),
    /// A text that everybody may read (200), whose body is of that kind.
    Text {
        kind: TextKind,
        body: &'a [u8],
    },
    /// A page of HTML in UTF-8 (200), for which a browser allows what its policy allows (Content Security Policy,
    /// level 3).
    Page {
        policy: FieldValue<'a>,
        body: &'a [u8],
    },
}

/// The text of such an answer, byte for byte, with its body where it has one. Whose pages may read it is said where a value
/// is given; without one a stream and a text are those of [`write_answer`](crate::write_answer).
///
/// The only error is `OutOfMemory`.
// rule: Allow origin; Answers are read back
pub fn write_web_answer(
    alloc: Global,
    answer: &WebAnswer,
    allow_origin: &Option<FieldValue>,
) -> Result<Vec<u8>, OutOfMemory>
    ensures text { IfOk result (λ text. text.items ≡ web_answer_text allow_origin.now answer.now) }
    // no value from outside, in any answer that can be made, ends a header's line
    ensures one_line { HasWebFieldTexts answer.now }
    ensures origin { IsCleanOrigin allow_origin.now }
{
    origin_ends_no_line(allow_origin);
    match answer {
        WebAnswer::Stream(welcome) => write_stream(alloc, welcome, allow_origin),
        WebAnswer::Text { kind, body } => write_shared(alloc, *kind, body, allow_origin),
        WebAnswer::Page { policy, body } => {
            ends_no_line(policy);
            write_page(alloc, policy, body, allow_origin)
        }
    }
}

/// Whose pages may read it ends no line.
fn origin_ends_no_line(allow_origin: &Option<FieldValue>)
    ensures { IsCleanOrigin allow_origin.now }
{
    if let Some(origin) = allow_origin {
        ends_no_line(origin);
    }
}

/// The value ends no line: it says what its type holds, and does nothing.
fn ends_no_line(value: &FieldValue)
    ensures { IsFieldText value.now }
{
    let _value = value.as_bytes();
}

pub(crate) fn write_stream(
    alloc: Global,
    welcome: &Welcome,
    allow_origin: &Option<FieldValue>,
) -> Result<Vec<u8>, OutOfMemory>
    ensures text { IfOk result (λ text. text.items ≡ stream_head_text allow_origin.now welcome.now) }
    ensures one_line { IsCleanWelcome welcome.now }
{
    end_no_line(welcome);
    let mut text = start_stream(alloc, welcome)?;
    push_origin_and_end(&mut text, allow_origin)?;
    Ok(text)
}

fn start_stream(alloc: Global, welcome: &Welcome) -> Result<Vec<u8>, OutOfMemory>
    ensures { IfOk result (λ text. text.items ≡ stream_start welcome.now) }
{
    let mut text = Vec::new(alloc);
    push_status(alloc, &mut text, "HTTP/1.0", StatusCode::OK)?;
    push_stream(&mut text, welcome)?;
    push_interval(alloc, &mut text, welcome.interval)?;
    Ok(text)
}

fn write_shared(
    alloc: Global,
    kind: TextKind,
    body: &[u8],
    allow_origin: &Option<FieldValue>,
) -> Result<Vec<u8>, OutOfMemory>
    ensures { IfOk result (λ text. text.items ≡ shared_text allow_origin.now (content_type kind) body.now) }
{
    let mut text = start_text(alloc, kind.content_type(), body.len())?;
    push_origin_and_end(&mut text, allow_origin)?;
    text.extend_from_slice(body)?;
    Ok(text)
}

fn write_page(
    alloc: Global,
    policy: &FieldValue,
    body: &[u8],
    allow_origin: &Option<FieldValue>,
) -> Result<Vec<u8>, OutOfMemory>
    ensures { IfOk result (λ text. text.items ≡ page_text allow_origin.now policy.now body.now) }
{
    let mut text = start_page(alloc, policy, body.len())?;
    push_origin_and_end(&mut text, allow_origin)?;
    text.extend_from_slice(body)?;
    Ok(text)
}

fn start_page(alloc: Global, policy: &FieldValue, size: usize) -> Result<Vec<u8>, OutOfMemory>
    ensures { IfOk result (λ text. text.items ≡ page_start policy.now size) }
{
    let mut text = start_text(alloc, b"text/html; charset=utf-8", size)?;
    push_value(&mut text, "Content-Security-Policy", policy)?;
    Ok(text)
}

fn start_text(alloc: Global, content_type: &[u8], size: usize) -> Result<Vec<u8>, OutOfMemory>
    ensures { IfOk result (λ text. text.items ≡ text_start content_type.now size) }
{
    let mut text = Vec::new(alloc);
    push_status(alloc, &mut text, "HTTP/1.0", StatusCode::OK)?;
    push_header(&mut text, "Content-Type", content_type)?;
    push_number(alloc, &mut text, "Content-Length", size)?;
    Ok(text)
}

/// Whose pages may read it, where that is said, the last header, and the empty line.
fn push_origin_and_end(
    text: &mut Vec<u8>,
    allow_origin: &Option<FieldValue>,
) -> Result<(), OutOfMemory>
    ensures { OnOk result (text.new.items
        ≡ text.old.items ++ origin_line allow_origin.now ++ header_line (codes "Connection") (codes "close") ++ line []) }
{
    push_origin(text, allow_origin)?;
    push_end(text)
}

fn push_origin(text: &mut Vec<u8>, allow_origin: &Option<FieldValue>) -> Result<(), OutOfMemory>
    ensures { OnOk result (text.new.items ≡ text.old.items ++ origin_line allow_origin.now) }
{
    match allow_origin {
        Some(origin) => push_value(text, "Access-Control-Allow-Origin", origin),
        None => Ok(()),
    }
}
