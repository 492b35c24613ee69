//! The answers to commands, and to clients that ask what is on air.

ghost use Rattle.std.specs.Prelude.{◌≡◌, ◌++◌, OnOk, OnErr};
ghost use Rattle.radio_heads.specs.Answer.{sized_text, content_type};
ghost use Rattle.radio_heads.specs.WebAnswer.{shared_text};
ghost use Rattle.radio_heads.specs.declared.answer.TextKind.{TextKind};
ghost use Rattle.radio_answers.specs.Page.{page_answer};
ghost use Rattle.radio_answers.specs.Answers.{count_line, text_answer};
ghost use Rattle.radio_answers.specs.WebAnswers.{answered_by};

use crate::answers::{append_answer, append_shared};
use crate::{OutOfMemory, WebAnswers, page};
use radio_events::ReplyText;
use radio_heads::{Answer, TextKind, WebAnswer};
use radio_values::AllowedOrigin;
use std::alloc::Global;

/// Appends the answer to a command or a listing. `OutOfMemory` if memory was refused; nothing was appended then.
pub fn append_text(
    alloc: Global,
    web: WebAnswers,
    text: &ReplyText,
    out: &mut Vec<u8>,
) -> Result<(), OutOfMemory>
    ensures ok { OnOk result (out.new.items ≡ out.old.items ++ text_answer web text.now) }
    ensures err { OnErr result (out.new.items ≡ out.old.items) }
{
    match text {
        ReplyText::Done => append_body(alloc, web, TextKind::Plain, b"done\n", out),
        ReplyText::Moved(count) => append_count(alloc, web, "moved", *count, out),
        ReplyText::Ended(count) => append_count(alloc, web, "ended", *count, out),
        ReplyText::Json(bytes) => append_body(alloc, web, TextKind::Json, bytes.as_slice(), out),
        ReplyText::Streams(bytes) => append_body(
            alloc,
            web,
            TextKind::Plain,
            bytes.as_slice(),
            out,
        ),
        ReplyText::Public {
            bytes,
            allow_origin,
        } => append_status(alloc, web, bytes.as_slice(), allow_origin, out),
        ReplyText::Page { allow_origin } => append_page(alloc, web, allow_origin, out),
    }
}

/// Appends what everybody may see of the station.
fn append_status(
    alloc: Global,
    web: WebAnswers,
    body: &[u8],
    allow_origin: &Option<AllowedOrigin>,
    out: &mut Vec<u8>,
) -> Result<(), OutOfMemory>
    ensures ok { OnOk result (out.new.items ≡ out.old.items ++ answered_by web (shared_text allow_origin.now (content_type TextKind.Json) body.now)) }
    ensures err { OnErr result (out.new.items ≡ out.old.items) }
{
    let kind = TextKind::Json;
    let answer = WebAnswer::Text { kind, body };
    append_shared(alloc, web.additions(), &answer, allow_origin, out)
}

/// Appends the page of what is on air.
fn append_page(
    alloc: Global,
    web: WebAnswers,
    allow_origin: &Option<AllowedOrigin>,
    out: &mut Vec<u8>,
) -> Result<(), OutOfMemory>
    ensures ok { OnOk result (out.new.items ≡ out.old.items ++ answered_by web (page_answer allow_origin.now)) }
    ensures err { OnErr result (out.new.items ≡ out.old.items) }
{
    append_shared(alloc, web.additions(), &page(), allow_origin, out)
}

/// Appends a line of what was done to listeners, and to how many.
fn append_count(
    alloc: Global,
    web: WebAnswers,
    done: &str,
    count: u64,
    out: &mut Vec<u8>,
) -> Result<(), OutOfMemory>
    ensures ok { OnOk result (out.new.items ≡ out.old.items ++ answered_by web (sized_text 200 (content_type TextKind.Plain) (count_line done.now count))) }
    ensures err { OnErr result (out.new.items ≡ out.old.items) }
{
    let line = format!(in alloc; "{done}: {count}\n")?;
    append_body(alloc, web, TextKind::Plain, line.as_bytes(), out)
}

/// Appends an answer with this body.
fn append_body(
    alloc: Global,
    web: WebAnswers,
    kind: TextKind,
    body: &[u8],
    out: &mut Vec<u8>,
) -> Result<(), OutOfMemory>
    ensures ok { OnOk result (out.new.items ≡ out.old.items ++ answered_by web (sized_text 200 (content_type kind) body.now)) }
    ensures err { OnErr result (out.new.items ≡ out.old.items) }
{
    append_answer(alloc, web, &Answer::Text { kind, body }, out)
}
