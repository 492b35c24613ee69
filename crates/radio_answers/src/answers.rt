//! The answers of the server, each appended whole or not at all.

ghost use Rattle.std.specs.Prelude.{◌≡◌, ◌≤◌, ◌++◌, IfSome, OnOk, OnErr};
ghost use Rattle.radio_heads.specs.Additions.{with_additions};
ghost use Rattle.radio_heads.specs.Answer.{answer_text, continue_text};
ghost use Rattle.radio_heads.specs.WebAnswer.{web_answer_text};
ghost use Rattle.radio_answers.specs.Answers.{about_told, denial, head_text, sent_interval, text_if};
ghost use Rattle.radio_answers.specs.WebAnswers.{answered_by};

use crate::{OutOfMemory, WebAnswers};
use radio_events::StreamHead;
use radio_heads::{
    AboutHeaders, Additions, Answer, FieldValue, WebAnswer, Welcome, add_headers, write_answer,
    write_web_answer,
};
use radio_policy::Rule;
use radio_values::{About, AllowedOrigin, Field};
use std::alloc::Global;

/// Appends an answer's text, as the settings say. `OutOfMemory` if memory was refused; nothing was appended then.
pub fn append_answer(
    alloc: Global,
    web: WebAnswers,
    answer: &Answer,
    out: &mut Vec<u8>,
) -> Result<(), OutOfMemory>
    ensures ok { OnOk result (out.new.items ≡ out.old.items ++ answered_by web (answer_text answer.now)) }
    ensures err { OnErr result (out.new.items ≡ out.old.items) }
{
    let text = write_answer(alloc, answer)?;
    let whole = add_headers(alloc, web.additions(), text)?;
    out.extend_from_slice(whole.as_slice())
}

/// Appends the answer that names the rule, or nothing if the rule has no status. `OutOfMemory` if memory was refused;
/// nothing was appended then.
pub fn append_denial(
    alloc: Global,
    web: WebAnswers,
    rule: Rule,
    out: &mut Vec<u8>,
) -> Result<(), OutOfMemory>
    ensures ok { OnOk result (out.new.items ≡ out.old.items ++ denial web rule) }
    ensures err { OnErr result (out.new.items ≡ out.old.items) }
{
    let Some(status) = rule.status() else {
        return Ok(());
    };
    let answer = Answer::Denial {
        status,
        rule: rule.word(),
    };
    append_answer(alloc, web, &answer, out)
}

/// Appends that a source may send its body (RFC 9110, section 15.2.1); the settings add nothing to it. `OutOfMemory`
/// if memory was refused; nothing was appended then.
pub fn append_continue(alloc: Global, out: &mut Vec<u8>) -> Result<(), OutOfMemory>
    ensures ok { OnOk result (out.new.items ≡ out.old.items ++ continue_text) }
    ensures err { OnErr result (out.new.items ≡ out.old.items) }
{
    let text = write_answer(alloc, &Answer::Continue)?;
    out.extend_from_slice(text.as_slice())
}

/// Appends the head that an admitted listener gets, with metadata blocks at this interval, in bytes of data.
/// `OutOfMemory` if memory was refused; nothing was appended then.
// rule: Icecast heads
#[tactic(auto, using(crate::proofs::FieldLemmas::shown_is_field_text))]
pub fn append_stream_head(
    alloc: Global,
    web: WebAnswers,
    interval: Option<u32>,
    head: &StreamHead,
    out: &mut Vec<u8>,
) -> Result<(), OutOfMemory>
    ensures ok { OnOk result (out.new.items ≡ out.old.items ++ head_text web interval head.now) }
    ensures err { OnErr result (out.new.items ≡ out.old.items) }
{
    let shown = &head.shown;
    let answer = WebAnswer::Stream(Welcome {
        content_type: FieldValue::new(shown.content_type.as_bytes()),
        name: FieldValue::new(shown.name.as_bytes()),
        genre: FieldValue::new(shown.genre.as_bytes()),
        about: about_told(web, &shown.about),
        interval: metadata_interval(interval),
    });
    let additions = web.stream_additions(shown.content_type.as_bytes());
    append_shared(alloc, additions, &answer, &head.allow_origin, out)
}

/// Returns what the head of a stream has of what else it says of itself: nothing, unless the settings ask for it.
fn about_told(web: WebAnswers, about: &About) -> AboutHeaders<'_>
    ensures { result ≡ about_told web about.now }
{
    AboutHeaders {
        description: value_if(web.icecast_heads, &about.description),
        url: value_if(web.icecast_heads, &about.url),
        bitrate: value_if(web.icecast_heads, &about.bitrate),
    }
}

/// Returns the field as the value of a header, or an empty one.
#[tactic(auto, using(crate::proofs::FieldLemmas::shown_is_field_text))]
fn value_if(shows: bool, field: &Field) -> FieldValue<'_>
    ensures { result ≡ text_if shows field.now }
{
    if shows {
        FieldValue::new(field.as_bytes())
    } else {
        FieldValue::new(b"")
    }
}

/// Returns after how many bytes of data a metadata block is sent, if any is (ICY convention). An interval of none has
/// no blocks.
pub fn metadata_interval(interval: Option<u32>) -> Option<u32>
    ensures told { result ≡ sent_interval interval }
    ensures some { IfSome result (λ n. 1 ≤ n) }
{
    match interval {
        None => None,
        Some(0) => None,
        Some(n) => Some(n),
    }
}

/// Appends an answer that the pages of web sites may read, of this origin if there is one, with these headers in addition.
/// `OutOfMemory` if memory was refused; nothing was appended then.
pub(crate) fn append_shared(
    alloc: Global,
    additions: Additions,
    answer: &WebAnswer,
    allow_origin: &Option<AllowedOrigin>,
    out: &mut Vec<u8>,
) -> Result<(), OutOfMemory>
    ensures ok { OnOk result (out.new.items ≡ out.old.items ++ with_additions additions (web_answer_text allow_origin.now answer.now)) }
    ensures err { OnErr result (out.new.items ≡ out.old.items) }
{
    let text = write_web_answer(alloc, answer, &origin_value(allow_origin))?;
    let whole = add_headers(alloc, additions, text)?;
    out.extend_from_slice(whole.as_slice())
}

/// The origin whose pages may read an answer, as its header has it.
#[tactic(auto, using(crate::proofs::FieldLemmas::visible_is_field_text))]
fn origin_value(allow_origin: &Option<AllowedOrigin>) -> Option<FieldValue<'_>>
    ensures { result ≡ allow_origin.now }
{
    match allow_origin {
        Some(origin) => Some(FieldValue::new(origin.as_bytes())),
        None => None,
    }
}
