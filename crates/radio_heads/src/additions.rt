//! Headers that the settings add to answers.
ghost use Rattle.std.specs.Prelude.{◌≡◌, ◌≤◌, ◌==◌, ◌++◌, List, ℕ, drop, length, position, take, IfOk, OnOk};
ghost use Rattle.radio_heads.specs.Additions.{added_lines, behind_first_line, cache_lines, sandbox_lines, with_additions};

use crate::OutOfMemory;
use crate::writing::push_header;
use std::alloc::Global;

/// Which headers an answer has in addition.
#[derive(Clone, Copy, Debug, PartialEq, Eq)]
pub struct Additions {
    /// `Cache-Control: no-cache, no-store`: no cache keeps it (RFC 9111, sections 5.2.2.4 and 5.2.2.5).
    pub forbids_caching: bool,
    /// `Content-Security-Policy: sandbox` and `X-Content-Type-Options: nosniff`: a browser runs nothing of it, and takes it
    /// for nothing but what its type says (Content Security Policy, level 3; the Fetch standard, section 3.6).
    pub is_sandboxed: bool,
}

/// Returns an answer's text with these headers behind its status line. Without any the text is as it was.
///
/// The only error is `OutOfMemory`.
#[tactic(auto, using(crate::proofs::AdditionLemmas::behind_none))]
pub fn add_headers(
    alloc: Global,
    additions: Additions,
    text: Vec<u8>,
) -> Result<Vec<u8>, OutOfMemory>
    ensures { IfOk result (λ whole. whole.items ≡ with_additions additions text.items) }
{
    if !additions.forbids_caching && !additions.is_sandboxed {
        return Ok(text);
    }
    written_with(alloc, additions, text.as_slice())
}

fn written_with(alloc: Global, additions: Additions, text: &[u8]) -> Result<Vec<u8>, OutOfMemory>
    ensures { IfOk result (λ whole. whole.items ≡ with_additions additions text.now) }
{
    let end = first_line(text);
    let mut whole = Vec::new(alloc);
    whole.extend_from_slice(&text[..end])?;
    push_additions(&mut whole, additions)?;
    whole.extend_from_slice(&text[end..])?;
    Ok(whole)
}

/// How many bytes the first line has, with its end.
#[tactic(auto, using(crate::proofs::AdditionLemmas::behind_found, crate::proofs::AdditionLemmas::behind_missing))]
fn first_line(text: &[u8]) -> usize
    ensures within { result ≤ length text.now }
    ensures behind { (lines : List ℕ) → behind_first_line lines text.now ≡ take result text.now ++ lines ++ drop result text.now }
{
    match line_feed(text) {
        Some(place) => place + 1,
        None => text.len(),
    }
}

fn line_feed(text: &[u8]) -> Option<usize>
    ensures { result ≡ position (λ byte. byte == 10) text.now }
{
    text.iter().position(|byte| *byte == b'\n')
}

fn push_additions(text: &mut Vec<u8>, additions: Additions) -> Result<(), OutOfMemory>
    ensures { OnOk result (text.new.items ≡ text.old.items ++ added_lines additions) }
{
    push_cache(text, additions.forbids_caching)?;
    push_sandbox(text, additions.is_sandboxed)
}

fn push_cache(text: &mut Vec<u8>, forbids: bool) -> Result<(), OutOfMemory>
    ensures { OnOk result (text.new.items ≡ text.old.items ++ cache_lines forbids) }
{
    if !forbids {
        return Ok(());
    }
    push_header(text, "Cache-Control", b"no-cache, no-store")
}

fn push_sandbox(text: &mut Vec<u8>, sandboxed: bool) -> Result<(), OutOfMemory>
    ensures { OnOk result (text.new.items ≡ text.old.items ++ sandbox_lines sandboxed) }
{
    if !sandboxed {
        return Ok(());
    }
    push_header(text, "Content-Security-Policy", b"sandbox")?;
    push_header(text, "X-Content-Type-Options", b"nosniff")
}
