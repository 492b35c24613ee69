//! Where a head ends: at the first empty line after the first byte of text.
ghost use Rattle.std.specs.Prelude.{◌≡◌, ℕ, ◌+◌, ◌<◌, ◌≤◌, length, take, slice_index, position, IfSome, IfNone};
ghost use Rattle.httparse.specs.Ascii.{line_feed};
ghost use Rattle.radio_heads.specs.Search.{IsEmptyLine, IsHeadEnd, HasNoEnd, is_text};

/// The longest head that is read, in bytes.
pub const MAX_HEAD: usize = 8192;

/// Where the first head of `bytes` ends, given that the first `seen` bytes hold no end of a head.
///
/// It looks at the empty lines that come before any text, and then at the bytes from two before
/// `seen` on: an end that is new takes in at least one byte past `seen`.
pub(crate) fn head_end(bytes: &[u8], seen: usize) -> Option<usize>
    requires in_range { seen ≤ length bytes.now }
    requires searched { HasNoEnd (take seen bytes.now) }
    ensures end { IfSome result (IsHeadEnd bytes.now) }
    ensures within { IfSome result (λ end. end ≤ length bytes.now) }
    ensures none { IfNone result (HasNoEnd bytes.now) }
{
    let text = first_text(bytes)?;
    for place in (text + 1).max(seen.saturating_sub(2))..bytes.len() {
        if let Some(end) = end_at(bytes, place) {
            return Some(end);
        }
    }
    None
}

/// The place of the first byte that is neither CR nor LF.
fn first_text(bytes: &[u8]) -> Option<usize>
    ensures { result ≡ position is_text bytes.now }
{
    bytes.iter().position(|b| *b != b'\r' && *b != b'\n')
}

/// Where the empty line ends that follows an LF at `place`.
fn end_at(bytes: &[u8], place: usize) -> Option<usize>
    requires { place < length bytes.now }
    ensures found { IfSome result (λ end. (slice_index bytes.now place ≡ line_feed)
        × IsEmptyLine bytes.now (place + 1) end) }
    ensures within { IfSome result (λ end. end ≤ length bytes.now) }
    ensures none { IfNone result ((end : ℕ) → slice_index bytes.now place ≡ line_feed
        → ¬ (IsEmptyLine bytes.now (place + 1) end)) }
{
    match &bytes[place..] {
        [b'\n', b'\n', ..] => Some(place + 2),
        [b'\n', b'\r', b'\n', ..] => Some(place + 3),
        _ => None,
    }
}
