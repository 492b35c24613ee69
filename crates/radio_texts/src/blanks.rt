//! Blanks at the ends of a text.
ghost use Rattle.std.specs.Prelude.{◌≡◌, ◌+◌, ◌≤◌, length};
ghost use Rattle.std.specs.List.{prefix_len, suffix_len};
ghost use Rattle.radio_texts.specs.Blanks.{is_blank, without_blanks};

/// A text without the spaces and tabs at its two ends.
#[tactic(auto, unfolding(crate::specs::Blanks::without_blanks))]
pub fn without_blanks(text: &[u8]) -> &[u8]
    ensures { result.now ≡ without_blanks text.now }
{
    let (_, rest) = text.split_at(blanks_in_front(text));
    let (front, _) = rest.split_at(len_without_blanks(rest));
    front
}

fn blanks_in_front(text: &[u8]) -> usize
    ensures value { result ≡ prefix_len is_blank text.now }
    ensures fits { result ≤ length text.now }
{
    let mut n = 0;
    while n < text.len() && is_blank(text[n]) {
        n += 1;
    }
    n
}

fn len_without_blanks(text: &[u8]) -> usize
    ensures { result + suffix_len is_blank text.now ≡ length text.now }
{
    let mut n = text.len();
    while n > 0 && is_blank(text[n - 1]) {
        n -= 1;
    }
    n
}

fn is_blank(b: u8) -> bool
    ensures { result ≡ is_blank b }
{
    b == b' ' || b == b'\t'
}
