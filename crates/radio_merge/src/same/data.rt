//! Data in slices, compared however they are cut.

ghost use Rattle.std.specs.Prelude.{◌≡◌, ◌↔◌, [], ◌∷◌, ◌++◌, IsTrue, MatchOption};
ghost use Rattle.std.specs.List.{concat};

use bytes::Bytes;

/// Whether data in slices are the same bytes, however they are cut.
pub(crate) fn is_same_data(a: &[Bytes], b: &[Bytes]) -> bool
    ensures { IsTrue result ↔ concat a.now ≡ concat b.now }
{
    let mut first: &[u8] = &[];
    let mut firsts = a;
    let mut second: &[u8] = &[];
    let mut seconds = b;
    'bytes: while let Some((x, slice, slices)) = next_byte(first, firsts) {
        let Some((y, other, others)) = next_byte(second, seconds) else {
            return false;
        };
        if x != y {
            return false;
        }
        first = slice;
        firsts = slices;
        second = other;
        seconds = others;
    }
    next_byte(second, seconds).is_none()
}

/// The first byte of a slice and of those behind it, and what is left of them.
fn next_byte<'a>(slice: &'a [u8], slices: &'a [Bytes]) -> Option<(u8, &'a [u8], &'a [Bytes])>
    ensures { MatchOption result (slice.now ++ concat slices.now ≡ []) (λ r. slice.now ++ concat slices.now ≡ r.0 ∷ (r.1.now ++ concat r.2.now)) }
{
    if let Some((byte, rest)) = slice.split_first() {
        return Some((*byte, rest, slices));
    }
    let (next, others) = slices.split_first()?;
    next_byte(next.as_slice(), others)
}
