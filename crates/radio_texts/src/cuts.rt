//! Texts cut at a byte.
ghost use Rattle.std.specs.Prelude.{◌≡◌, ◌+◌, length};
ghost use Rattle.std.specs.Option.{option_map, IfSome};
ghost use Rattle.radio_texts.specs.Cuts.{cut, cut_at_two, fields_at, fields_by};

/// Returns what is before and after the first byte `at`, or `None` if there is no such byte.
///
/// So a loop over the fields of a text cuts what is left at `at`: each cut takes one field and one byte `at` away, and
/// what can't be cut is the last field.
pub fn cut(text: &[u8], at: u8) -> Option<(&[u8], &[u8])>
    ensures parts { option_map (λ parts. (parts.0.now, parts.1.now)) result ≡ cut at text.now }
    ensures fields { fields_at at text.now
        ≡ fields_by at text.now (option_map (λ parts. (parts.0.now, parts.1.now)) result) }
    ensures sizes { IfSome result (λ parts. length parts.0.now + 1 + length parts.1.now ≡ length text.now) }
{
    first_cut(text, at)
}

fn first_cut(text: &[u8], at: u8) -> Option<(&[u8], &[u8])>
    ensures parts { option_map (λ parts. (parts.0.now, parts.1.now)) result ≡ cut at text.now }
    ensures sizes { IfSome result (λ parts. length parts.0.now + 1 + length parts.1.now ≡ length text.now) }
{
    for place in 0..text.len() {
        let (front, rest) = text.split_at(place);
        if rest[0] == at {
            let (_, back) = rest.split_at(1);
            return Some((front, back));
        }
    }
    None
}

/// Returns what is before and after the first two adjacent bytes `at`, or `None` if there are none.
pub fn cut_at_two(text: &[u8], at: u8) -> Option<(&[u8], &[u8])>
    ensures { option_map (λ parts. (parts.0.now, parts.1.now)) result ≡ cut_at_two at text.now }
{
    for place in 0..text.len() {
        let (front, rest) = text.split_at(place);
        if rest.starts_with(&[at, at]) {
            let (_, back) = rest.split_at(2);
            return Some((front, back));
        }
    }
    None
}
