//! The numbers of an address.
ghost use Rattle.std.specs.Prelude.{◌≡◌, ◌≤◌};
ghost use Rattle.std.specs.Option.{IfSome};
ghost use Rattle.radio_addr.specs.Numbers.{octet_of, group_of};

use radio_texts::read_number;

/// A decimal number to 255 with no needless zero in front.
#[tactic(auto, unfolding(crate::specs::Numbers::octet_of))]
pub fn read_octet(text: &[u8]) -> Option<u32>
    ensures value { result ≡ octet_of text.now }
    ensures fits { IfSome result (λ n. n ≤ 255) }
{
    if text.len() > 1 && text[0] == b'0' {
        return None;
    }
    let number = read_number(text, 10, 255)?;
    Some(number as u32)
}

/// One to four hexadecimal digits.
#[tactic(auto, unfolding(crate::specs::Numbers::group_of))]
pub fn read_group(text: &[u8]) -> Option<u32>
    ensures value { result ≡ group_of text.now }
    ensures fits { IfSome result (λ n. n ≤ 65535) }
{
    if text.len() > 4 {
        return None;
    }
    let number = read_number(text, 16, 65535)?;
    Some(number as u32)
}
