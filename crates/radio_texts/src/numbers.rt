//! Numbers in digits.
ghost use Rattle.std.specs.Prelude.{◌≡◌, ◌≤◌, ◌+◌, ◌*◌};
ghost use Rattle.std.specs.Option.{IfSome};
ghost use Rattle.radio_texts.specs.Numbers.{number_of};

/// The number that digits write in a base, if they are digits alone, one at least, and it is at most `most`.
///
/// Zeros in front are let through, and letters as digits in either case. There is no sign.
#[tactic(auto, unfolding(crate::specs::Numbers::number_of))]
pub fn read_number(text: &[u8], base: u32, most: u64) -> Option<u64>
    requires low { 2 ≤ base }
    requires high { base ≤ 16 }
    ensures value { result ≡ number_of base most text.now }
    ensures fits { IfSome result (λ n. n ≤ most) }
{
    if text.is_empty() {
        return None;
    }
    let mut number = 0u64;
    for byte in text {
        let digit = (*byte as char).to_digit(base)?;
        let longer = with_digit(number, base, digit);
        if longer > u128::from(most) {
            return None;
        }
        number = longer as u64;
    }
    Some(number)
}

/// A number with one digit more at its end.
fn with_digit(number: u64, base: u32, digit: u32) -> u128
    ensures { result ≡ number * base + digit }
{
    u128::from(number) * u128::from(base) + u128::from(digit)
}
