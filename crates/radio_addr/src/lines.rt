//! The lines of address lists.
ghost use Rattle.std.specs.Prelude.{◌≡◌, ◌≤◌, ◌+◌, length};
ghost use Rattle.std.specs.List.{prefix_len, suffix_len};
ghost use Rattle.radio_addr.specs.Lists.{width_of, range_of, line_of};

use crate::address::{Address, read_address};
use radio_texts::{cut, read_number, without_blanks, without_return};

/// The addresses that agree with `address` in its first `bits` bits.
#[derive(Clone, Copy)]
pub struct AddressRange {
    /// The address that others are compared with.
    pub address: Address,
    /// How many bits count, to 32 or 128.
    pub bits: u32,
}

/// What a line of an address list says.
#[derive(Clone, Copy)]
pub enum ListLine {
    /// Nothing: it is empty, or a comment.
    Passed,
    /// That these addresses are listed.
    Listed(AddressRange),
    /// It is of no known form.
    Bad,
}

/// What a line says.
#[tactic(auto, unfolding(crate::specs::Lists::line_of))]
pub fn read_line(line: &[u8]) -> ListLine
    ensures { result ≡ line_of line.now }
{
    let text = without_blanks(without_return(line));
    if text.is_empty() || text[0] == b'#' {
        return ListLine::Passed;
    }
    match read_range(text) {
        Some(range) => ListLine::Listed(range),
        None => ListLine::Bad,
    }
}

#[tactic(auto, unfolding(crate::specs::Lists::range_of))]
fn read_range(text: &[u8]) -> Option<AddressRange>
    ensures { result ≡ range_of text.now }
{
    match cut(text, b'/') {
        None => {
            let address = read_address(text)?;
            let bits = width(address);
            Some(AddressRange { address, bits })
        }
        Some((front, back)) => {
            let address = read_address(front)?;
            let bits = read_number(back, 10, u64::from(width(address)))?;
            Some(AddressRange {
                address,
                bits: bits as u32,
            })
        }
    }
}

/// How many bits an address has.
fn width(address: Address) -> u32
    ensures { result ≡ width_of address }
{
    match address {
        Address::V4(_) => 32,
        Address::V6(_) => 128,
    }
}
