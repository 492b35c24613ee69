//! How addresses are written.
ghost use Rattle.std.specs.Prelude.{◌≡◌, ◌<◌, ◌/◌, ◌%◌, ◌*◌, ◌^◌};

use std::fmt;

/// An IPv4 address, written as a dotted quad.
#[derive(Drop)]
pub struct DottedQuad(pub u32);

impl fmt::Display for DottedQuad {
    ghost use Rattle.std.specs.Prelude.{Some};
    ghost use Rattle.radio_addr.specs.Writing.{written};
    ghost use Rattle.radio_addr.specs.declared.address.Address.TheVariants.{V4};

    ghost output = { λ quad. Some (written (V4 quad.0)) };

    fn fmt<W: fmt::Write>(&self, f: &mut fmt::Formatter<W>) -> fmt::Result {
        let n = self.0;
        let (a, b, c, d) = (n / 0x100_0000, n / 0x1_0000 % 256, n / 256 % 256, n % 256);
        write!(f, "{a}.{b}.{c}.{d}")
    }
}

/// An IPv6 address, written as eight groups.
#[derive(Drop)]
pub struct EightGroups(pub u128);

impl fmt::Display for EightGroups {
    ghost use Rattle.std.specs.Prelude.{Some};
    ghost use Rattle.radio_addr.specs.Writing.{written};
    ghost use Rattle.radio_addr.specs.declared.address.Address.TheVariants.{V6};

    ghost output = { λ groups. Some (written (V6 groups.0)) };

    fn fmt<W: fmt::Write>(&self, f: &mut fmt::Formatter<W>) -> fmt::Result {
        let n = self.0;
        let front = FourGroups(group(n, 7), group(n, 6), group(n, 5), group(n, 4));
        let back = FourGroups(group(n, 3), group(n, 2), group(n, 1), group(n, 0));
        write!(f, "{front}:{back}")
    }
}

/// Half of an IPv6 address, written as four groups.
#[derive(Drop)]
struct FourGroups(u32, u32, u32, u32);

impl fmt::Display for FourGroups {
    ghost use Rattle.std.specs.Prelude.{Some};
    ghost use Rattle.radio_addr.specs.Writing.{four_groups};

    ghost output = { λ groups. Some (four_groups groups.0 groups.1 groups.2 groups.3) };

    fn fmt<W: fmt::Write>(&self, f: &mut fmt::Formatter<W>) -> fmt::Result {
        let FourGroups(a, b, c, d) = self;
        write!(f, "{a:x}:{b:x}:{c:x}:{d:x}")
    }
}

/// A 16-bit group of an address, from the last one on.
fn group(n: u128, place: u32) -> u32
    requires { place < 8 }
    ensures { result ≡ n / 2 ^ (16 * place) % 65536 }
{
    ((n >> (16 * place)) % 65536) as u32
}
