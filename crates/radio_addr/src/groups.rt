//! The groups of IPv6 addresses.
ghost use Rattle.std.specs.Prelude.{◌≡◌, ◌≤◌, ◌<◌, ◌^◌, true};
ghost use Rattle.std.specs.Option.{option_map, option_and_then};
ghost use Rattle.radio_addr.specs.Addresses.{groups_of, last_groups, whole_address, shortened_of, v6_of};
ghost use Rattle.radio_addr.specs.Counts.{count_with, count_all, count_between};

use crate::numbers::read_group;
use crate::quad::read_quad;
use radio_texts::laws::fields;
use radio_texts::{cut, cut_at_two};

const MOST: u32 = 8;

/// Up to eight groups of 16 bits: how many they are, and the number that they write.
#[derive(Clone, Copy)]
struct Groups {
    count: u32,
    number: u128,
    ghost few: { count ≤ 8 },
    ghost small: { number < 65536 ^ count },
}

impl Groups {
    /// No groups.
    fn none() -> Groups
        ensures count { result.count ≡ 0 }
        ensures number { result.number ≡ 0 }
    {
        Groups {
            count: 0,
            number: 0,
        }
    }

    /// One group more, if it is not the ninth.
    fn with(self, group: u32) -> Option<Groups>
        requires { group < 65536 }
        ensures { let more = count_with (self.count, self.number) group in
            option_map (λ g. (g.count, g.number)) result ≡ more }
    {
        if self.count >= MOST {
            return None;
        }
        Some(Groups {
            count: self.count + 1,
            number: self.number * 65536 + u128::from(group),
        })
    }

    /// The number of eight groups, with zero groups between these and those of `back`, one at least.
    fn number_with_zeros(self, back: Groups) -> Option<u128>
        ensures { result ≡ count_between (self.count, self.number) (back.count, back.number) }
    {
        if self.count + back.count >= MOST {
            return None;
        }
        let mut number = self.number;
        for _place in self.count..MOST {
            number *= 65536;
        }
        Some(number + back.number)
    }
}

/// The groups of a text with colons between them; none in an empty text.
fn read_groups(text: &[u8], with_quad: bool) -> Option<Groups>
    ensures { let groups_read = groups_of with_quad text.now in
        option_map (λ g. (g.count, g.number)) result ≡ option_and_then (count_all (0, 0)) groups_read }
{
    fields();
    if text.is_empty() {
        return Some(Groups::none());
    }
    let mut groups = Groups::none();
    let mut rest = text;
    'groups: while let Some((field, later)) = cut(rest, b':') {
        let group = read_group(field)?;
        groups = groups.with(group)?;
        rest = later;
    }
    with_last(groups, rest, with_quad)
}

/// Returns the groups with those of the last field: one, or two where a dotted quad may be.
#[tactic(auto, unfolding(crate::specs::Addresses::last_groups))]
fn with_last(groups: Groups, field: &[u8], with_quad: bool) -> Option<Groups>
    ensures { let more = count_all (groups.count, groups.number) in
        option_map (λ g. (g.count, g.number)) result
        ≡ option_and_then more (last_groups with_quad field.now) }
{
    if let Some(group) = read_group(field) {
        return groups.with(group);
    }
    if !with_quad {
        return None;
    }
    let quad = read_quad(field)?;
    let groups = groups.with(quad / 65536)?;
    groups.with(quad % 65536)
}

/// An IPv6 address: eight groups, or fewer with one `::`.
#[tactic(auto, unfolding(crate::specs::Addresses::v6_of))]
pub fn read_v6(text: &[u8]) -> Option<u128>
    ensures { result ≡ v6_of text.now }
{
    match cut_at_two(text, b':') {
        Some((front, back)) => read_shortened(front, back),
        None => read_whole(text),
    }
}

/// An address of eight groups.
fn read_whole(text: &[u8]) -> Option<u128>
    ensures { result ≡ option_and_then whole_address (groups_of true text.now) }
{
    let groups = read_groups(text, true)?;
    if groups.count == MOST {
        Some(groups.number)
    } else {
        None
    }
}

/// An address with `::` between two texts of groups.
fn read_shortened(front: &[u8], back: &[u8]) -> Option<u128>
    ensures { result ≡ shortened_of (front.now, back.now) }
{
    let front = read_groups(front, false)?;
    let back = read_groups(back, true)?;
    front.number_with_zeros(back)
}
