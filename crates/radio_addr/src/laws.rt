//! Laws: what the definitions say of every address list, in words of their own.
//!
//! Each law is a function that does nothing, and its contract is the law.
//! A caller that needs a law in a proof calls the function, and cites its clause.
ghost use Rattle.std.specs.Prelude.{◌≡◌, ◌↔◌, ◌^◌, ◌<◌, ℕ, List, Some, Ok, Err, true};
ghost use Rattle.radio_texts.specs.Cuts.{fields_at};
ghost use Rattle.radio_addr.specs.Lists.{is_in, list_of, range_from, range_of};
ghost use Rattle.radio_addr.specs.Laws.{AreRanges, IsFirstBad, ListsRange};
ghost use Rattle.radio_addr.specs.declared.lines.AddressRange.{AddressRange};
ghost use Rattle.radio_addr.specs.declared.address.Address.TheVariants.{V4, V6};

use radio_texts::laws::cuts;

/// A line with `/0` lists its whole family.
// rule: Address list
pub fn whole_families()
    ensures v4 { (a n : ℕ) → a < 2 ^ 32 → n < 2 ^ 32 → is_in (range_from (V4 a) 0) (V4 n) ≡ true }
    ensures v6 { (a n : ℕ)
        → a < 2 ^ 128 → n < 2 ^ 128 → is_in (range_from (V6 a) 0) (V6 n) ≡ true }
{}

/// A line that is neither empty nor a comment lists an address, or the addresses that share its first bits.
// rule: Address list
pub fn lines_list_ranges()
    ensures { (text : List ℕ) (range : AddressRange) → (range_of text ≡ Some range) ↔ ListsRange text range }
{
    cuts();
}

/// The fault of a list that can't be read is its first bad line, and one that can be read has no bad
/// line.
// rule: Address list
pub fn first_bad_lines()
    ensures fault { (text : List ℕ) (n : ℕ) → (list_of text ≡ Err n) ↔ IsFirstBad (fields_at 10 text) n }
    ensures list { (text : List ℕ) (ranges : List AddressRange)
        → (list_of text ≡ Ok ranges) ↔ AreRanges (fields_at 10 text) ranges }
{}
