//! What is wrong with passes.

ghost use Rattle.std.specs.Fmt.{IsPlainFormatter, WritesOnOk};
ghost use Rattle.radio_hall.specs.FaultTexts.{count_text, order_text, place_text};

use crate::OutOfMemory;
use radio_book::Stamp;
use radio_merge::MergeFault;
use std::error::Error;
use std::fmt;

/// What is wrong with the passes of a server, or with its lists.
#[derive(Clone, Copy, Debug, PartialEq, Eq)]
pub enum SettleFault {
    /// The entry of the receipt of this place is not there.
    Strange(Stamp),
    /// Two receipts have this place.
    Twice(Stamp),
    /// In one pass a receipt of the place `got` comes after one of `seen`. Either both are of one list, and `got` is not behind
    /// `seen` there, or no order of all lists has them so. Both are zeros if it is no pass that is at fault.
    OutOfOrder { seen: Stamp, got: Stamp },
    /// A core that steps through the history gives another reply than the one at this place.
    Unlike(Stamp),
    /// The lists have so many entries, and the passes have so many receipts.
    Count { book: u64, passes: u64 },
    /// Memory was refused.
    OutOfMemory,
}

impl fmt::Display for SettleFault {
    ghost use Rattle.std.specs.Prelude.{Some};
    ghost use Rattle.radio_hall.specs.FaultTexts.{settle_fault_text};

    ghost output = { λ fault. Some (settle_fault_text fault) };

    fn fmt<W: fmt::Write>(&self, f: &mut fmt::Formatter<W>) -> fmt::Result {
        match self {
            SettleFault::Strange(at) => write_place(f, "strange receipt ", *at, ""),
            SettleFault::Twice(at) => write_place(f, "receipt ", *at, " twice"),
            SettleFault::OutOfOrder { seen, got } => write_order(f, *seen, *got),
            SettleFault::Unlike(at) => write_place(f, "another reply at ", *at, ""),
            SettleFault::Count { book, passes } => write_count(f, *book, *passes),
            SettleFault::OutOfMemory => f.write_str("out of memory"),
        }
    }
}

/// Writes a place, between two texts.
fn write_place<W: fmt::Write>(
    f: &mut fmt::Formatter<W>,
    before: &str,
    at: Stamp,
    after: &str,
) -> fmt::Result
    ensures { IsPlainFormatter f.old → WritesOnOk W.write_str_gives f.old result (place_text before.now at after.now) f.new }
{
    write!(f, "{before}{} of list {}{after}", at.serial, at.list)
}

/// Writes two places that are not in order.
fn write_order<W: fmt::Write>(f: &mut fmt::Formatter<W>, seen: Stamp, got: Stamp) -> fmt::Result
    ensures { IsPlainFormatter f.old → WritesOnOk W.write_str_gives f.old result (order_text seen got) f.new }
{
    write!(
        f,
        "receipt {} of list {} after {} of list {}",
        got.serial, got.list, seen.serial, seen.list
    )
}

/// Writes a number of entries, and one of receipts.
fn write_count<W: fmt::Write>(f: &mut fmt::Formatter<W>, book: u64, passes: u64) -> fmt::Result
    ensures { IsPlainFormatter f.old → WritesOnOk W.write_str_gives f.old result (count_text book passes) f.new }
{
    write!(f, "{book} entries, {passes} receipts")
}

impl Error for SettleFault {}

impl From<OutOfMemory> for SettleFault {
    fn from(_: OutOfMemory) -> SettleFault {
        SettleFault::OutOfMemory
    }
}

impl From<MergeFault> for SettleFault {
    ghost use Rattle.std.specs.Prelude.{◌≡◌};
    ghost use Rattle.radio_hall.specs.Settling.{of_merge};

    ghost from_gives = { λ fault made. made ≡ of_merge fault };

    fn from(fault: MergeFault) -> SettleFault {
        match fault {
            MergeFault::OutOfOrder { seen, got } => SettleFault::OutOfOrder { seen, got },
            MergeFault::Unlike(at) => SettleFault::Unlike(at),
            MergeFault::OutOfMemory => SettleFault::OutOfMemory,
        }
    }
}
