//! Lists of addresses.
ghost use Rattle.std.specs.Prelude.{◌≡◌, ◌+◌, ◌/◌, ◌-◌, ◌^◌, ◌<◌, ◌≤◌, length, Ok, OnOk, IfOk, IfErr};
ghost use Rattle.radio_addr.specs.Lists.{is_in, AddsLine, FaultsLine};

use crate::address::Address;
use crate::lines::{AddressRange, ListLine, read_line};
use crate::peer::Peer;
use radio_texts::cut;
use std::alloc::{AllocError, Global};
use std::error::Error;
use std::fmt;
use std::marker::Model;

/// A list of addresses, as one that a server denies or allows.
pub struct AddressList {
    ranges: Vec<AddressRange>,
}

impl Drop for AddressList {
    fn drop(self) {
        let AddressList { ranges } = self;
        drop(ranges);
    }
}

impl Model for AddressList {
    ghost use Rattle.std.specs.Prelude.{List};
    ghost use Rattle.radio_addr.specs.declared.lines.AddressRange.{AddressRange};

    ghost Value = { List AddressRange };

    ghost view = { λ a. a.ranges.items };
}

/// Why a list can't be read.
#[derive(Debug, Clone, Copy, PartialEq, Eq)]
pub enum ListFault {
    /// A line is neither an address nor empty nor a comment: the first such line, counted from 1.
    LineFault { line: usize },
    /// There was no memory for the list.
    OutOfMemory,
}

impl fmt::Display for ListFault {
    ghost use Rattle.std.specs.Prelude.{Some};
    ghost use Rattle.radio_addr.specs.Lists.{fault_text};

    ghost output = { λ fault. Some (fault_text fault) };

    fn fmt<W: fmt::Write>(&self, f: &mut fmt::Formatter<W>) -> fmt::Result {
        match self {
            ListFault::LineFault { line } => write!(f, "line {line} is no address"),
            ListFault::OutOfMemory => write!(f, "out of memory"),
        }
    }
}

impl Error for ListFault {}

impl AddressList {
    ghost use Rattle.radio_addr.specs.Lists.{list_of, is_listed, Explains};

    /// Reads a list: one address a line, with an optional `/n`, a decimal number to 32 or 128, for its first n bits.
    ///
    /// One carriage return at a line's end is dropped, and then spaces and tabs at both ends. Lines that are empty
    /// then, or begin with `#`, are ignored. Any other line is a `LineFault`, and the first such line is returned. An
    /// IPv6 address stays one, whatever it is.
    // rule: Address list
    pub fn read(alloc: Global, bytes: &[u8]) -> Result<AddressList, ListFault>
        ensures ok { IfOk result (λ list. list_of bytes.now ≡ Ok list) }
        ensures fault { IfErr result (λ fault. Explains (list_of bytes.now) fault) }
    {
        let mut ranges = Vec::new(alloc);
        let mut passed = 0usize;
        let mut rest = bytes;
        'lines: while let Some((line, later)) = cut(rest, b'\n') {
            add_line(&mut ranges, line, passed)?;
            passed += 1;
            rest = later;
        }
        add_line(&mut ranges, rest, passed)?;
        Ok(AddressList { ranges })
    }

    /// Whether some line lists the peer: one of its family that agrees with it in the bits that count.
    // rule: Address list
    pub fn contains(&self, peer: Peer) -> bool
        ensures { result ≡ is_listed self.now peer }
    {
        self.ranges.iter().any(|range| is_in(range, peer))
    }
}

impl Clone for AddressList {
    ghost is_clone = { λ list other. other ≡ list };

    fn clone(&self) -> Result<AddressList, AllocError> {
        Ok(AddressList {
            ranges: self.ranges.clone()?,
        })
    }
}

/// Adds what a line lists; so many lines come before it.
fn add_line(ranges: &mut Vec<AddressRange>, line: &[u8], passed: usize) -> Result<(), ListFault>
    requires { passed + length line.now < 2 ^ 64 }
    ensures ok { OnOk result (AddsLine ranges.old.items passed line.now ranges.new.items) }
    ensures fault { IfErr result (λ fault. FaultsLine passed line.now fault) }
{
    match read_line(line) {
        ListLine::Passed => Ok(()),
        ListLine::Bad => Err(ListFault::LineFault { line: passed + 1 }),
        ListLine::Listed(range) => match ranges.push(range) {
            Ok(()) => Ok(()),
            Err(_) => Err(ListFault::OutOfMemory),
        },
    }
}

/// Whether a peer of the range's family agrees with its address in the bits that count.
fn is_in(range: &AddressRange, peer: Peer) -> bool
    ensures { result ≡ is_in range.now peer }
{
    match (range.address, peer.address()) {
        (Address::V4(address), Address::V4(n)) => {
            front_bits(u128::from(address), 32, range.bits)
                == front_bits(u128::from(n), 32, range.bits)
        }
        (Address::V6(address), Address::V6(n)) => {
            front_bits(address, 128, range.bits) == front_bits(n, 128, range.bits)
        }
        (Address::V4(_), Address::V6(_)) | (Address::V6(_), Address::V4(_)) => false,
    }
}

/// The first bits of a number of so many bits.
fn front_bits(number: u128, width: u32, bits: u32) -> u128
    requires { width ≤ 128 }
    ensures { result ≡ number / 2 ^ (width - bits) }
{
    let past = width.saturating_sub(bits);
    if past == 128 { 0 } else { number >> past }
}
