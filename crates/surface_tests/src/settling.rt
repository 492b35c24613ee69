//! The passes of a book compared with its entries, and each fault that a caller can meet.

ghost use Rattle.std.specs.Prelude.{◌≡◌, ◌^◌};
ghost use Rattle.radio_hall.specs.Words.{no_lists, opening};

use crate::stations::{arrival, settings};
use radio_book::{Book, Entry, Kept, Origin, PASSES, Pass, Receipt, Stamp};
use radio_core::{Event, Lists, OutOfMemory, Reply};
use radio_hall::{Hall, SettleFault, settle, settle_books, settle_family};
use radio_merge::{ControlLine, Family, merge};
use radio_settings::{Settings, SettingsFault, read_settings};
use std::alloc::{AllocGlobal, Global};
use std::marker::Brand;
use std::mem;
use std::sync::ledger::Blank;

/// How many calls the two callers of a book make.
const CALLS: usize = 3;

/// Settings that let one client in.
const CLOSED: &str = "source-password = 'a'\nadmin-password = 'b'\n[limits]\nclients = 1\n";

/// What is wrong with the lists or the passes.
#[derive(Clone, Copy)]
enum Spoilt {
    Nothing,
    /// The last entry is not there.
    LastGone,
    /// The second pass is not there.
    PassGone,
    /// The same, and in the place of its entry a list of a mount is named that is not there.
    ListGone,
    /// A core of other settings steps through the entries.
    OtherSettings,
}

/// What is found then: a fault, or none.
const ROWS: &[(Spoilt, Option<SettleFault>)] = &[
    (Spoilt::Nothing, None),
    (
        Spoilt::LastGone,
        Some(SettleFault::Strange(Stamp { list: 0, serial: 3 })),
    ),
    (
        Spoilt::PassGone,
        Some(SettleFault::Count { book: 3, passes: 2 }),
    ),
    (
        Spoilt::ListGone,
        Some(SettleFault::OutOfOrder {
            seen: Stamp { list: 0, serial: 1 },
            got: Stamp { list: 0, serial: 3 },
        }),
    ),
    (
        Spoilt::OtherSettings,
        Some(SettleFault::Unlike(Stamp { list: 0, serial: 2 })),
    ),
];

impl Spoilt {
    /// The settings of the core that steps through the entries.
    fn settings(self, alloc: Global) -> Result<Settings, SettingsFault> {
        match self {
            Spoilt::OtherSettings => read_settings(alloc, CLOSED),
            Spoilt::Nothing | Spoilt::LastGone | Spoilt::PassGone | Spoilt::ListGone => {
                settings(alloc)
            }
        }
    }

    /// Spoils the list and the passes.
    fn spoils<H: Origin>(self, control: &mut Vec<ControlLine>, passes: &mut Vec<Pass<Kept, H>>) {
        match self {
            Spoilt::Nothing | Spoilt::OtherSettings => (),
            Spoilt::LastGone => control.truncate(CALLS - 1),
            Spoilt::PassGone => passes.truncate(1),
            Spoilt::ListGone => {
                passes.truncate(1);
                cut_second(control.as_mut_slice());
            }
        }
    }
}

/// The second line names a list that is not there.
fn cut_second(lines: &mut [ControlLine]) {
    let cut = ControlLine::Cut {
        list: 1,
        from: 0,
        to: 0,
    };
    match lines.get_mut(1) {
        Some(line) => drop(mem::replace(line, cut)),
        None => drop(cut),
    }
}

/// Adds a pass of the book. Whether there was one, and memory for it.
fn takes_pass<H: Origin>(book: &mut Book<Kept, H>, passes: &mut Vec<Pass<Kept, H>>) -> bool {
    match book.pass() {
        Some(pass) => passes.push(pass).is_ok(),
        None => false,
    }
}

/// An event is applied through a pass. Whether memory was not refused.
fn applies<H: Origin>(book: &mut Book<Kept, H>, pass: &mut Pass<Kept, H>, event: Event) -> bool {
    let mut none = [];
    match book.apply(pass, &mut none, event) {
        Ok(reply) => {
            drop(reply);
            true
        }
        Err(_) => false,
    }
}

/// Two callers come, and the first of them leaves. Whether they do.
fn call<H: Origin>(book: &mut Book<Kept, H>, passes: &mut [Pass<Kept, H>]) -> bool {
    match passes {
        [first, second] => {
            applies(book, first, arrival())
                && applies(book, second, arrival())
                && applies(book, first, Event::Leave { id: 1 })
        }
        _ => false,
    }
}

/// Whether the first caller has two receipts, of which this is the first.
fn has_receipts<H: Origin>(passes: &[Pass<Kept, H>]) -> bool {
    match passes {
        [first, _] => are_receipts(first.receipts()),
        _ => false,
    }
}

fn are_receipts(receipts: &[Receipt]) -> bool {
    match receipts {
        [first, _] => {
            first.stamp().serial == 1
                && matches!(first.event(), Event::Arrive { .. })
                && matches!(first.reply(), Reply::Arrived(1))
        }
        _ => false,
    }
}

/// Returns whether the wanted fault is found, or, if none is wanted, a history of all calls.
fn is_found(settled: Result<Vec<Entry>, SettleFault>, want: Option<SettleFault>) -> bool {
    match settled {
        Ok(history) => want.is_none() && history.len() == CALLS,
        Err(fault) => want == Some(fault),
    }
}

/// Whether that is found of entries that were spoilt so.
fn finds<H: Origin>(
    alloc: Global,
    mut control: Vec<ControlLine>,
    mut passes: Vec<Pass<Kept, H>>,
    spoilt: Spoilt,
    want: Option<SettleFault>,
) -> bool {
    spoilt.spoils(&mut control, &mut passes);
    let family = Family {
        control,
        mounts: Vec::new(alloc),
    };
    match spoilt.settings(alloc) {
        Ok(settings) => settles(alloc, settings, &family, passes.as_slice(), want),
        Err(_) => false,
    }
}

/// Returns whether that is found if a core of these settings steps through the lists.
fn settles<H: Origin>(
    alloc: Global,
    settings: Settings,
    family: &Family,
    passes: &[Pass<Kept, H>],
    want: Option<SettleFault>,
) -> bool {
    let settled = settle_family(alloc, settings, Lists::new(alloc), family, passes);
    is_found(settled, want)
}

/// Whether two callers of a book are served, and that is found then.
fn is_settled<H: Origin>(
    alloc: Global,
    settings: Settings,
    blank: Blank,
    spoilt: Spoilt,
    want: Option<SettleFault>,
) -> bool
    requires opening { H.opening ≡ opening settings no_lists }
    requires ledger { (blank.name ≡ H.name) × (blank.parts ≡ H.parts) × (blank.parts ≡ 2 ^ 32) }
{
    let mut book: Book<Kept, H> = Book::new(alloc, settings, Lists::new(alloc), blank);
    let mut passes = Vec::new(alloc);
    let are_two = takes_pass(&mut book, &mut passes) && takes_pass(&mut book, &mut passes);
    let are_called = call(&mut book, passes.as_mut_slice());
    let are_noted = has_receipts(passes.as_slice());
    let is_found = finds(alloc, book.into_lines(), passes, spoilt, want);
    are_two && are_called && are_noted && is_found
}

fn row_is_settled(
    alloc: Global,
    spoilt: Spoilt,
    want: Option<SettleFault>,
) -> Result<bool, SettingsFault> {
    let settings = settings(alloc)?;
    let blank = Blank::new(PASSES);
    Ok(is_settled::<Brand>(alloc, settings, blank, spoilt, want))
}

/// Entries that are whole are one history, and of those that are spoilt the first fault is found.
#[test]
fn faults_of_passes(rt: HostRuntime) {
    for (spoilt, want) in ROWS {
        assert!(rt; row_is_settled(rt.alloc(), *spoilt, *want) == Ok(true));
    }
}

/// Whether a book that nobody called settles to no entry.
fn is_empty_book<H: Origin>(
    alloc: Global,
    settings: Settings,
    again: Settings,
    blank: Blank,
) -> bool
    requires opening { H.opening ≡ opening settings no_lists }
    requires ledger { (blank.name ≡ H.name) × (blank.parts ≡ H.parts) × (blank.parts ≡ 2 ^ 32) }
{
    let book: Book<Kept, H> = Book::new(alloc, settings, Lists::new(alloc), blank);
    let none = Vec::new(alloc);
    let settled = settle_books(alloc, book, none, Vec::new(alloc), again, Lists::new(alloc));
    is_empty(settled)
}

/// The same of a hall.
fn is_empty_hall<H: Origin>(alloc: Global, settings: Settings, blank: Blank) -> bool
    requires opening { H.opening ≡ opening settings no_lists }
    requires ledger { (blank.name ≡ H.name) × (blank.parts ≡ H.parts) × (blank.parts ≡ 2 ^ 32) }
{
    let Ok(hall) = Hall::<Kept, H>::new(alloc, settings, Lists::new(alloc), blank) else {
        return false;
    };
    let settled = settle(alloc, hall, Vec::new(alloc));
    is_empty(settled)
}

fn is_empty(settled: Result<Vec<Entry>, SettleFault>) -> bool {
    match settled {
        Ok(history) => history.is_empty(),
        Err(_) => false,
    }
}

/// Whether no lists are merged to no history.
fn is_merged(alloc: Global, settings: Settings) -> bool {
    let family = Family {
        control: Vec::new(alloc),
        mounts: Vec::new(alloc),
    };
    match merge(alloc, settings, Lists::new(alloc), &family, &[]) {
        Ok(history) => history.is_empty(),
        Err(_) => false,
    }
}

fn book_is_empty(alloc: Global) -> Result<bool, SettingsFault> {
    let again = settings(alloc)?;
    match settings(alloc) {
        Ok(settings) => {
            let blank = Blank::new(PASSES);
            Ok(is_empty_book::<Brand>(alloc, settings, again, blank))
        }
        Err(fault) => {
            drop(again);
            Err(fault)
        }
    }
}

fn hall_is_empty(alloc: Global) -> Result<bool, SettingsFault> {
    let settings = settings(alloc)?;
    let blank = Blank::new(PASSES);
    Ok(is_empty_hall::<Brand>(alloc, settings, blank))
}

fn none_is_merged(alloc: Global) -> Result<bool, SettingsFault> {
    let settings = settings(alloc)?;
    Ok(is_merged(alloc, settings))
}

#[test]
fn nothing_is_a_history(rt: HostRuntime) {
    assert!(rt; book_is_empty(rt.alloc()) == Ok(true));
    assert!(rt; hall_is_empty(rt.alloc()) == Ok(true));
    assert!(rt; none_is_merged(rt.alloc()) == Ok(true));
}
